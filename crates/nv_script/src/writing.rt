// The writer of an arrival's line.
ghost use Rattle.std.specs.Prelude.{◌≡◌, ◌++◌, ◌==◌, ◌&&◌, OnOk, Ok, true, length, codes};
ghost use Rattle.std.specs.List.{list_all};
ghost use Rattle.nv_bytes.specs.Numbers.{decimal_of, hex_of};
ghost use Rattle.nv_script.specs.Arrivals.{AreBytes, is_arrival};
ghost use Rattle.nv_script.specs.Reading.{arrival_of};
ghost use Rattle.nv_script.specs.Writing.{is_printable, is_line, input_text, line_text};
ghost use Rattle.nv_script.specs.ArrivalViews.{view};

use crate::arrival::Arrival;
use nv_bytes::{decimal, hex_pair};
use std::alloc::AllocError;

// Adds a number in decimal.
fn put_number(out: &mut Vec<u8>, value: u32) -> Result<(), AllocError>
    ensures { OnOk result (out.new.items ≡ out.old.items ++ decimal_of value) }
{
    let mut digits = [0; 20];
    let count = decimal(u64::from(value), &mut digits);
    out.extend_from_slice(&digits[..count])?;
    Ok(())
}

// Adds bytes in hexadecimal digits.
#[tactic(auto, using(crate::proofs::Hex::hex_more))]
fn put_hex(out: &mut Vec<u8>, bytes: &[u8]) -> Result<(), AllocError>
    ensures { OnOk result (out.new.items ≡ out.old.items ++ hex_of bytes.now) }
{
    for byte in bytes {
        out.extend_from_slice(&hex_pair(*byte))?;
    }
    Ok(())
}

fn are_printable(text: &[u8]) -> bool
    ensures { result ≡ list_all is_printable text.now }
{
    text.iter().all(|byte| *byte >= b' ' && *byte <= b'~')
}

// Whether they are a text and its newline.
#[tactic(auto, unfolding(crate::specs::Writing::is_line))]
fn is_line(bytes: &[u8]) -> bool
    ensures { result ≡ is_line bytes.now }
{
    match bytes {
        [text @ .., last] => *last == b'\n' && are_printable(text),
        [] => false,
    }
}

#[tactic(auto, using(crate::proofs::Texts::are_bytes))]
fn put_input(out: &mut Vec<u8>, bytes: &[u8]) -> Result<(), AllocError>
    ensures text { OnOk result (out.new.items ≡ out.old.items ++ (input_text bytes.now ++ codes "\n")) }
    ensures below { AreBytes bytes.now }
{
    if is_line(bytes) {
        out.extend_from_slice(b"line ")?;
        out.extend_from_slice(bytes)?;
    } else {
        out.extend_from_slice(b"input ")?;
        put_hex(out, bytes)?;
        out.push(b'\n')?;
    }
    Ok(())
}

#[tactic(auto, using(crate::proofs::Texts::are_bytes))]
fn put_data(out: &mut Vec<u8>, client: u32, bytes: &[u8]) -> Result<(), AllocError>
    ensures text { OnOk result (out.new.items ≡ out.old.items ++ ((codes "data " ++ (decimal_of client ++ (codes " " ++ hex_of bytes.now))) ++ codes "\n")) }
    ensures below { AreBytes bytes.now }
{
    out.extend_from_slice(b"data ")?;
    put_number(out, client)?;
    out.push(b' ')?;
    put_hex(out, bytes)?;
    out.push(b'\n')?;
    Ok(())
}

fn put_numbered(out: &mut Vec<u8>, word: &[u8], value: u32) -> Result<(), AllocError>
    ensures { OnOk result (out.new.items ≡ out.old.items ++ ((word.now ++ decimal_of value) ++ codes "\n")) }
{
    out.extend_from_slice(word)?;
    put_number(out, value)?;
    out.push(b'\n')?;
    Ok(())
}

fn put_time(out: &mut Vec<u8>, seconds: u32, nanos: u32) -> Result<(), AllocError>
    ensures { OnOk result (out.new.items ≡ out.old.items ++ ((codes "time " ++ (decimal_of seconds ++ (codes " " ++ decimal_of nanos))) ++ codes "\n")) }
{
    out.extend_from_slice(b"time ")?;
    put_number(out, seconds)?;
    out.push(b' ')?;
    put_number(out, nanos)?;
    out.push(b'\n')?;
    Ok(())
}

fn put_text(out: &mut Vec<u8>, text: &[u8]) -> Result<(), AllocError>
    ensures { OnOk result (out.new.items ≡ out.old.items ++ text.now) }
{
    out.extend_from_slice(text)?;
    Ok(())
}

/// Adds the line of an arrival, with its newline.
#[tactic(auto, using(crate::proofs::ReadBack::read_back), unfolding(crate::specs::Writing::line_text))]
pub fn put_line(out: &mut Vec<u8>, arrival: &Arrival) -> Result<(), AllocError>
    ensures read_back { is_arrival (view arrival.now) ≡ true → arrival_of (line_text (view arrival.now)) ≡ Ok (view arrival.now) }
    ensures text { OnOk result (out.new.items ≡ out.old.items ++ (line_text (view arrival.now) ++ codes "\n")) }
{
    match arrival {
        Arrival::Input(bytes) => put_input(out, bytes.as_slice()),
        Arrival::InputEnd => put_text(out, b"end input\n"),
        Arrival::ClientsEnd => put_text(out, b"end clients\n"),
        Arrival::Connect(port) => put_numbered(out, b"connect ", *port),
        Arrival::Data(client, bytes) => put_data(out, *client, bytes.as_slice()),
        Arrival::End(client) => put_numbered(out, b"end ", *client),
        Arrival::Time(seconds, nanos) => put_time(out, *seconds, *nanos),
    }
}
