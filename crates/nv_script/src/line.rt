// The reader of an arrival's line.
ghost use Rattle.std.specs.Prelude.{◌≡◌, IfOk, option_map, true};
ghost use Rattle.nv_bytes.specs.Numbers.{number_of, unhexed};
ghost use Rattle.nv_script.specs.Arrivals.{is_arrival};
ghost use Rattle.nv_script.specs.Reading.{sized, bytes_of, line_arrival, input_with, connect_with, data_with, data_in, end_with, end_of, time_with, time_in, arrival_by, arrival_of};
ghost use Rattle.nv_script.specs.ArrivalViews.{view, result_view};
ghost use Rattle.nv_script.specs.inner.ArrivalViews.{bytes_view};

use crate::arrival::{Arrival, ArrivalCause, MOST_ARRIVAL};
use crate::word::{Word, word_of};
use nv_bytes::{is, number, split_field, unhex};
use std::alloc::{AllocError, Global};

const MOST_PORT: u32 = 65_535;

const MOST_NANOS: u32 = 999_999_999;

// `line TEXT`.
fn read_line(alloc: Global, text: &[u8]) -> Result<Result<Arrival, ArrivalCause>, AllocError>
    ensures { IfOk result (λ read. result_view read ≡ line_arrival text.now) }
{
    if text.len() >= MOST_ARRIVAL {
        return Ok(Err(ArrivalCause::Long));
    }
    let mut bytes = text.to_vec(alloc)?;
    bytes.push(b'\n')?;
    Ok(Ok(Arrival::Input(bytes)))
}

// Bytes of which there are some, and not too many.
fn sized(bytes: Vec<u8>) -> Result<Vec<u8>, ArrivalCause>
    ensures { bytes_view result ≡ sized bytes.items }
{
    if bytes.is_empty() {
        return Err(ArrivalCause::Shape);
    }
    if bytes.len() > MOST_ARRIVAL {
        return Err(ArrivalCause::Long);
    }
    Ok(bytes)
}

fn read_bytes(alloc: Global, hex: &[u8]) -> Result<Result<Vec<u8>, ArrivalCause>, AllocError>
    ensures { IfOk result (λ read. bytes_view read ≡ bytes_of (unhexed hex.now)) }
{
    match unhex(alloc, hex)? {
        None => Ok(Err(ArrivalCause::Shape)),
        Some(bytes) => Ok(sized(bytes)),
    }
}

fn input_with(bytes: Result<Vec<u8>, ArrivalCause>) -> Result<Arrival, ArrivalCause>
    ensures { result_view result ≡ input_with (bytes_view bytes) }
{
    match bytes {
        Ok(bytes) => Ok(Arrival::Input(bytes)),
        Err(cause) => Err(cause),
    }
}

// `connect PORT`.
fn connect_with(port: Option<u32>) -> Result<Arrival, ArrivalCause>
    ensures { result_view result ≡ connect_with port }
{
    match port {
        None => Err(ArrivalCause::Shape),
        Some(port) if port >= 1 && port <= MOST_PORT => Ok(Arrival::Connect(port)),
        Some(_) => Err(ArrivalCause::Range),
    }
}

fn data_with(
    client: Option<u32>,
    bytes: Result<Vec<u8>, ArrivalCause>,
) -> Result<Arrival, ArrivalCause>
    ensures { result_view result ≡ data_with client (bytes_view bytes) }
{
    match (client, bytes) {
        (None, _) => Err(ArrivalCause::Shape),
        (Some(_), Err(cause)) => Err(cause),
        (Some(client), Ok(bytes)) => Ok(Arrival::Data(client, bytes)),
    }
}

// `data N HEX`.
fn read_data(alloc: Global, text: &[u8]) -> Result<Result<Arrival, ArrivalCause>, AllocError>
    ensures { IfOk result (λ read. result_view read ≡ data_in text.now) }
{
    let (client, rest) = split_field(text);
    match rest {
        None => Ok(Err(ArrivalCause::Shape)),
        Some(hex) => Ok(data_with(number(client), read_bytes(alloc, hex)?)),
    }
}

fn end_with(client: Option<u32>) -> Result<Arrival, ArrivalCause>
    ensures { result_view result ≡ end_with client }
{
    match client {
        Some(client) => Ok(Arrival::End(client)),
        None => Err(ArrivalCause::Shape),
    }
}

// `end input`, `end clients` or `end N`.
fn read_end(text: &[u8]) -> Result<Arrival, ArrivalCause>
    ensures { result_view result ≡ end_of text.now }
{
    if is(text, "input") {
        Ok(Arrival::InputEnd)
    } else if is(text, "clients") {
        Ok(Arrival::ClientsEnd)
    } else {
        end_with(number(text))
    }
}

fn time_with(seconds: Option<u32>, nanos: Option<u32>) -> Result<Arrival, ArrivalCause>
    ensures { result_view result ≡ time_with seconds nanos }
{
    match (seconds, nanos) {
        (Some(seconds), Some(nanos)) if nanos <= MOST_NANOS => Ok(Arrival::Time(seconds, nanos)),
        (Some(_), Some(_)) => Err(ArrivalCause::Range),
        _ => Err(ArrivalCause::Shape),
    }
}

// `time S N`.
fn read_time(text: &[u8]) -> Result<Arrival, ArrivalCause>
    ensures { result_view result ≡ time_in text.now }
{
    let (seconds, rest) = split_field(text);
    match rest {
        None => Err(ArrivalCause::Shape),
        Some(nanos) => time_with(number(seconds), number(nanos)),
    }
}

// A line by its word and the rest after the word's space.
fn arrival_by(
    alloc: Global,
    word: Word,
    rest: &[u8],
) -> Result<Result<Arrival, ArrivalCause>, AllocError>
    ensures { IfOk result (λ read. result_view read ≡ arrival_by word rest.now) }
{
    match word {
        Word::Line => read_line(alloc, rest),
        Word::Input => Ok(input_with(read_bytes(alloc, rest)?)),
        Word::Connect => Ok(connect_with(number(rest))),
        Word::Data => read_data(alloc, rest),
        Word::End => Ok(read_end(rest)),
        Word::Time => Ok(read_time(rest)),
    }
}

#[tactic(auto, unfolding(crate::specs::Reading::arrival_of))]
fn arrival(alloc: Global, line: &[u8]) -> Result<Result<Arrival, ArrivalCause>, AllocError>
    ensures { IfOk result (λ read. result_view read ≡ arrival_of line.now) }
{
    let (word, rest) = split_field(line);
    match (word_of(word), rest) {
        (None, _) => Ok(Err(ArrivalCause::Word)),
        (Some(_), None) => Ok(Err(ArrivalCause::Shape)),
        (Some(word), Some(rest)) => arrival_by(alloc, word, rest),
    }
}

/// The arrival of a line, or the first cause of those that the line has by itself.
pub fn read_arrival(alloc: Global, line: &[u8]) -> Result<Result<Arrival, ArrivalCause>, AllocError>
    ensures arrival { IfOk result (λ read. result_view read ≡ arrival_of line.now) }
    ensures sound { IfOk result (λ read. IfOk read (λ arrival. is_arrival (view arrival) ≡ true)) }
{
    arrival(alloc, line)
}
