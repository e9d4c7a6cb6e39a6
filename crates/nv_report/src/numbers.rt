// Numbers, in decimal and as hexadecimal digits.
ghost use Rattle.std.specs.Prelude.{◌≡◌, ◌≤◌, length};
ghost use Rattle.std.specs.List.{flat_map};
ghost use Rattle.nv_outside.specs.Sink.{Puts};
ghost use Rattle.nv_bytes.specs.Numbers.{hex_of};
ghost use Rattle.nv_report.specs.Numbers.{number_text};

use arrayvec::ArrayVec;
use itoa::Buffer;
use nv_outside::{Put, Sink, put_all};

// The digits of a number of 32 bits and a space.
const LONGEST: usize = 11;

// How many bytes are spelt at a time.
const PART: usize = 64;

// A number with a space after it, in one piece.
fn put_number<S: Sink>(sink: &mut S, number: u32) -> Put
    ensures { Puts (S.told sink.old) (S.faults sink.old) (number_text number) result (S.told sink.new) (S.faults sink.new) }
{
    let mut digits = Buffer::new();
    let mut text: ArrayVec<u8, LONGEST> = ArrayVec::new();
    let Ok(()) = text.try_extend_from_slice(digits.format(number).as_bytes()) else {
        unreachable!()
    };
    text.push(b' ');
    put_all(sink, &text)
}

// Each number with a space after it.
pub fn put_numbers<S: Sink>(sink: &mut S, numbers: &[u32]) -> Put
    ensures { Puts (S.told sink.old) (S.faults sink.old) (flat_map number_text numbers.now) result (S.told sink.new) (S.faults sink.new) }
{
    for number in numbers {
        put_number(sink, *number)?;
    }
    Ok(())
}

// So few bytes as hexadecimal digits, in one piece.
fn put_part<S: Sink>(sink: &mut S, part: &[u8]) -> Put
    requires { length part.now ≤ PART }
    ensures { Puts (S.told sink.old) (S.faults sink.old) (hex_of part.now) result (S.told sink.new) (S.faults sink.new) }
{
    let mut digits = [0; 2 * PART];
    let text = &mut digits[..2 * part.len()];
    match hex::encode_to_slice(part, text) {
        Ok(()) => put_all(sink, text),
        Err(_) => unreachable!(),
    }
}

/// Writes each byte as two hexadecimal digits.
pub fn put_hex<S: Sink>(sink: &mut S, bytes: &[u8]) -> Put
    ensures { Puts (S.told sink.old) (S.faults sink.old) (hex_of bytes.now) result (S.told sink.new) (S.faults sink.new) }
{
    for part in bytes.chunks(PART) {
        put_part(sink, part)?;
    }
    Ok(())
}
