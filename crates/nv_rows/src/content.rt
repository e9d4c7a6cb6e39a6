// Lines of content.
use crate::fault::RowFault;
use crate::texts::Texts;
use nv_bytes::{number, split_field, unhex};

/// Whether a line is content, and no field.
pub fn is_content(line: &[u8]) -> bool {
    match line {
        [b'|' | b'*', ..] => true,
        _ => matches!(split_field(line).0, b"hex" | b"word" | b"int"),
    }
}

/// The bytes of these lines.
pub fn content_of(texts: &Texts, lines: &[&[u8]]) -> Result<Vec<u8>, RowFault> {
    let mut out = Vec::new(texts.alloc());
    for line in lines {
        put_line(texts, line, &mut out)?;
    }
    Ok(out)
}

// `|TEXT` is the text and a newline, `*N TEXT` the same so often; the others are numbers.
fn put_line(texts: &Texts, line: &[u8], out: &mut Vec<u8>) -> Result<(), RowFault> {
    match line {
        [b'|', text @ ..] => put_text(texts, text, 0, out),
        [b'*', rest @ ..] => put_repeated(texts, rest, out),
        _ => put_field(texts, line, out),
    }
}

// A word, and the numbers of its kind.
fn put_field(texts: &Texts, line: &[u8], out: &mut Vec<u8>) -> Result<(), RowFault> {
    let (word, numbers) = split_field(line);
    let numbers = texts.expanded(numbers.ok_or(RowFault::Number)?)?;
    put_numbers(texts, word, &numbers, out)
}

// A text, and a newline unless the text ends with a `$`.
fn put_text(texts: &Texts, text: &[u8], count: u32, out: &mut Vec<u8>) -> Result<(), RowFault> {
    match text {
        [begin @ .., b'$'] => texts.put(begin, count, out),
        _ => {
            texts.put(text, count, out)?;
            Ok(out.push(b'\n')?)
        }
    }
}

fn put_repeated(texts: &Texts, rest: &[u8], out: &mut Vec<u8>) -> Result<(), RowFault> {
    let (times, Some(text)) = split_field(rest) else {
        return Err(RowFault::Number);
    };
    let times = number(times).ok_or(RowFault::Number)?;
    for count in 0..times {
        put_text(texts, text, count, out)?;
    }
    Ok(())
}

// Numbers with spaces between them.
fn put_numbers(
    texts: &Texts,
    word: &[u8],
    numbers: &[u8],
    out: &mut Vec<u8>,
) -> Result<(), RowFault> {
    for number in numbers.split(|byte| *byte == b' ') {
        put_number(texts, word, number, out)?;
    }
    Ok(())
}

fn put_number(
    texts: &Texts,
    word: &[u8],
    number: &[u8],
    out: &mut Vec<u8>,
) -> Result<(), RowFault> {
    match word {
        b"hex" => put_hex(texts, number, out),
        b"word" => put_word(texts, number, out),
        _ => put_int(number, out),
    }
}

/// The bytes of hexadecimal digits.
pub fn hex_of(texts: &Texts, digits: &[u8]) -> Result<Vec<u8>, RowFault> {
    unhex(texts.alloc(), digits)?.ok_or(RowFault::Number)
}

fn put_hex(texts: &Texts, digits: &[u8], out: &mut Vec<u8>) -> Result<(), RowFault> {
    let bytes = hex_of(texts, digits)?;
    Ok(out.extend_from_slice(&bytes)?)
}

// Eight hexadecimal digits, whose lowest byte comes first.
fn put_word(texts: &Texts, digits: &[u8], out: &mut Vec<u8>) -> Result<(), RowFault> {
    let bytes = hex_of(texts, digits)?;
    match bytes.as_slice() {
        [a, b, c, d] => Ok(out.extend_from_slice(&[*d, *c, *b, *a])?),
        _ => Err(RowFault::Number),
    }
}

// A decimal of 32 bits, whose lowest byte comes first.
fn put_int(digits: &[u8], out: &mut Vec<u8>) -> Result<(), RowFault> {
    let text = str::from_utf8(digits).map_err(|_| RowFault::Number)?;
    let value: i32 = text.parse().map_err(|_| RowFault::Number)?;
    Ok(out.extend_from_slice(&value.to_le_bytes())?)
}
