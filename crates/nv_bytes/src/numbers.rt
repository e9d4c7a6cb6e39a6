// Numbers and bytes as texts.
ghost use Rattle.std.specs.Prelude.{◌≡◌, ◌++◌, ◌<◌, ◌≤◌, false, if◌then◌else◌, length, drop, IfOk, option_map, IfSome};
ghost use Rattle.std.specs.Char.{digit_value, is_ascii_digit, is_ascii_hexdigit};
ghost use Rattle.std.specs.Fmt.{digit_glyph};
ghost use Rattle.std.specs.List.{list_all};
ghost use Rattle.nv_bytes.specs.Numbers.{number_of, decimal_of, pair_of, unhexed, hex_pair_of};

use std::alloc::{AllocError, Global};

fn are_digits(text: &[u8]) -> bool
    ensures { result ≡ list_all is_ascii_digit text.now }
{
    text.iter().all(|byte| byte.is_ascii_digit())
}

/// The value of a text of decimal digits.
pub fn number(text: &[u8]) -> Option<u32>
    ensures { result ≡ number_of text.now }
{
    if !are_digits(text) {
        return None;
    }
    match str::from_utf8(text) {
        Ok(text) => text.parse().ok(),
        Err(_) => None,
    }
}

fn digit_count(value: u64) -> usize
    ensures count { result ≡ length (decimal_of value) }
    ensures most { result ≤ 20 }
{
    let mut count = 1;
    let mut rest = value;
    while rest >= 10 {
        rest /= 10;
        count += 1;
    }
    count
}

fn put_digits(value: u64, out: &mut [u8])
    requires { length out.old ≡ length (decimal_of value) }
    ensures { out.new ≡ decimal_of value }
{
    let mut place = out.len() - 1;
    let mut rest = value;
    while rest >= 10 {
        out[place] = b'0' + (rest % 10) as u8;
        rest /= 10;
        place -= 1;
    }
    out[place] = b'0' + rest as u8;
}

/// Writes a number in decimal at the beginning, without leading zeros, and gives the length of its text.
pub fn decimal(value: u64, out: &mut [u8; 20]) -> usize
    ensures count { result ≡ length (decimal_of value) }
    ensures text { out.new ≡ decimal_of value ++ drop (length (decimal_of value)) out.old }
{
    let count = digit_count(value);
    put_digits(value, &mut out[..count]);
    count
}

fn hex_value(digit: u8) -> Option<u8>
    ensures value { result ≡ (if is_ascii_hexdigit digit then Some (digit_value digit) else None) }
    ensures below { IfSome result (λ value. value < 16) }
{
    match digit {
        b'0'..=b'9' => Some(digit - b'0'),
        b'a'..=b'f' => Some(digit - b'a' + 10),
        b'A'..=b'F' => Some(digit - b'A' + 10),
        _ => None,
    }
}

fn pair_value(high: u8, low: u8) -> Option<u8>
    ensures { result ≡ pair_of high low }
{
    let high = hex_value(high)?;
    let low = hex_value(low)?;
    Some(16 * high + low)
}

/// The bytes of a text of hexadecimal digits of either case, two a byte.
pub fn unhex(alloc: Global, text: &[u8]) -> Result<Option<Vec<u8>>, AllocError>
    ensures { IfOk result (λ found. option_map (λ bytes. bytes.items) found ≡ unhexed text.now) }
{
    let mut bytes = Vec::new(alloc);
    let mut rest = text;
    while let [high, low, digits @ ..] = rest {
        let Some(byte) = pair_value(*high, *low) else {
            return Ok(None);
        };
        bytes.push(byte)?;
        rest = digits;
    }
    Ok(if rest.is_empty() { Some(bytes) } else { None })
}

fn hex_digit(value: u8) -> u8
    requires { value < 16 }
    ensures { result ≡ digit_glyph false value }
{
    if value < 10 {
        b'0' + value
    } else {
        b'a' + (value - 10)
    }
}

/// A byte as two hexadecimal digits, in lower case.
pub fn hex_pair(byte: u8) -> [u8; 2]
    ensures { result ≡ hex_pair_of byte }
{
    [hex_digit(byte / 16), hex_digit(byte % 16)]
}
