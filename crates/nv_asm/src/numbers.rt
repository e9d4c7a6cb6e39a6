// Registers and numbers.
ghost use Rattle.std.specs.Prelude.{◌≡◌, ℕ, ℤ, pos, ◌≤ℤ◌, ◌<ℤ◌, neg_ℤ, ◌≤◌, ◌<◌, ◌^◌, true, length, option_map, IfSome, is_some};
ghost use Rattle.std.specs.List.{list_all};
ghost use Rattle.std.specs.Str.{IsAscii};
ghost use Rattle.std.specs.Str.Parse.{digits_value, IsNumeral};
ghost use Rattle.nv_bytes.specs.Names.{defined};
ghost use Rattle.nv_bytes.specs.Lines.{is_digit};
ghost use Rattle.std.specs.Char.{is_ascii_digit, is_ascii_hexdigit};
ghost use Rattle.nv_asm.specs.Numbers.{registers, register_named, numbered_register, decimal, hexadecimal, magnitude, signed, literal, number, number_of_32_bits, is_number};
ghost use Rattle.nv_asm.specs.inner.Small.{small, small_signed, with_sign, IsDigits};

use nv_bytes::find;

/// A register's number.
#[derive(Clone, Copy, Debug, PartialEq, Eq)]
pub struct Register {
    pub number: u8,
    ghost small: { number < 32 },
}

const REGISTERS: [(&str, u8); 33] = [
    ("zero", 0),
    ("ra", 1),
    ("sp", 2),
    ("gp", 3),
    ("tp", 4),
    ("t0", 5),
    ("t1", 6),
    ("t2", 7),
    ("s0", 8),
    ("fp", 8),
    ("s1", 9),
    ("a0", 10),
    ("a1", 11),
    ("a2", 12),
    ("a3", 13),
    ("a4", 14),
    ("a5", 15),
    ("a6", 16),
    ("a7", 17),
    ("s2", 18),
    ("s3", 19),
    ("s4", 20),
    ("s5", 21),
    ("s6", 22),
    ("s7", 23),
    ("s8", 24),
    ("s9", 25),
    ("s10", 26),
    ("s11", 27),
    ("t3", 28),
    ("t4", 29),
    ("t5", 30),
    ("t6", 31),
];

#[tactic(auto, unfolding(crate::specs::Numbers::registers))]
fn named(word: &[u8]) -> Option<u8>
    ensures value { result ≡ defined registers word.now }
    ensures small { IfSome result (λ number. number < 32) }
{
    find(&REGISTERS, word)
}

fn is_digit(byte: u8) -> bool
    ensures { result ≡ is_digit byte }
{
    byte >= b'0' && byte <= b'9'
}

// x0 to x31.
fn numbered_register(text: &[u8]) -> Option<u8>
    ensures value { result ≡ numbered_register text.now }
    ensures small { IfSome result (λ number. number < 32) }
{
    match text {
        [b'x', unit] if is_digit(*unit) => Some(*unit - b'0'),
        [b'x', ten, unit] if *ten >= b'1' && is_digit(*ten) && is_digit(*unit) => {
            let value = 10 * (*ten - b'0') + (*unit - b'0');
            if value < 32 { Some(value) } else { None }
        }
        _ => None,
    }
}

/// The register of a name.
#[tactic(auto, unfolding(crate::specs::Numbers::register_named))]
pub fn register_of(text: &[u8]) -> Option<Register>
    ensures { option_map (λ r. r.number) result ≡ register_named text.now }
{
    let number = match numbered_register(text) {
        Some(number) => number,
        None => named(text)?,
    };
    Some(Register { number })
}

// The value of digits, where it has 32 bits.
fn value(digits: &[u8], radix: u32) -> Option<u32>
    requires least { 2 ≤ radix }
    requires most { radix ≤ 36 }
    requires digits { IsDigits radix digits.now }
    ensures { result ≡ small (digits_value radix digits.now) }
{
    match str::from_utf8(digits) {
        Ok(text) => u32::from_str_radix(text, radix).ok(),
        Err(_) => None,
    }
}

fn are_decimal(digits: &[u8]) -> bool
    ensures { result ≡ list_all is_ascii_digit digits.now }
{
    digits.iter().all(|byte| byte.is_ascii_digit())
}

fn are_hexadecimal(digits: &[u8]) -> bool
    ensures { result ≡ list_all is_ascii_hexdigit digits.now }
{
    digits.iter().all(|byte| byte.is_ascii_hexdigit())
}

fn decimal(digits: &[u8]) -> Option<Option<u32>>
    ensures { result ≡ option_map small (decimal digits.now) }
{
    if are_decimal(digits) && !digits.is_empty() {
        Some(value(digits, 10))
    } else {
        None
    }
}

fn hexadecimal(digits: &[u8]) -> Option<Option<u32>>
    ensures { result ≡ option_map small (hexadecimal digits.now) }
{
    if are_hexadecimal(digits) && !digits.is_empty() {
        Some(value(digits, 16))
    } else {
        None
    }
}

fn magnitude(text: &[u8]) -> Option<Option<u32>>
    ensures { result ≡ option_map small (magnitude text.now) }
{
    match text {
        [b'0', b'x', digits @ ..] => hexadecimal(digits),
        _ => decimal(text),
    }
}

fn signed(negative: bool, size: Option<u32>) -> Option<i64>
    ensures { result ≡ option_map (with_sign negative) size }
{
    match size {
        None => None,
        Some(size) if negative => Some(-i64::from(size)),
        Some(size) => Some(i64::from(size)),
    }
}

// A number, and its value where that has at most 32 bits and a sign.
#[tactic(auto, unfolding(crate::specs::Numbers::literal))]
fn literal(text: &[u8]) -> Option<Option<i64>>
    ensures { result ≡ option_map small_signed (literal text.now) }
{
    match text {
        [b'-', digits @ ..] => Some(signed(true, magnitude(digits)?)),
        _ => Some(signed(false, magnitude(text)?)),
    }
}

/// Whether this is a number, of any size.
pub fn is_number(text: &[u8]) -> bool
    ensures { result ≡ is_number text.now }
{
    literal(text).is_some()
}

/// A number in a range of 32 bits: what is none is `None`, and what is off its range `Some(None)`.
#[tactic(auto, unfolding(crate::specs::Numbers::number))]
pub fn number(least: i32, most: i32, text: &[u8]) -> Option<Option<i32>>
    ensures value { result ≡ number least most text.now }
    ensures within { IfSome result (λ read. IfSome read (λ value. (least ≤ℤ value) × (value ≤ℤ most))) }
{
    match literal(text)? {
        Some(value) if i64::from(least) <= value && value <= i64::from(most) => {
            Some(Some(value as i32))
        }
        _ => Some(None),
    }
}

/// A number of 32 bits, with a sign or without.
#[tactic(auto, unfolding(crate::specs::Numbers::number))]
pub fn number_of_32_bits(text: &[u8]) -> Option<Option<i64>>
    ensures value { result ≡ number_of_32_bits text.now }
    ensures within { IfSome result (λ read. IfSome read (λ value. (neg_ℤ (pos 2147483648) ≤ℤ value) × (value ≤ℤ pos 4294967295))) }
{
    match literal(text)? {
        Some(value) if value >= -2_147_483_648 && value <= 4_294_967_295 => Some(Some(value)),
        _ => Some(None),
    }
}
