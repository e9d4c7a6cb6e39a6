// Bytes at an address.
ghost use Rattle.std.specs.Prelude.{◌≡◌, ℕ, ◌+◌, ◌-◌, ◌≤◌, length, replicate};
ghost use Rattle.nv_memory.specs.Bytes.{bytes_at, put, little, little_bytes, byte_count};
ghost use Rattle.nv_memory.specs.Image.{cut};

use crate::region::Width;

// How many bytes the width has.
pub fn count(width: Width) -> usize
    ensures { result ≡ byte_count width }
{
    match width {
        Width::One => 1,
        Width::Two => 2,
        Width::Four => 4,
    }
}

// The number at the address.
pub fn read(bytes: &[u8], at: usize, width: Width) -> u32
    requires { at + byte_count width ≤ length bytes.now }
    ensures { result ≡ little (bytes_at bytes.now at (byte_count width)) }
{
    match width {
        Width::One => bytes[at] as u32,
        Width::Two => bytes[at] as u32 + bytes[at + 1] as u32 * 256,
        Width::Four => {
            let low = bytes[at] as u32 + bytes[at + 1] as u32 * 256;
            let high = bytes[at + 2] as u32 + bytes[at + 3] as u32 * 256;
            low + high * 65536
        }
    }
}

// Writes the low bytes of the number at the address.
pub fn write(bytes: &mut [u8], at: usize, width: Width, value: u32)
    requires { at + byte_count width ≤ length bytes.old }
    ensures { bytes.new ≡ put bytes.old at (little_bytes (byte_count width) value) }
{
    match width {
        Width::One => bytes[at] = (value % 256) as u8,
        Width::Two => {
            bytes[at] = (value % 256) as u8;
            bytes[at + 1] = (value / 256 % 256) as u8;
        }
        Width::Four => {
            bytes[at] = (value % 256) as u8;
            bytes[at + 1] = (value / 256 % 256) as u8;
            bytes[at + 2] = (value / 65536 % 256) as u8;
            bytes[at + 3] = (value / 16_777_216 % 256) as u8;
        }
    }
}

// Writes the bytes from the address on.
pub fn write_all(bytes: &mut [u8], at: usize, from: &[u8])
    requires { at + length from.now ≤ length bytes.old }
    ensures { bytes.new ≡ put bytes.old at from.now }
{
    bytes[at..at + from.len()].copy_from_slice(from);
}

// Writes 0 from one address to below another.
#[tactic(auto, using(crate::proofs::Loops::put_zero))]
pub fn clear(bytes: &mut [u8], from: usize, to: usize)
    requires ordered { from ≤ to }
    requires inside { to ≤ length bytes.old }
    ensures { bytes.new ≡ put bytes.old from (replicate (to - from) 0) }
{
    for i in from..to {
        bytes[i] = 0;
    }
}

// Writes 0 from a new end to below the one before it, where that was higher.
pub fn cut(bytes: &mut [u8], before: usize, end: usize)
    requires { before ≤ length bytes.old }
    ensures { bytes.new ≡ cut bytes.old before end }
{
    if end < before {
        clear(bytes, end, before);
    }
}

// The bytes from the address on.
#[tactic(auto, using(crate::proofs::Loops::part_is_bytes))]
pub fn part(bytes: &[u8], at: usize, size: usize) -> &[u8]
    requires { at + size ≤ length bytes.now }
    ensures { result.now ≡ bytes_at bytes.now at size }
{
    &bytes[at..at + size]
}

// Reads the bytes from the address on.
#[tactic(auto, using(crate::proofs::Loops::part_is_bytes))]
pub fn read_all(bytes: &[u8], at: usize, out: &mut [u8])
    requires { at + length out.old ≤ length bytes.now }
    ensures { out.new ≡ bytes_at bytes.now at (length out.old) }
{
    out.copy_from_slice(&bytes[at..at + out.len()]);
}
