// Little-endian fields in a slice.
#![tactic(auto, unfolding(crate::specs::LittleEndian::field_at, crate::specs::LittleEndian::with_field))]

ghost use Rattle.std.specs.Prelude.{◌≡◌, ◌+◌, ◌≤◌, length};
ghost use Rattle.nv_bytes.specs.LittleEndian.{field_at, with_field};

use byteorder::{ByteOrder, LittleEndian};

/// The field of two bytes at this place.
pub fn u16_at(bytes: &[u8], place: usize) -> u16
    requires { place + 2 ≤ length bytes.now }
    ensures { result ≡ field_at 2 bytes.now place }
{
    LittleEndian::read_u16(&bytes[place..])
}

/// The field of four bytes at this place.
pub fn u32_at(bytes: &[u8], place: usize) -> u32
    requires { place + 4 ≤ length bytes.now }
    ensures { result ≡ field_at 4 bytes.now place }
{
    LittleEndian::read_u32(&bytes[place..])
}

/// The field of eight bytes at this place.
pub fn u64_at(bytes: &[u8], place: usize) -> u64
    requires { place + 8 ≤ length bytes.now }
    ensures { result ≡ field_at 8 bytes.now place }
{
    LittleEndian::read_u64(&bytes[place..])
}

/// Writes a field of four bytes at this place.
pub fn put_u32(out: &mut [u8], place: usize, value: u32)
    requires { place + 4 ≤ length out.old }
    ensures { out.new ≡ with_field 4 out.old place value }
{
    LittleEndian::write_u32(&mut out[place..], value);
}

/// Writes a field of eight bytes at this place.
pub fn put_u64(out: &mut [u8], place: usize, value: u64)
    requires { place + 8 ≤ length out.old }
    ensures { out.new ≡ with_field 8 out.old place value }
{
    LittleEndian::write_u64(&mut out[place..], value);
}
