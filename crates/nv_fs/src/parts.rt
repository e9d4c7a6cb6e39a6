// Parts of bytes, and bytes for which there is memory.
ghost use Rattle.std.specs.Prelude.{◌≡◌, ◌+◌, ◌≤◌, ◌++◌, [], length, take, drop, min, max, vec_len, vec_capacity, OnOk};

use nv_calls::Bytes;
use std::alloc::AllocError;

// The bytes from a place on.
fn after(bytes: &[u8], from: usize) -> &[u8]
    ensures { result.now ≡ drop from bytes.now }
{
    &bytes[from.min(bytes.len())..]
}

/// At most so many bytes.
pub fn prefix(bytes: &[u8], most: usize) -> &[u8]
    ensures part { result.now ≡ take most bytes.now }
    ensures few { length result.now ≡ min most (length bytes.now) }
{
    &bytes[..most.min(bytes.len())]
}

// At most so many bytes from a place on.
fn part(bytes: &[u8], from: usize, most: usize) -> &[u8]
    ensures part { result.now ≡ take most (drop from bytes.now) }
    ensures few { length result.now ≤ most }
    ensures inside { from + length result.now ≤ max from (length bytes.now) }
{
    let rest = after(bytes, from);
    prefix(rest, most)
}

/// An answer that hands out nothing.
pub fn refuse(out: &mut Bytes, result_is: i32) -> i32
    ensures ret { result ≡ result_is }
    ensures out { out.new ≡ record { bytes = []; capacity = out.old.capacity } }
{
    out.set(&[]);
    result_is
}

/// Hands out at most so many bytes from a place on, and tells how many.
pub fn hand_out(bytes: &[u8], from: usize, most: usize, out: &mut Bytes) -> usize
    requires { most ≤ out.old.capacity }
    ensures out { out.new ≡ record { bytes = take most (drop from bytes.now); capacity = out.old.capacity } }
    ensures ret { result ≡ length out.new.bytes }
    ensures few { result ≤ most }
    ensures inside { from + result ≤ max from (length bytes.now) }
{
    let part = part(bytes, from, most);
    out.set(part);
    part.len()
}

/// Adds bytes for which there is memory.
pub fn append(held: &mut Vec<u8>, bytes: &[u8])
    requires { vec_len held.old + length bytes.now ≤ vec_capacity held.old }
    ensures { held.new.items ≡ held.old.items ++ bytes.now }
{
    match held.extend_from_slice(bytes) {
        Ok(()) => {}
        Err(_) => unreachable!(),
    }
}

/// Memory for so many bytes in all.
pub fn reserve_to(held: &mut Vec<u8>, most: usize) -> Result<(), AllocError>
    ensures items { held.new.items ≡ held.old.items }
    ensures ok { OnOk result (most ≤ vec_capacity held.new) }
{
    let more = most.saturating_sub(held.len());
    held.reserve(more)
}
