// Vectors in the guest's memory.
ghost use Rattle.std.specs.Prelude.{◌≡◌, ◌≤◌, ◌^◌, ◌<◌, length, take, option_map, IsTrue, IfSome};
ghost use Rattle.nv_memory.specs.declared.region.Right.TheVariants.{Read, Write};
ghost use Rattle.nv_memory.specs.Bytes.{bytes_at};
ghost use Rattle.nv_memory.specs.Region.{holds};
ghost use Rattle.nv_guest.specs.Vectors.{vector_at, usable_at, parts_at, capacity, joined_parts};

use nv_bytes::u32_at;
use nv_memory::{Memory, Right};

/// Some bytes in the guest's memory.
#[derive(Clone, Copy, Debug, PartialEq, Eq)]
pub struct Part {
    pub address: u32,
    pub size: u32,
}

/// The vector at an address, where it may be read.
#[tactic(auto, unfolding(crate::specs::Vectors::vector_at))]
pub fn vector_at(memory: &Memory, at: usize) -> Option<Part>
    ensures { result ≡ vector_at memory.now at }
{
    let address = u32::try_from(at).ok()?;
    let mut bytes = [0; 8];
    memory.copy_in(address, &mut bytes).ok()?;
    Some(Part {
        address: u32_at(&bytes, 0),
        size: u32_at(&bytes, 4),
    })
}

// The first bytes, at most so many, of what the vector at an address names, where it may be used.
fn usable_at(memory: &Memory, right: Right, most: u32, at: usize) -> Option<Part>
    ensures part { result ≡ usable_at memory.now right most at }
    ensures few { IfSome result (λ part. part.size ≤ most) }
    ensures held { IfSome result (λ part. IsTrue (holds memory.now.regions part.address part.size right)) }
{
    let Part { address, size } = vector_at(memory, at)?;
    let size = size.min(most);
    if memory.holds(address, size, right) {
        Some(Part { address, size })
    } else {
        None
    }
}

/// How many bytes may be written through this many vectors from an address on, at most so many; nothing where one may not.
pub fn capacity_of(memory: &Memory, address: u32, count: u32, most: u32) -> Option<u32>
    ensures { result ≡ option_map capacity (parts_at memory.now Write count most address) }
{
    let mut left = most;
    let mut at = address as usize;
    for _i in 0..count {
        if left == 0 {
            return Some(most);
        }
        let part = usable_at(memory, Right::Write, left, at)?;
        left -= part.size;
        at += 8;
    }
    Some(most - left)
}

// Copies a part, which may be read, into a buffer of its size.
fn copy_part(memory: &Memory, part: Part, out: &mut [u8])
    requires held { IsTrue (holds memory.now.regions part.address part.size Read) }
    requires size { length out.old ≡ part.size }
    ensures { out.new ≡ bytes_at memory.now.bytes part.address part.size }
{
    let Ok(bytes) = memory.bytes(part.address, part.size) else {
        unreachable!();
    };
    out.copy_from_slice(bytes);
}

/// Reads what this many vectors from an address on name into the beginning of a buffer, as far as it goes, and gives how many bytes these are; nothing
/// where one may not be read.
pub fn gather(memory: &Memory, address: u32, count: u32, out: &mut [u8]) -> Option<usize>
    requires { length out.old < 2 ^ 32 }
    ensures bytes { option_map (λ filled. take filled out.new) result ≡ option_map (joined_parts memory.now) (parts_at memory.now Read count (length out.old) address) }
    ensures inside { IfSome result (λ filled. filled ≤ length out.old) }
{
    let mut filled = 0usize;
    let mut at = address as usize;
    for _i in 0..count {
        if filled == out.len() {
            return Some(filled);
        }
        let part = usable_at(memory, Right::Read, (out.len() - filled) as u32, at)?;
        let end = filled + part.size as usize;
        copy_part(memory, part, &mut out[filled..end]);
        filled = end;
        at += 8;
    }
    Some(filled)
}
