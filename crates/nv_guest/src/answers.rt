// Answers in the guest's memory.
ghost use Rattle.std.specs.Prelude.{◌≡◌, ◌≤◌, ◌+◌, ◌*◌, ◌^◌, length, min, take, option_map, true, false};
ghost use Rattle.nv_guest.specs.Vectors.{vector_at, prefix_of};
ghost use Rattle.nv_guest.specs.Answers.{with_byte, with_each_byte, targets_at, scattered, with_sets, with_events};

use crate::vectors::{Part, vector_at};
use nv_memory::Memory;

#[tactic(auto, unfolding(crate::specs::Answers::with_byte))]
fn store_byte(memory: &mut Memory, at: usize, byte: u8)
    ensures { memory.new ≡ with_byte memory.old at byte }
{
    if let Ok(address) = u32::try_from(at) {
        // a byte that may not be written is dropped
        let _ = memory.copy_out(address, &[byte]);
    }
}

// Stores bytes from an address on, each by itself.
fn store_each(memory: &mut Memory, address: usize, bytes: &[u8])
    requires { address ≤ 2 ^ 40 }
    ensures { memory.new ≡ with_each_byte memory.old address bytes.now }
{
    for (i, byte) in bytes.iter().enumerate() {
        store_byte(memory, address + i, *byte);
    }
}

// Stores bytes from an address on, where all of them may be written, and tells whether they may.
fn store_all(memory: &mut Memory, address: u32, bytes: &[u8]) -> bool
    ensures stored { result ≡ true → memory.new ≡ with_each_byte memory.old address bytes.now }
    ensures refused { result ≡ false → memory.new ≡ memory.old }
{
    if bytes.len() > (u32::MAX - address) as usize {
        return false;
    }
    memory.copy_out(address, bytes).is_ok()
}

/// Stores bytes from an address on. Each that may not be written is dropped.
pub fn store_bytes(memory: &mut Memory, address: u32, bytes: &[u8])
    ensures { memory.new ≡ with_each_byte memory.old address bytes.now }
{
    if store_all(memory, address, bytes) {
        return;
    }
    store_each(memory, address as usize, bytes);
}

fn target_at(memory: &Memory, most: usize, at: usize) -> Option<Part>
    ensures { result ≡ option_map (prefix_of most) (vector_at memory.now at) }
{
    let Part { address, size } = vector_at(memory, at)?;
    Some(Part {
        address,
        size: (size as usize).min(most) as u32,
    })
}

/// Reads the parts that so many bytes go to by this many vectors from an address on into the beginning of a table, and gives how many these are.
pub fn read_targets(
    memory: &Memory,
    address: u32,
    count: u32,
    most: usize,
    targets: &mut [Part],
) -> usize
    requires { count ≤ length targets.old }
    ensures parts { take result targets.new ≡ targets_at memory.now count most address }
    ensures inside { result ≤ length targets.old }
{
    let mut left = most;
    let mut at = address as usize;
    for i in 0..count {
        if left == 0 {
            return i as usize;
        }
        let Some(part) = target_at(memory, left, at) else {
            return i as usize;
        };
        targets[i as usize] = part;
        left -= part.size as usize;
        at += 8;
    }
    count as usize
}

fn part_len(size: u32, len: usize) -> usize
    ensures { result ≡ min size len }
{
    (size as usize).min(len)
}

/// Stores bytes over parts, in order. What may not be written is dropped.
pub fn scatter(memory: &mut Memory, targets: &[Part], bytes: &[u8])
    ensures { memory.new ≡ scattered memory.old targets.now bytes.now }
{
    let mut rest = bytes;
    for part in targets {
        let (part_bytes, later) = rest.split_at(part_len(part.size, rest.len()));
        store_bytes(memory, part.address, part_bytes);
        rest = later;
    }
}

/// Stores what is left of sets, so many bytes each and one after another, in the places of those that are given. What may not be written is
/// dropped.
pub fn store_sets(memory: &mut Memory, size: usize, places: &[u32], bytes: &[u8])
    ensures { memory.new ≡ with_sets memory.old size places.now bytes.now }
{
    let Some((place, places)) = places.split_first() else {
        return;
    };
    let (set, later) = bytes.split_at(bytes.len().min(size));
    if *place != 0 {
        store_bytes(memory, *place, set);
    }
    store_sets(memory, size, places, later);
}

/// Stores what is told of so many descriptors into the list of ppoll from an address on. What may not be written is dropped.
pub fn store_events(memory: &mut Memory, list: usize, count: u32, bytes: &[u8])
    requires { list + 8 * count ≤ 2 ^ 39 }
    ensures { memory.new ≡ with_events memory.old list count bytes.now }
{
    if count == 0 {
        return;
    }
    let (told, later) = bytes.split_at(bytes.len().min(2));
    store_each(memory, list + 6, told);
    store_events(memory, list + 8, count - 1, later);
}
