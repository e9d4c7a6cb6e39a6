// Copies between bytes and the blocks that they lie in.
ghost use Rattle.std.specs.Prelude.{◌≡◌, ℕ, ◌+◌, ◌≤◌, ◌<◌, ◌^◌, ◌/◌, ◌%◌, true, length, map, is_some, slice_index};
ghost use Rattle.nv_fs.specs.Contents.{content_byte, block_at, overwritten, HoldsRange};

use crate::block::{BLOCK, Block};

// Copies bytes that lie in one block.
fn read_one(blocks: &[Block], place: usize, into: &mut [u8])
    requires { place % 4096 + length into.old ≤ 4096 }
    ensures { (k : ℕ) → k < length into.old → slice_index into.new k ≡ content_byte blocks.now (place + k) }
{
    let block = place / BLOCK;
    if block < blocks.len() {
        blocks[block].read_at(place % BLOCK, into);
    } else {
        into.fill(0);
    }
}

/// Copies the bytes from a place on.
pub fn read(blocks: &[Block], from: usize, into: &mut [u8])
    requires { from + length into.old < 2 ^ 64 }
    ensures { (k : ℕ) → k < length into.old → slice_index into.new k ≡ content_byte blocks.now (from + k) }
{
    let mut done = 0;
    while done < into.len() {
        let place = from + done;
        let end = into.len().min(done + (BLOCK - place % BLOCK));
        read_one(blocks, place, &mut into[done..end]);
        done = end;
    }
}

// Writes bytes that lie in one block.
fn write_one(blocks: &mut Vec<Block>, place: usize, bytes: &[u8])
    requires some { 0 < length bytes.now }
    requires held { is_some (block_at blocks.old.items (place / 4096)) ≡ true }
    requires inside { place % 4096 + length bytes.now ≤ 4096 }
    ensures bytes { (p : ℕ) → content_byte blocks.new.items p ≡ overwritten place bytes.now (content_byte blocks.old.items p) p }
    ensures held { map is_some blocks.new.items ≡ map is_some blocks.old.items }
{
    blocks[place / BLOCK].write_at(place % BLOCK, bytes);
}

/// Writes bytes from a place on, where each block is held.
pub fn write(blocks: &mut Vec<Block>, place: usize, bytes: &[u8])
    requires fits { place + length bytes.now < 2 ^ 64 }
    requires held { HoldsRange (map is_some blocks.old.items) place (length bytes.now) }
    ensures bytes { (p : ℕ) → content_byte blocks.new.items p ≡ overwritten place bytes.now (content_byte blocks.old.items p) p }
    ensures held { map is_some blocks.new.items ≡ map is_some blocks.old.items }
{
    let mut done = 0;
    while done < bytes.len() {
        let here = place + done;
        let end = bytes.len().min(done + (BLOCK - here % BLOCK));
        write_one(blocks, here, &bytes[done..end]);
        done = end;
    }
}
