// Memory for blocks.
ghost use Rattle.std.specs.Prelude.{◌≡◌, ℕ, ◌≤◌, ◌<◌, ◌⊎◌, true, is_some, OnOk, vec_len};
ghost use Rattle.nv_fs.specs.Contents.{content_byte, block_at};

use crate::block::Block;
use std::alloc::{AllocError, Global};

// Places for at least so many blocks. The new ones are absent.
fn add_places(blocks: &mut Vec<Block>, wanted: usize) -> Result<(), AllocError>
    ensures same { (k : ℕ) → block_at blocks.new.items k ≡ block_at blocks.old.items k }
    ensures ok { OnOk result (wanted ≤ vec_len blocks.new) }
{
    blocks.reserve(wanted.saturating_sub(blocks.len()))?;
    while blocks.len() < wanted {
        blocks.push(Block::absent())?;
    }
    Ok(())
}

// Memory for blocks that have places.
fn hold_each(
    alloc: Global,
    blocks: &mut Vec<Block>,
    first: usize,
    end: usize,
) -> Result<(), AllocError>
    requires { end ≤ vec_len blocks.old }
    ensures same { (p : ℕ) → content_byte blocks.new.items p ≡ content_byte blocks.old.items p }
    ensures ok { OnOk result ((k : ℕ) → first ≤ k → k < end → is_some (block_at blocks.new.items k) ≡ true) }
    ensures others { (k : ℕ) → (k < first) ⊎ (end ≤ k) → block_at blocks.new.items k ≡ block_at blocks.old.items k }
{
    for k in first..end {
        blocks[k].hold(alloc)?;
    }
    Ok(())
}

/// Memory for the blocks from one number up to another, and for the places of those before them.
pub fn hold(
    alloc: Global,
    blocks: &mut Vec<Block>,
    first: usize,
    end: usize,
) -> Result<(), AllocError>
    ensures same { (p : ℕ) → content_byte blocks.new.items p ≡ content_byte blocks.old.items p }
    ensures ok { OnOk result ((k : ℕ) → first ≤ k → k < end → is_some (block_at blocks.new.items k) ≡ true) }
    ensures others { (k : ℕ) → (k < first) ⊎ (end ≤ k) → block_at blocks.new.items k ≡ block_at blocks.old.items k }
{
    add_places(blocks, end)?;
    hold_each(alloc, blocks, first, end)
}
