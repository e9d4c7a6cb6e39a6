// A file's bytes as its callers see them.
ghost use Rattle.std.specs.Prelude.{◌≡◌, ℕ, ◌+◌, ◌≤◌, ◌<◌, ◌^◌, ◌*◌, ◌/◌, ◌⊎◌, ◌++◌, [], false, length, drop, slice_index_or, IfOk, OnOk};
ghost use Rattle.nv_fs.specs.Contents.{HoldsRange, part_of, with_bytes};

use crate::block::{BLOCK, Block};
use crate::copying::{read, write};
use crate::holding::hold;
use std::alloc::{AllocError, Global};
use std::marker::Model;

/// The bytes of a file. Those of a block that was never written are zeros and take no memory.
#[derive(Drop)]
pub struct Blocks {
    alloc: Global,
    blocks: Vec<Block>,
    len: usize,
}

impl Model for Blocks {
    ghost use Rattle.std.specs.Prelude.{◌≡◌, ℕ, ◌≤◌};
    ghost use Rattle.nv_fs.specs.Contents.{Content, content_of_blocks, content_byte};

    ghost Value = { Content };

    ghost view = { λ b. content_of_blocks b.blocks.items b.len };

    ghost invariant = { λ b. (p : ℕ) → b.len ≤ p → content_byte b.blocks.items p ≡ 0 };
}

impl Blocks {
    /// No bytes.
    pub fn make(alloc: Global) -> Blocks
        ensures { result ≡ record { bytes = []; held = [] } }
    {
        Blocks {
            alloc,
            blocks: Vec::new(alloc),
            len: 0,
        }
    }

    /// These bytes.
    pub fn from_slice(alloc: Global, bytes: &[u8]) -> Result<Blocks, AllocError>
        ensures { IfOk result (λ made. made.bytes ≡ bytes.now) }
    {
        let mut made = Blocks::make(alloc);
        made.reserve(0, bytes.len())?;
        made.write_at(0, bytes);
        Ok(made)
    }

    /// How many bytes there are.
    pub fn len(&self) -> usize
        ensures { result ≡ length self.now.bytes }
    {
        self.len
    }

    /// Copies the bytes from a place on, as many as there are and as fit, and tells how many.
    pub fn read_at(&self, from: usize, into: &mut [u8]) -> usize
        ensures count { result ≡ length (part_of self.now.bytes from (length into.old)) }
        ensures bytes { into.new ≡ part_of self.now.bytes from (length into.old) ++ drop result into.old }
        ensures end { from + result < 2 ^ 64 }
    {
        let got = into.len().min(self.len.saturating_sub(from));
        read(&self.blocks, from, &mut into[..got]);
        got
    }

    /// Memory for a write of so many bytes at a place: the blocks that it touches, and the places of those before them.
    pub fn reserve(&mut self, place: usize, count: usize) -> Result<(), AllocError>
        requires { place + count < 2 ^ 64 }
        ensures bytes { self.new.bytes ≡ self.old.bytes }
        ensures ok { OnOk result (HoldsRange self.new.held place count) }
        ensures others { (k : ℕ) → (k < place / 4096) ⊎ (place + count ≤ 4096 * k) → slice_index_or self.new.held k false ≡ slice_index_or self.old.held k false }
    {
        if count == 0 {
            return Ok(());
        }
        let first = place / BLOCK;
        let end = (place + count - 1) / BLOCK + 1;
        hold(self.alloc, &mut self.blocks, first, end)
    }

    /// Writes bytes from a place on, for which there is memory. A gap before the place reads as zeros.
    pub fn write_at(&mut self, place: usize, bytes: &[u8])
        requires fits { place + length bytes.now < 2 ^ 64 }
        requires held { HoldsRange self.old.held place (length bytes.now) }
        ensures bytes { self.new.bytes ≡ with_bytes self.old.bytes place bytes.now }
        ensures held { self.new.held ≡ self.old.held }
    {
        self.len = self.len.max(place + bytes.len());
        write(&mut self.blocks, place, bytes);
    }

    /// Drops the bytes, and gives their memory back.
    pub fn clear(&mut self)
        ensures { self.new ≡ record { bytes = []; held = [] } }
    {
        self.blocks = Vec::new(self.alloc);
        self.len = 0;
    }
}
