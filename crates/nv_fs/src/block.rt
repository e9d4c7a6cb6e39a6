// One block: its bytes, or nothing yet.
ghost use Rattle.std.specs.Prelude.{◌≡◌, ◌+◌, ◌≤◌, ◌<◌, ℕ, true, is_some, length, None, slice_index, IfOk, OnOk, OnErr, vec_len};
ghost use Rattle.nv_fs.specs.Contents.{byte_in, overwritten};

use std::alloc::{AllocError, Global};
use std::marker::Model;

/// How many bytes a block has.
pub const BLOCK: usize = 4096;

/// A block: its bytes, or none where it takes no memory and reads as zeros.
#[derive(Drop)]
pub struct Block {
    bytes: Option<Vec<u8>>,
}

impl Model for Block {
    ghost use Rattle.std.specs.Prelude.{◌≡◌, ℕ, List, Option, option_map, IfSome, vec_len};
    ghost use Rattle.std.specs.Global.{Vec};

    ghost Value = { Option (List ℕ) };

    ghost view = { λ b. option_map (λ (v : Vec ℕ). v.items) b.bytes };

    ghost invariant = { λ b. IfSome b.bytes (λ v. vec_len v ≡ 4096) };
}

// So many zeros.
fn zeros(alloc: Global, n: usize) -> Result<Vec<u8>, AllocError>
    ensures len { IfOk result (λ made. vec_len made ≡ n) }
    ensures zero { IfOk result (λ made. (j : ℕ) → slice_index made.items j ≡ 0) }
{
    vec![in alloc; 0u8; n]
}

impl Block {
    /// A block that takes no memory.
    pub fn absent() -> Block
        ensures { result ≡ None }
    {
        Block { bytes: None }
    }

    /// Memory for the block, which reads as before.
    pub fn hold(&mut self, alloc: Global) -> Result<(), AllocError>
        ensures same { (j : ℕ) → byte_in self.new j ≡ byte_in self.old j }
        ensures ok { OnOk result (is_some self.new ≡ true) }
        ensures err { OnErr result (self.new ≡ self.old) }
    {
        if self.bytes.is_none() {
            self.bytes = Some(zeros(alloc, BLOCK)?);
        }
        Ok(())
    }

    /// Copies its bytes from a place on.
    pub fn read_at(&self, at: usize, into: &mut [u8])
        requires { at + length into.old ≤ 4096 }
        ensures { (j : ℕ) → j < length into.old → slice_index into.new j ≡ byte_in self.now (at + j) }
    {
        match &self.bytes {
            Some(bytes) => into.copy_from_slice(&bytes[at..at + into.len()]),
            None => into.fill(0),
        }
    }

    /// Writes bytes from a place on.
    pub fn write_at(&mut self, at: usize, bytes: &[u8])
        requires held { is_some self.old ≡ true }
        requires inside { at + length bytes.now ≤ 4096 }
        ensures held { is_some self.new ≡ true }
        ensures bytes { (j : ℕ) → byte_in self.new j ≡ overwritten at bytes.now (byte_in self.old j) j }
    {
        match &mut self.bytes {
            Some(held) => held[at..at + bytes.len()].copy_from_slice(bytes),
            None => unreachable!(),
        }
    }
}
