// Bytes whose memory was reserved in advance.
ghost use Rattle.std.specs.Prelude.{◌≡◌, ◌≤◌, [], ℕ, length, take, IfOk};
ghost use Rattle.nv_calls.specs.Held.{AreBytes};

use std::alloc::{AllocError, Global};
use std::marker::Model;

/// A list of bytes, with memory for a number of them that was reserved when it was made.
#[derive(Drop)]
pub struct Bytes {
    held: Vec<u8>,
    len: usize,
}

impl Model for Bytes {
    ghost use Rattle.std.specs.Prelude.{◌≤◌, take, length, vec_len};
    ghost use Rattle.nv_calls.specs.Held.{Held};

    ghost Value = { Held };

    ghost view = { λ b. record { bytes = take b.len b.held.items; capacity = vec_len b.held } };

    ghost invariant = { λ b. b.len ≤ vec_len b.held };
}

impl Bytes {
    /// An empty list with this capacity.
    pub fn make(alloc: Global, capacity: u32) -> Result<Bytes, AllocError>
        ensures { IfOk result (λ b. b ≡ record { bytes = []; capacity = capacity }) }
    {
        let held = vec![in alloc; 0u8; capacity as usize]?;
        Ok(Bytes { held, len: 0 })
    }

    /// Holds these bytes from now on, and takes no memory.
    pub fn set(&mut self, bytes: &[u8])
        requires { length bytes.now ≤ self.old.capacity }
        ensures { self.new ≡ record { bytes = bytes.now; capacity = self.old.capacity } }
    {
        self.len = bytes.len();
        copy_prefix(&mut self.held, bytes);
    }

    /// How many bytes it can hold.
    pub fn capacity(&self) -> usize
        ensures { result ≡ self.now.capacity }
    {
        self.held.len()
    }

    /// The bytes that it holds.
    pub fn as_slice(&self) -> &[u8]
        ensures bytes { result.now ≡ self.now.bytes }
        ensures below { AreBytes self.now.bytes }
    {
        let held = self.held.as_slice();
        first(held, self.len)
    }
}

fn copy_prefix(out: &mut [u8], bytes: &[u8])
    requires { length bytes.now ≤ length out.old }
    ensures { take (length bytes.now) out.new ≡ bytes.now }
{
    out[..bytes.len()].copy_from_slice(bytes);
}

fn first(held: &[u8], len: usize) -> &[u8]
    requires { len ≤ length held.now }
    ensures bytes { result.now ≡ take len held.now }
    ensures below { AreBytes result.now }
{
    &held[..len]
}
