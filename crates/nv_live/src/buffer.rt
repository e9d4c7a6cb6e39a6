// What was read and not yet taken.
ghost use Rattle.std.specs.Prelude.{◌≡◌, ◌≤◌, ◌<◌, ◌∷◌, [], IfOk, length, take, drop, true, false, vec_len};
ghost use Rattle.nv_script.specs.Pieces.{pieces};
ghost use Rattle.nv_live.specs.Source.{count_of};

use crate::{Read, ReadBeside};
use nv_outside::Sink;
use nv_script::piece;
use std::alloc::{AllocError, Global};

// How many bytes one read may give.
const SIZE: usize = 4096;

/// What was read and not yet taken.
#[derive(Drop)]
pub struct Buffer {
    bytes: Vec<u8>,
    start: usize,
    end: usize,
    ghost ordered: { start ≤ end },
    ghost inside: { end ≤ vec_len bytes },
}

fn count_of(read: Read) -> usize
    ensures { result ≡ count_of read }
{
    match read {
        Read::Count(count) => count,
        Read::Failed => 0,
    }
}

impl Buffer {
    ghost use Rattle.nv_live.specs.Buffer.{held_in, Refills};
    ghost use Rattle.nv_live.specs.Source.{faults_by_read, Gave, moment_of};

    pub fn make(alloc: Global) -> Result<Buffer, AllocError>
        ensures { IfOk result (λ buffer. held_in buffer ≡ []) }
    {
        Ok(Buffer {
            bytes: vec![in alloc; 0u8; SIZE]?,
            start: 0,
            end: 0,
        })
    }

    pub fn held(&self) -> &[u8]
        ensures { result.now ≡ held_in self.now }
    {
        &self.bytes[self.start..self.end]
    }

    pub fn is_empty(&self) -> bool
        ensures empty { result ≡ true → held_in self.now ≡ [] }
        ensures some { result ≡ false → 0 < length (held_in self.now) }
    {
        self.held().is_empty()
    }

    /// Reads once, in place of what was held.
    pub fn refill<I: ReadBeside<O, T>, O: Sink, T: Sink>(
        &mut self,
        source: &mut I,
        said: &O,
        noted: &T,
    ) -> Read
        ensures read { Refills (I.took source.old) (I.took source.new) (held_in self.new) result }
        ensures faults { I.faults source.new ≡ faults_by_read result (I.faults source.old) }
        ensures moment { Gave (I.moments source.old) (moment_of I.took I.faults O.told O.faults T.told T.faults source.old said.now noted.now ∷ []) (I.moments source.new) }
    {
        let read = source.read(self.bytes.as_mut_slice(), said, noted);
        self.start = 0;
        self.end = count_of(read);
        read
    }

    /// Takes so many of the bytes.
    #[tactic(auto, using(crate::proofs::Taking::held_drop))]
    pub fn skip(&mut self, count: usize)
        requires { count ≤ length (held_in self.old) }
        ensures { held_in self.new ≡ drop count (held_in self.old) }
    {
        self.start += count;
    }

    /// The bytes that come first.
    pub fn first(&self, alloc: Global) -> Result<Vec<u8>, AllocError>
        requires { 0 < length (held_in self.now) }
        ensures { IfOk result (λ bytes. pieces 2000 (held_in self.now) ≡ bytes.items ∷ pieces 2000 (drop (length bytes.items) (held_in self.now))) }
    {
        let held = self.held();
        held[..piece(held)].to_vec(alloc)
    }

    /// Takes the bytes that come first, and tells how many they were.
    pub fn pass(&mut self) -> usize
        requires { 0 < length (held_in self.old) }
        ensures pieces { pieces 2000 (held_in self.old) ≡ take result (held_in self.old) ∷ pieces 2000 (drop result (held_in self.old)) }
        ensures rest { held_in self.new ≡ drop result (held_in self.old) }
    {
        let count = piece(self.held());
        self.skip(count);
        count
    }
}
