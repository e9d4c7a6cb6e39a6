// What comes, read from a source.
ghost use Rattle.std.specs.Prelude.{◌≡◌, ◌<◌, ◌++◌, ◌∷◌, [], ℕ, List, Some, None, IfOk, length, drop, true, false, is_some};
ghost use Rattle.nv_script.specs.Arrivals.{Input};
ghost use Rattle.nv_live.specs.Buffer.{held_in};
ghost use Rattle.nv_live.specs.Incoming.{source_in, held_of, stop_of, TakesOn, ReadOnce};
ghost use Rattle.nv_live.specs.Source.{moment_of};
ghost use Rattle.nv_live.specs.Taking.{Took, stop_by, IsFirst};

use crate::buffer::Buffer;
use crate::{Read, ReadBeside, Source};
use nv_outside::Sink;
use nv_script::ArrivalCause;
use std::alloc::{AllocError, Global};

/// Why nothing more comes.
#[derive(Clone, Copy, Debug, PartialEq, Eq)]
pub enum Stopped {
    /// A read gave nothing.
    Ended,
    /// A read failed.
    Unreadable,
    /// A write of what is said failed.
    Unwritten,
    /// This line, counted from 1, was refused; one of more than 4,096 bytes with its newline is `Long`.
    Refused(u32, ArrivalCause),
    /// The end came within this line, before its newline.
    CutOff(u32),
}

/// What comes, read from a source.
#[derive(Drop)]
pub struct Incoming<I> {
    source: I,
    buffer: Buffer,
    stopped: Option<Stopped>,
}

fn stop_by(read: Read) -> Option<Stopped>
    ensures { result ≡ stop_by read }
{
    match read {
        Read::Count(0) => Some(Stopped::Ended),
        Read::Count(_) => None,
        Read::Failed => Some(Stopped::Unreadable),
    }
}

impl<I: Source> Incoming<I> {
    pub fn new(buffer: Buffer, source: I) -> Incoming<I>
        requires { held_in buffer ≡ [] }
        ensures source { source_in result ≡ source }
        ensures held { held_of result ≡ [] }
        ensures going { stop_of result ≡ None }
    {
        Incoming {
            source,
            buffer,
            stopped: None,
        }
    }

    pub fn stopped(&self) -> Option<Stopped>
        ensures { result ≡ stop_of self.now }
    {
        self.stopped
    }

    pub fn finish(self) -> I
        ensures { result ≡ source_in self }
    {
        let Incoming {
            source,
            buffer: _,
            stopped: _,
        } = self;
        source
    }

    /// What was read and not yet taken.
    pub fn held(&self) -> &[u8]
        ensures { result.now ≡ held_of self.now }
    {
        self.buffer.held()
    }

    // Reads once. Nothing more comes where that gives nothing.
    fn read_more<O: Sink, T: Sink>(&mut self, said: &O, noted: &T)
    where
        I: ReadBeside<O, T>,
        requires going { stop_of self.old ≡ None }
        requires empty { held_of self.old ≡ [] }
        ensures took { TakesOn I.took I.faults self.old self.new (λ arrivals. arrivals) }
        ensures asked { ReadOnce I.moments self.old self.new (moment_of I.took I.faults O.told O.faults T.told T.faults (source_in self.old) said.now noted.now) }
        ensures some { stop_of self.new ≡ None → 0 < length (held_of self.new) }
    {
        let read = self.buffer.refill(&mut self.source, said, noted);
        self.stopped = stop_by(read);
    }

    /// Whether something is held, which is read where nothing was.
    pub fn has_more<O: Sink, T: Sink>(&mut self, said: &O, noted: &T) -> bool
    where
        I: ReadBeside<O, T>,
        ensures took { TakesOn I.took I.faults self.old self.new (λ arrivals. arrivals) }
        ensures asked { ReadOnce I.moments self.old self.new (moment_of I.took I.faults O.told O.faults T.told T.faults (source_in self.old) said.now noted.now) }
        ensures some { result ≡ true → 0 < length (held_of self.new) }
        ensures over { result ≡ false → is_some (stop_of self.new) ≡ true }
        ensures stays { is_some (stop_of self.old) ≡ true → (result ≡ false) × (self.new ≡ self.old) }
    {
        if self.stopped.is_some() {
            return false;
        }
        if self.buffer.is_empty() {
            self.read_more(said, noted);
            return self.stopped.is_none();
        }
        true
    }

    /// The bytes that come first.
    pub fn first(&self, alloc: Global) -> Result<Vec<u8>, AllocError>
        requires { 0 < length (held_of self.now) }
        ensures { IfOk result (λ bytes. IsFirst bytes.items (held_of self.now)) }
    {
        self.buffer.first(alloc)
    }

    /// Takes the bytes that come first.
    pub fn pass(&mut self)
        requires { 0 < length (held_of self.old) }
        ensures took { (bytes : List ℕ) → IsFirst bytes (held_of self.old) → TakesOn I.took I.faults self.old self.new (λ arrivals. arrivals ++ Input bytes ∷ []) }
        ensures source { source_in self.new ≡ source_in self.old }
    {
        let _count = self.buffer.pass();
    }

    /// What comes is waited for at most up to this time.
    pub fn waits_to(&mut self, seconds: u32, nanos: u32)
        ensures took { I.took (source_in self.new) ≡ I.took (source_in self.old) }
        ensures faults { I.faults (source_in self.new) ≡ I.faults (source_in self.old) }
        ensures moments { I.moments (source_in self.new) ≡ I.moments (source_in self.old) }
        ensures stays { self.new ≡ record self.old { source = source_in self.new } }
    {
        self.source.waits_to(seconds, nanos);
    }
}
