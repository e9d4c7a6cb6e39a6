// Streams of a call that is handed none.
use nv_live::{Read, ReadBeside, Source};
use nv_outside::{Sink, Wrote};

/// A stream at its end, where what is written is gone. It tells nothing, and never fails.
#[derive(Drop)]
pub struct Nowhere;

impl Source for Nowhere {
    ghost use Rattle.std.specs.Prelude.{None};

    ghost took = { λ _. None };

    ghost faults = { λ _. 0 };

    ghost moments = { λ _. None };

    fn waits_to(&mut self, _seconds: u32, _nanos: u32) {}
}

impl<O: Sink, T: Sink> ReadBeside<O, T> for Nowhere {
    fn read(&mut self, _room: &mut [u8], _said: &O, _noted: &T) -> Read {
        Read::Count(0)
    }
}

impl Sink for Nowhere {
    ghost use Rattle.std.specs.Prelude.{None};

    ghost told = { λ _. None };

    ghost faults = { λ _. 0 };

    fn write(&mut self, piece: &[u8]) -> Wrote {
        Wrote::Count(piece.len())
    }
}
