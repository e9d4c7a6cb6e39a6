// A sink that gathers what is written, so that many small pieces cost the sink below it few writes.
ghost use Rattle.std.specs.Prelude.{◌≡◌, ◌≤◌, ◌<◌, [], drop, length, OnOk, OnErr};
ghost use Rattle.nv_outside.specs.Sink.{Puts};

use crate::{Put, Sink, WriteFailed, Wrote, put_all};
use arrayvec::ArrayVec;

const HELD: usize = 8192;

/// Holds up to 8,192 bytes back from the sink below it. `finish` writes the last of them.
#[derive(Drop)]
pub struct Gathering<S> {
    sink: S,
    held: ArrayVec<u8, HELD>,
}

fn after(held: &ArrayVec<u8, HELD>, count: usize) -> ArrayVec<u8, HELD>
    requires { count ≤ length held.now.items }
    ensures { result.items ≡ drop count held.now.items }
{
    let mut rest = ArrayVec::new();
    match rest.try_extend_from_slice(&held[count..]) {
        Ok(()) => rest,
        Err(_) => unreachable!(),
    }
}

impl<S: Sink> Gathering<S> {
    ghost use Rattle.nv_outside.specs.Gathering.{sink_of, held_of};

    pub fn make(sink: S) -> Gathering<S>
        ensures sink { sink_of result ≡ sink }
        ensures held { held_of result ≡ [] }
    {
        Gathering {
            sink,
            held: ArrayVec::new(),
        }
    }

    /// Writes what is held back, and gives the sink.
    pub fn finish(self) -> (S, Put)
        ensures { Puts (S.told (sink_of self)) (S.faults (sink_of self)) (held_of self) result.1 (S.told result.0) (S.faults result.0) }
    {
        let Gathering { mut sink, held } = self;
        let put = put_all(&mut sink, &held);
        (sink, put)
    }

    /// Drops what is held back, and gives the sink.
    pub fn give_up(self) -> S
        ensures { result ≡ sink_of self }
    {
        let Gathering { sink, held: _ } = self;
        sink
    }
}

impl<S: Sink> Gathering<S> {
    ghost use Rattle.nv_outside.specs.Gathering.{with_held};
    ghost use Rattle.nv_outside.specs.Told.{Grows};
    ghost use Rattle.nv_outside.specs.Sink.{faults_by};

    // One write of what is held back, so that more can be held where it takes any.
    fn pass_on(&mut self) -> Put
        requires { length self.old.held.items ≡ HELD }
        ensures below { OnOk result (length self.new.held.items < HELD) }
        ensures whole { OnOk result (Grows (with_held (S.told self.old.sink) self.old.held.items) [] (with_held (S.told self.new.sink) self.new.held.items)) }
        ensures failed { OnErr result (with_held (S.told self.new.sink) self.new.held.items ≡ with_held (S.told self.old.sink) self.old.held.items) }
        ensures faults { S.faults self.new.sink ≡ faults_by result (S.faults self.old.sink) }
    {
        match self.sink.write(&self.held) {
            Wrote::Count(count) => {
                self.held = after(&self.held, count);
                Ok(())
            }
            Wrote::Failed => Err(WriteFailed),
        }
    }
}

impl<S: Sink> Sink for Gathering<S> {
    ghost use Rattle.nv_outside.specs.Gathering.{with_held};

    ghost told = { λ g. with_held (S.told g.sink) g.held.items };

    ghost faults = { λ g. S.faults g.sink };

    fn write(&mut self, piece: &[u8]) -> Wrote {
        if self.held.is_full() && self.pass_on().is_err() {
            return Wrote::Failed;
        }
        let count = piece.len().min(self.held.remaining_capacity());
        match self.held.try_extend_from_slice(&piece[..count]) {
            Ok(()) => Wrote::Count(count),
            Err(_) => unreachable!(),
        }
    }
}
