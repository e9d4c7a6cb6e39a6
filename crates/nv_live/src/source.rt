// A source of bytes.
ghost use Rattle.std.specs.Prelude.{◌≡◌, ◌∷◌, [], List, ℕ, Option};
ghost use Rattle.nv_live.specs.Source.{Reads, Gave, Moment, moment_of, faults_by_read};

use nv_outside::Sink;

/// What a read gave: how many bytes, of which none are the end, or that it failed.
#[derive(Clone, Copy, Debug, PartialEq, Eq)]
pub enum Read {
    Count(usize),
    Failed,
}

/// What a source tells of its reads.
pub trait Source: Drop {
    /// What each read gave, in order, where the object tells it.
    ghost took: { Self → Option (List (List ℕ)) };

    /// How often a read has failed.
    ghost faults: { Self → ℕ };

    /// How things stood each time that it was read, in order, where the object tells it.
    ghost moments: { Self → Option (List Moment) };

    /// The next read is waited for at most up to this time, in seconds and nanoseconds since 1970: for whoever tells the time.
    fn waits_to(&mut self, seconds: u32, nanos: u32)
        ensures took { took self.new ≡ took self.old }
        ensures faults { faults self.new ≡ faults self.old }
        ensures moments { moments self.new ≡ moments self.old };
}

/// A source that is read beside a sink for what is said and one for the transcript.
pub trait ReadBeside<O: Sink, T: Sink>: Source {
    /// Reads bytes into the beginning of this room, which may be waited for. What was said and noted so far is lent to it, so that an object
    /// can tell of each read what stood in both by then.
    fn read(&mut self, room: &mut [u8], said: &O, noted: &T) -> Read
        ensures read { Reads (Self.took self.old) (Self.took self.new) room.new result }
        ensures faults { Self.faults self.new ≡ faults_by_read result (Self.faults self.old) }
        ensures moment { Gave (Self.moments self.old) (moment_of Self.took Self.faults O.told O.faults T.told T.faults self.old said.now noted.now ∷ []) (Self.moments self.new) };
}
