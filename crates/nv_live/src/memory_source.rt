// A source in memory.
ghost use Rattle.std.specs.Prelude.{◌≡◌, ◌≤◌, ◌++◌, [], Some, length, map, drop, vec_len};

use crate::{Read, ReadBeside, Source};
use nv_calls::Whole;
use nv_outside::Sink;
use std::snapshot::Snapshot;

// How things stood when it was read: how many reads had given something and how many had failed, and both sinks as clauses see them.
#[derive(Drop)]
struct Seen<O, T> {
    given: usize,
    failed: u64,
    said: Snapshot<O>,
    noted: Snapshot<T>,
}

/// What each read gives, in order, beside sinks of these types. A read after the last fails, and so does one whose room is too small.
/// How things stood each time that it was read is kept for clauses alone.
#[derive(Drop)]
pub struct MemorySource<O, T> {
    reads: Vec<Vec<u8>>,
    next: usize,
    faults: u64,
    seen: Whole<Seen<O, T>>,
    ghost inside: { next ≤ vec_len reads },
    ghost counted: { next ≤ length seen.items },
}

// Writes bytes over the first ones.
fn put(room: &mut [u8], bytes: &[u8])
    requires { length bytes.now ≤ length room.old }
    ensures { room.new ≡ bytes.now ++ drop (length bytes.now) room.old }
{
    room[..bytes.len()].copy_from_slice(bytes);
}

impl<O: Sink, T: Sink> MemorySource<O, T> {
    ghost use Rattle.nv_live.specs.MemorySource.{all_of, given_of, faults_of, moment_in, moments_of};
    ghost use Rattle.nv_live.specs.Source.{moment_of};

    /// It was not read yet.
    pub fn make(reads: Vec<Vec<u8>>) -> MemorySource<O, T>
        ensures all { all_of result ≡ map (λ bytes. bytes.items) reads.items }
        ensures given { given_of result ≡ [] }
        ensures faults { faults_of result ≡ 0 }
        ensures moments { moments_of O.told O.faults T.told T.faults result ≡ [] }
    {
        MemorySource {
            reads,
            next: 0,
            faults: 0,
            seen: Whole::new(),
        }
    }

    // How things stand.
    fn standing(&self, said: &O, noted: &T) -> Seen<O, T>
        ensures { moment_in O.told O.faults T.told T.faults (all_of self.now) result ≡ moment_of (λ s. Some (given_of s)) faults_of O.told O.faults T.told T.faults self.now said.now noted.now }
    {
        Seen {
            given: self.next,
            failed: self.faults,
            said: Snapshot::of(said),
            noted: Snapshot::of(noted),
        }
    }
}

impl<O: Sink, T: Sink> Source for MemorySource<O, T> {
    ghost use Rattle.nv_live.specs.MemorySource.{all_of, given_of, faults_of, moments_of};

    ghost took = { λ s. Some (given_of s) };

    ghost faults = { λ s. s.faults };

    ghost moments = { λ s. Some (moments_of O.told O.faults T.told T.faults s) };

    fn waits_to(&mut self, _seconds: u32, _nanos: u32)
        ensures took { Some (given_of self.new) ≡ Some (given_of self.old) }
        ensures faults { faults_of self.new ≡ faults_of self.old }
        ensures moments { Some (moments_of O.told O.faults T.told T.faults self.new) ≡ Some (moments_of O.told O.faults T.told T.faults self.old) }
        ensures all { all_of self.new ≡ all_of self.old }
    {}
}

impl<O: Sink, T: Sink> ReadBeside<O, T> for MemorySource<O, T> {
    ghost use Rattle.std.specs.Prelude.{◌∷◌};
    ghost use Rattle.nv_live.specs.MemorySource.{all_of, given_of, faults_of, moments_of};
    ghost use Rattle.nv_live.specs.Source.{Reads, moment_of, faults_by_read};

    fn read(&mut self, room: &mut [u8], said: &O, noted: &T) -> Read
        ensures read { Reads (Some (given_of self.old)) (Some (given_of self.new)) room.new result }
        ensures faults { faults_of self.new ≡ faults_by_read result (faults_of self.old) }
        ensures moment { moments_of O.told O.faults T.told T.faults self.new ≡ moments_of O.told O.faults T.told T.faults self.old ++ moment_of (λ s. Some (given_of s)) faults_of O.told O.faults T.told T.faults self.old said.now noted.now ∷ [] }
        ensures all { all_of self.new ≡ all_of self.old }
    {
        self.seen = self.seen.and(&self.standing(said, noted));
        match self.reads.get(self.next) {
            Some(bytes) if bytes.len() <= room.len() => {
                put(room, bytes.as_slice());
                self.next += 1;
                Read::Count(bytes.len())
            }
            _ => {
                self.faults = self.faults.saturating_add(1);
                Read::Failed
            }
        }
    }
}
