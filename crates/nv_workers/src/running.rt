//! Workers on host threads.
ghost use Rattle.std.specs.Prelude.{◌≡◌};
ghost use Rattle.nv_workers.specs.Terms.{AreOfRoom, judges_of};
ghost use Rattle.nv_workers.specs.inner.Rounds.{CanAll, AllOn, AllHadTurns, AreGone, GoneIf, both_of};

use crate::gate::Gate;
use crate::sleepers::{Sleepers, nap};
use crate::terms::Terms;
use crate::worker::{Turn, Worker};
use nv_calls::SyscallKernel;
use nv_room::Room;
use std::sync::Wait;
use std::sync::atomic::{AtomicU64, Ordering};
use std::thread::yield_now;

// A turn of each worker.
fn round<K: SyscallKernel, G: Gate>(
    workers: &mut [Worker<K>],
    room: &Room<K>,
    terms: &Terms<'_, G>,
) -> Turn
    requires can { CanAll (judges_of terms.now) room.now terms.now.most workers.old }
    requires terms { AreOfRoom room.now terms.now }
    ensures on { AllOn (judges_of terms.now) room.now terms.now.most workers.old workers.new }
    ensures gone { GoneIf result workers.new }
    ensures turns { AllHadTurns room.now workers.old workers.new }
{
    let Some((first, others)) = workers.split_first_mut() else {
        return Turn::Done;
    };
    let own = first.turn(room, terms);
    let rest = round(others, room, terms);
    both(own, rest)
}

// What two turns come to together.
fn both(own: Turn, rest: Turn) -> Turn
    ensures { result ≡ both_of own rest }
{
    match (own, rest) {
        (Turn::Done, rest) => rest,
        (own, Turn::Done) => own,
        (Turn::Waiting, Turn::Waiting) => Turn::Waiting,
        (Turn::Moved, _) | (_, Turn::Moved) => Turn::Moved,
        _ => Turn::Ahead,
    }
}

/// The parts that the workers are dealt in. Where a thread can't be made its part runs before or after the others, on the
/// caller's thread, and what waits for it must give up.
#[derive(Drop)]
pub(crate) struct Parts {
    count: u64,
    // How many have begun and have not given up.
    running: AtomicU64,
    sleepers: Sleepers,
}

impl Parts {
    pub(crate) fn new(count: usize) -> Parts {
        Parts {
            count: count as u64,
            running: AtomicU64::new(0),
            sleepers: Sleepers::new(),
        }
    }

    fn begin(&self) {
        self.running.fetch_add(1, Ordering::SeqCst);
    }

    // From here on not all parts run beside each other.
    fn give_up(&self) {
        self.running.fetch_sub(1, Ordering::SeqCst);
    }

    fn all_run(&self) -> bool {
        self.running.load(Ordering::SeqCst) == self.count
    }
}

// For so many idle rounds a part yields the processor, after them it naps.
const YIELDS: u32 = 200;

// Microseconds of the first nap. Each nap after it is twice as long as the one before, up to a millisecond.
const FIRST_NAP: u64 = 64;

const DOUBLINGS: u32 = 4;

// After so many idle rounds, some 20 milliseconds, it sleeps until another part's worker moves.
const NAPS: u32 = 220;

// After so many, about a second, it gives up, unless all parts run beside each other.
const IDLE_ROUNDS: u32 = 1_000;

/// How many rounds in a row a part's workers have only waited.
#[derive(Drop)]
struct Idle {
    rounds: u32,
    // It is among the sleepers.
    sleeps: bool,
}

impl Idle {
    fn new() -> Idle {
        Idle {
            rounds: 0,
            sleeps: false,
        }
    }

    fn is_long(&self) -> bool {
        self.rounds >= IDLE_ROUNDS
    }

    // After one round more, the looks of which came after so many wakes.
    fn rest<R: Wait>(&mut self, rt: &R, parts: &Parts, wakes: u64) {
        self.rounds = self.rounds.saturating_add(1);
        if self.rounds < YIELDS {
            yield_now();
        } else if self.rounds < NAPS || !parts.all_run() {
            nap(rt, FIRST_NAP << (self.rounds - YIELDS).min(DOUBLINGS));
        } else if self.sleeps {
            parts.sleepers.sleep(rt, wakes);
        } else {
            parts.sleepers.enter();
            self.sleeps = true;
        }
    }

    // A worker has something to do again, or the part ends.
    fn end(&mut self, parts: &Parts) {
        if self.sleeps {
            parts.sleepers.leave();
        }
        *self = Idle::new();
    }
}

/// Turns in rotation, until all have ended or none has moved for long.
pub(crate) fn rotate_while_moving<R: Wait, K: SyscallKernel, G: Gate>(
    rt: &R,
    workers: &mut [Worker<K>],
    room: &Room<K>,
    terms: &Terms<'_, G>,
    parts: &Parts,
)
    requires can { CanAll (judges_of terms.now) room.now terms.now.most workers.old }
    requires terms { AreOfRoom room.now terms.now }
    ensures on { AllOn (judges_of terms.now) room.now terms.now.most workers.old workers.new }
{
    parts.begin();
    let mut idle = Idle::new();
    for _ in 0..u64::MAX {
        let wakes = parts.sleepers.wakes();
        match round(workers, room, terms) {
            Turn::Done => {
                idle.end(parts);
                parts.sleepers.wake();
                return;
            }
            Turn::Moved => {
                idle.end(parts);
                parts.sleepers.wake();
            }
            Turn::Ahead => idle.end(parts),
            Turn::Waiting => {
                if idle.is_long() && !parts.all_run() {
                    idle.end(parts);
                    parts.give_up();
                    return;
                }
                idle.rest(rt, parts, wakes);
            }
        }
    }
}

/// Turns in rotation, until all have ended.
pub(crate) fn rotate<R: Wait, K: SyscallKernel, G: Gate>(
    rt: &R,
    workers: &mut [Worker<K>],
    room: &Room<K>,
    terms: &Terms<'_, G>,
)
    requires can { CanAll (judges_of terms.now) room.now terms.now.most workers.old }
    requires terms { AreOfRoom room.now terms.now }
    ensures on { AllOn (judges_of terms.now) room.now terms.now.most workers.old workers.new }
    ensures gone { AreGone workers.new }
{
    for _ in rt.forever() {
        match round(workers, room, terms) {
            Turn::Done => return,
            Turn::Moved | Turn::Ahead => {}
            Turn::Waiting => yield_now(),
        }
    }
    unreachable!()
}
