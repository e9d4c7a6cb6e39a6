//! The scheduler.
ghost use Rattle.std.specs.Prelude.{◌≡◌, ◌<◌, IfSome};
ghost use Rattle.nv_workers.specs.Terms.{AreOfRoom, judges_of};
ghost use Rattle.nv_workers.specs.inner.Rounds.{CanAll, AllOn, AreGone};
ghost use Rattle.nv_run_tests.specs.Endings.{GoneIfLeft};

use crate::seed::Seed;
use crate::{BUDGET, MOST_EVENTS};
use nv_kernel::ScriptKernel;
use nv_room::Room;
use nv_workers::{OpenGate, Terms, Turn, Worker};

/// How the turns of a run ended.
#[derive(Clone, Copy, Debug, PartialEq, Eq, Drop)]
pub enum Ending {
    AllLeft,
    /// The workers that had not left waited, one after another.
    AllWait,
    /// They had taken as many turns as they may.
    TooMany,
}

// What a worker's last turn came to.
#[derive(Clone, Copy, Debug, PartialEq, Eq, Drop)]
enum State {
    Ready,
    // It waited, and since then no worker has got on.
    Waits,
    Left,
}

// The states of up to eight workers.
#[derive(Clone, Copy, Drop)]
struct States {
    states: [State; 8],
}

impl States {
    // None has had a turn.
    fn new() -> States {
        States {
            states: [State::Ready; 8],
        }
    }

    // The first that is ready, from this one on in rotation.
    fn ready_from(&self, start: usize) -> Option<usize>
        ensures { IfSome result (λ index. index < 8) }
    {
        for step in 0..8 {
            let index = (start % 8 + step) % 8;
            if self.states[index] == State::Ready {
                return Some(index);
            }
        }
        None
    }

    fn note(&mut self, index: usize, turn: Turn)
        requires { index < 8 }
    {
        match turn {
            Turn::Waiting => self.states[index] = State::Waits,
            Turn::Moved | Turn::Ahead => self.wake(),
            Turn::Done => {
                self.states[index] = State::Left;
                self.wake();
            }
        }
    }

    // Who waits may get on again.
    fn wake(&mut self) {
        for index in 0..8 {
            if self.states[index] == State::Waits {
                self.states[index] = State::Ready;
            }
        }
    }
}

// The turns that a run can take. No seat takes more steps that get on than one for each event, and four at each of 16 stations and once more; a turn that gets on
// without such a step does at least one instruction; and between two turns that get on each of the other workers waits once at most.
const MOST_TURNS: u64 = 8 * 8 * (MOST_EVENTS as u64 + 4 * 16 + 4 + BUDGET as u64) + 8;

/// Turns of a run's workers, each chosen by the seed from those that haven't waited since one got on: with even chances the one of the last turn, or a random one,
/// or who is next to it.
pub(crate) fn schedule(
    workers: &mut [Worker<ScriptKernel>],
    room: &Room<ScriptKernel>,
    terms: &Terms<'_, OpenGate>,
    seed: &mut Seed,
) -> Ending
    requires can { CanAll (judges_of terms.now) room.now terms.now.most workers.old }
    requires terms { AreOfRoom room.now terms.now }
    ensures on { AllOn (judges_of terms.now) room.now terms.now.most workers.old workers.new }
    ensures gone { GoneIfLeft result workers.new }
{
    let mut states = States::new();
    let mut last = 0;
    for _ in 0..MOST_TURNS {
        let start = choose(seed, last);
        let Some(index) = states.ready_from(start) else {
            return last_turns(workers, room, terms);
        };
        let turn = turn_of(workers, index, room, terms);
        states.note(index, turn);
        last = index;
    }
    Ending::TooMany
}

// The last one, or a random one.
fn choose(seed: &mut Seed, last: usize) -> usize {
    if seed.tosses() {
        last
    } else {
        seed.below(8) as usize
    }
}

// A turn of this worker; where there is none, that is done.
fn turn_of(
    workers: &mut [Worker<ScriptKernel>],
    index: usize,
    room: &Room<ScriptKernel>,
    terms: &Terms<'_, OpenGate>,
) -> Turn
    requires can { CanAll (judges_of terms.now) room.now terms.now.most workers.old }
    requires terms { AreOfRoom room.now terms.now }
    ensures on { AllOn (judges_of terms.now) room.now terms.now.most workers.old workers.new }
{
    let Some((first, others)) = workers.split_first_mut() else {
        return Turn::Done;
    };
    if index == 0 {
        return first.turn(room, terms);
    }
    turn_of(others, index - 1, room, terms)
}

// Whether all have left: each has a last turn, in which nothing happens to a worker that has.
fn last_turns(
    workers: &mut [Worker<ScriptKernel>],
    room: &Room<ScriptKernel>,
    terms: &Terms<'_, OpenGate>,
) -> Ending
    requires can { CanAll (judges_of terms.now) room.now terms.now.most workers.old }
    requires terms { AreOfRoom room.now terms.now }
    ensures on { AllOn (judges_of terms.now) room.now terms.now.most workers.old workers.new }
    ensures gone { GoneIfLeft result workers.new }
{
    let Some((first, others)) = workers.split_first_mut() else {
        return Ending::AllLeft;
    };
    let own = first.turn(room, terms);
    let rest = last_turns(others, room, terms);
    match own {
        Turn::Done => rest,
        Turn::Moved | Turn::Ahead | Turn::Waiting => Ending::AllWait,
    }
}
