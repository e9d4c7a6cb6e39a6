//! Workers dealt to host threads.
ghost use Rattle.std.specs.Prelude.{◌≤◌, ◌<◌};
ghost use Rattle.nv_workers.specs.Terms.{AreOfRoom, judges_of};
ghost use Rattle.nv_workers.specs.inner.Rounds.{CanAll, AllOn};
ghost use Rattle.nv_workers.specs.inner.Dealing.{AreEven};

use crate::gate::Gate;
use crate::running::{Parts, rotate_while_moving};
use crate::terms::Terms;
use crate::worker::Worker;
use nv_calls::SyscallKernel;
use nv_room::Room;
use std::sync::Wait;
use std::thread;
use std::thread::Threads;

/// Workers in stretches of two sizes. Those of one size stand first, and have no fewer workers together than the others, so
/// that the slice falls into two chunks.
#[derive(Clone, Copy, Debug, PartialEq, Eq, Drop)]
struct Stretches {
    // The workers of the first ones together.
    first: usize,
    // The workers of each of the first ones.
    size: usize,
    // The workers of each of the others.
    other: usize,
}

impl Stretches {
    // So many workers in so many stretches.
    fn of(workers: usize, stretches: usize) -> Stretches
        requires some { 0 < stretches }
        requires enough { stretches ≤ workers }
        ensures { AreEven workers stretches result }
    {
        let short = workers / stretches;
        let long = workers.div_ceil(stretches);
        let in_long = workers % stretches * long;
        let in_short = workers - in_long;
        if in_long <= in_short {
            Stretches {
                first: in_short,
                size: short,
                other: long,
            }
        } else {
            Stretches {
                first: in_long,
                size: long,
                other: short,
            }
        }
    }

    // The size of the stretches that begin with this worker.
    fn size_from(&self, start: usize) -> usize
        requires { (0 < self.now.size) × (0 < self.now.other) }
        ensures { 0 < result }
    {
        if start == 0 { self.size } else { self.other }
    }
}

/// Each thread takes the turns of a stretch of the workers in rotation. The sizes of the stretches are at most one apart.
pub(crate) fn deal<R: Threads + Wait + Sync, K: SyscallKernel, G: Gate + Sync>(
    rt: &R,
    workers: &mut [Worker<K>],
    room: &Room<K>,
    terms: &Terms<'_, G>,
    threads: usize,
)
    requires can { CanAll (judges_of terms.now) room.now terms.now.most workers.old }
    requires terms { AreOfRoom room.now terms.now }
    ensures { AllOn (judges_of terms.now) room.now terms.now.most workers.old workers.new }
{
    if workers.is_empty() {
        return;
    }
    let threads = threads.min(workers.len()).max(1);
    let stretches = Stretches::of(workers.len(), threads);
    let parts = Parts::new(threads);
    let alike = |start: usize, part: &mut [Worker<K>]|
        requires { CanAll (judges_of terms.now) room.now terms.now.most part.now × AreOfRoom room.now terms.now × (0 < stretches.size) × (0 < stretches.other) }
        ensures { AllOn (judges_of terms.entry.now) room.entry.now terms.entry.now.most part.entry.now part.exit.now }
    { deal_alike(rt, part, stretches.size_from(start), room, terms, &parts) };
    thread::for_each_chunk_mut(rt, workers, stretches.first, &alike);
}

// The workers in stretches of this size.
fn deal_alike<R: Threads + Wait + Sync, K: SyscallKernel, G: Gate + Sync>(
    rt: &R,
    workers: &mut [Worker<K>],
    size: usize,
    room: &Room<K>,
    terms: &Terms<'_, G>,
    parts: &Parts,
)
    requires can { CanAll (judges_of terms.now) room.now terms.now.most workers.old }
    requires terms { AreOfRoom room.now terms.now }
    requires some { 0 < size }
    ensures { AllOn (judges_of terms.now) room.now terms.now.most workers.old workers.new }
{
    let turns = |_start: usize, part: &mut [Worker<K>]|
        requires { CanAll (judges_of terms.now) room.now terms.now.most part.now × AreOfRoom room.now terms.now }
        ensures { AllOn (judges_of terms.entry.now) room.entry.now terms.entry.now.most part.entry.now part.exit.now }
    { rotate_while_moving(rt, part, room, terms, parts) };
    thread::for_each_chunk_mut(rt, workers, size, &turns);
}
