//! A whole run.
ghost use Rattle.std.specs.Prelude.{◌≡◌, ◌≤◌, ◌<◌, ◌+◌, ◌++◌, ℕ, List, [], false, map, length, vec_len, vec_capacity, IfOk, IfErr};
ghost use Rattle.nv_calls.specs.Logs.{Start};
ghost use Rattle.nv_threads.specs.Threads.{Proc, threads};
ghost use Rattle.nv_threads.specs.Threads.{threads as host};
ghost use Rattle.nv_replay.specs.Account.{AreFresh};
ghost use Rattle.nv_replay.specs.Follow.{Judge};
ghost use Rattle.nv_replay.specs.LettingGo.{NoneLetGo};
ghost use Rattle.nv_replay.specs.Version.{Running, standing_of};
ghost use Rattle.nv_room.specs.Room.{Became};
ghost use Rattle.nv_room.specs.Seats.{versions_of, hands_of, on_demand_of, origin};
ghost use Rattle.nv_workers.specs.Ends.{IsAccount};
ghost use Rattle.nv_workers.specs.Terms.{AreOfRoom, judges_of};
ghost use Rattle.nv_workers.specs.inner.Rounds.{AreGone};
ghost use Rattle.nv_workers.specs.Staffing.{AreNew, AreAsMade, HasMemoryFor};
ghost use Rattle.nv_workers.specs.Ran.{AllRan, AreApart};

use crate::dealing::deal;
use crate::gate::Gate;
use crate::running::rotate;
use crate::staffing::{Stock, staff_with};
use crate::terms::Terms;
use crate::worker::{Seat, Worker};
use nv_calls::SyscallKernel;
use nv_replay::{Account, Version};
use nv_room::{Ended, Lead, Left, Reader, Room};
use std::alloc::{AllocError, Global};
use std::sync::Wait;
use std::thread::Threads;

/// The versions of a run once all have ended, and the room for its end, with what is left of each one's seat.
#[derive(Drop)]
pub struct Ran<K: SyscallKernel> {
    pub room: Room<K>,
    /// In order of version.
    pub left: Vec<Left<K>>,
    pub versions: Vec<Version>,
}

/// What a run was given, where it found no memory: no worker has taken a turn.
#[derive(Drop)]
pub struct NotRun<K: SyscallKernel> {
    pub room: Room<K>,
    pub workers: Vec<Worker<K>>,
}

impl<K: SyscallKernel> From<NotRun<K>> for AllocError {
    fn from(_given: NotRun<K>) -> AllocError {
        AllocError
    }
}

/// Runs the workers of a room's versions until all have ended, on so many host threads. All its own memory is taken before
/// the first turn: where there is none, room and workers come back as they were, so no call was served.
pub fn run_all<R: Threads + Wait + Sync, K: SyscallKernel, G: Gate + Sync>(
    rt: &R,
    alloc: Global,
    room: Room<K>,
    mut workers: Vec<Worker<K>>,
    terms: &Terms<'_, G>,
    threads: u32,
) -> Result<Ran<K>, NotRun<K>>
    requires new { (fresh : List (Running Proc)) × AreNew room 0 fresh workers.items }
    requires all { vec_len workers ≡ versions_of room }
    requires terms { AreOfRoom room terms.now }
    ensures room { IfOk result (λ r. r.room ≡ room) }
    ensures ran { IfOk result (λ r. (fresh : List (Running Proc)) → AreNew room 0 fresh workers.items → AllRan (judges_of terms.now) r.room terms.now.most fresh r.versions.items r.left.items) }
    ensures not_run { IfErr result (λ given. (given.room ≡ room) × (given.workers ≡ workers)) }
{
    let Ok((versions, left)) = lists_for(alloc, workers.len()) else {
        return Err(NotRun { room, workers });
    };
    let beside = workers.as_mut_slice();
    deal(rt, beside, &room, terms, threads as usize);
    rotate(rt, beside, &room, terms);
    Ok(collect(room, workers, versions, left))
}

/// Staffs a room as it was made, and runs its versions until all have ended, on so many host threads. It takes no memory of its own.
pub fn run_staffed<R: Threads + Wait + Sync, K: SyscallKernel, G: Gate + Sync>(
    rt: &R,
    stock: Stock<K>,
    versions: Vec<Version>,
    made: (Room<K>, Vec<Reader<K>>, Lead<K>),
    terms: &Terms<'_, G>,
    threads: u32,
) -> Ran<K>
    requires memory { HasMemoryFor (length versions.items) stock }
    requires fresh { AreFresh host 0 versions.items }
    requires seats { AreAsMade made.0 made.1.items made.2 }
    requires each { length versions.items ≡ length made.1.items + 1 }
    requires all { length versions.items ≡ versions_of made.0 }
    requires terms { AreOfRoom made.0 terms.now }
    ensures room { result.room ≡ made.0 }
    ensures ran { AllRan (judges_of terms.now) result.room terms.now.most versions.items result.versions.items result.left.items }
{
    let Stock {
        bufs,
        workers,
        versions: ended,
        left,
    } = stock;
    let (room, readers, lead) = made;
    let mut workers = staff_with(bufs, workers, versions, readers, lead);
    let beside = workers.as_mut_slice();
    deal(rt, beside, &room, terms, threads as usize);
    rotate(rt, beside, &room, terms);
    collect(room, workers, ended, left)
}

/// What is left of workers that have taken their turns one by one, once all have left.
pub fn gather<K: SyscallKernel>(
    alloc: Global,
    room: Room<K>,
    workers: Vec<Worker<K>>,
) -> Result<Ran<K>, AllocError>
    requires gone { AreGone workers.items }
    ensures room { IfOk result (λ r. r.room ≡ room) }
    ensures apart { IfOk result (λ r. AreApart workers.items r.versions.items r.left.items) }
{
    let (versions, left) = lists_for(alloc, workers.len())?;
    Ok(collect(room, workers, versions, left))
}

// Empty lists, with memory for what is left of so many workers.
pub(crate) fn lists_for<K: SyscallKernel>(
    alloc: Global,
    workers: usize,
) -> Result<(Vec<Version>, Vec<Left<K>>), AllocError>
    ensures empty { IfOk result (λ lists. (lists.0.items ≡ []) × (lists.1.items ≡ [])) }
    ensures room { IfOk result (λ lists. (workers ≤ vec_capacity lists.0) × (workers ≤ vec_capacity lists.1)) }
{
    let versions = Vec::with_capacity(alloc, workers)?;
    let left = Vec::with_capacity(alloc, workers)?;
    Ok((versions, left))
}

// What is left of workers that have left, in empty lists that have memory for it.
fn collect<K: SyscallKernel>(
    room: Room<K>,
    workers: Vec<Worker<K>>,
    mut versions: Vec<Version>,
    mut left: Vec<Left<K>>,
) -> Ran<K>
    requires gone { AreGone workers.items }
    requires empty { (versions.items ≡ []) × (left.items ≡ []) }
    requires room { (vec_len workers ≤ vec_capacity versions) × (vec_len workers ≤ vec_capacity left) }
    ensures room { result.room ≡ room }
    ensures apart { AreApart workers.items result.versions.items result.left.items }
{
    take_apart(workers, &mut versions, &mut left);
    Ran {
        room,
        left,
        versions,
    }
}

// The versions and the seats that have left, in order.
fn take_apart<K: SyscallKernel>(
    workers: Vec<Worker<K>>,
    versions: &mut Vec<Version>,
    left: &mut Vec<Left<K>>,
)
    requires gone { AreGone workers.items }
    requires empty { (versions.old.items ≡ []) × (left.old.items ≡ []) }
    requires room { (vec_len workers ≤ vec_capacity versions.old) × (vec_len workers ≤ vec_capacity left.old) }
    ensures { AreApart workers.items versions.new.items left.new.items }
{
    for worker in workers {
        let Worker {
            version,
            seat,
            buf: _,
            spare: _,
        } = worker;
        let Seat::Gone { left: gone } = seat else {
            unreachable!()
        };
        versions.push_reserved(version);
        left.push_reserved(gone);
    }
}

/// The room ends, and the account is that of the versions one after another: the plain monitor's, with the planned lengths and
/// those at which leaders handed over besides, of which there are none in a room whose leaders don't hand over on demand. Those are
/// just the lengths at which the kernel asked for it.
pub fn end<K: SyscallKernel>(ran: Ran<K>) -> Account<K>
    requires { (judges : ℕ → Judge) × (most : ℕ) × (fresh : List (Running Proc)) × AllRan judges ran.room most fresh ran.versions.items ran.left.items }
    ensures start { K.start result.kernel ≡ K.start (origin ran.room) }
    ensures account { (judges : ℕ → Judge) (most : ℕ) (fresh : List (Running Proc)) → AllRan judges ran.room most fresh ran.versions.items ran.left.items
        → (asked : List ℕ) × (on_demand_of ran.room ≡ false → asked ≡ []) × IsAccount threads judges (K.known result.kernel) most (hands_of ran.room ++ asked) fresh result.versions.items (K.log result.kernel)
        × Became K.start K.handed (origin ran.room) result.kernel asked }

    // where leaders don't hand over on demand, no version was let go
    ensures stays { (judges : ℕ → Judge) (most : ℕ) (fresh : List (Running Proc)) → AllRan judges ran.room most fresh ran.versions.items ran.left.items
        → on_demand_of ran.room ≡ false → NoneLetGo (map standing_of result.versions.items) }

    // where what a kernel was made over tells how it goes on, the account is from what the room's was made over
    ensures foretold { (told : K.Beginning → Start) → ((k : K) → K.known k ≡ told (K.start k))
        → (judges : ℕ → Judge) (most : ℕ) (fresh : List (Running Proc)) → AllRan judges ran.room most fresh ran.versions.items ran.left.items
        → (asked : List ℕ) × (on_demand_of ran.room ≡ false → asked ≡ []) × IsAccount threads judges (told (K.start (origin ran.room))) most (hands_of ran.room ++ asked) fresh result.versions.items (K.log result.kernel)
        × Became K.start K.handed (origin ran.room) result.kernel asked }
{
    let Ran {
        room,
        left,
        versions,
    } = ran;
    let Ended { kernel, seen: _ } = room.finish(left);
    Account { kernel, versions }
}
