//! The workers of a room.
ghost use Rattle.std.specs.Prelude.{◌≡◌, ◌+◌, ◌≤◌, ◌<◌, [], length, vec_len, vec_capacity, IfOk};
ghost use Rattle.nv_threads.specs.Threads.{threads};
ghost use Rattle.nv_replay.specs.Account.{AreFresh};
ghost use Rattle.nv_workers.specs.Staffing.{AreNewSeats, HasMemoryFor, StaffsAnew};

use crate::ran::lists_for;
use crate::worker::Worker;
use nv_calls::SyscallKernel;
use nv_replay::Version;
use nv_room::{Lead, Left, Reader};
use nv_words::EventBuf;
use std::alloc::{AllocError, Global};

/// Memory for the workers of so many versions, and for what is left of them.
#[derive(Drop)]
pub struct Stock<K: SyscallKernel> {
    pub(crate) bufs: Vec<EventBuf>,
    pub(crate) workers: Vec<Worker<K>>,
    pub(crate) versions: Vec<Version>,
    pub(crate) left: Vec<Left<K>>,
}

impl<K: SyscallKernel> Stock<K> {
    /// All that a run of so many versions takes on its own, before it begins.
    pub fn make(alloc: Global, count: usize) -> Result<Stock<K>, AllocError>
        ensures { IfOk result (HasMemoryFor count) }
    {
        let (versions, left) = lists_for(alloc, count)?;
        Ok(Stock {
            bufs: bufs_for(alloc, count)?,
            workers: Vec::with_capacity(alloc, count)?,
            versions,
            left,
        })
    }
}

// Memory for an event of each worker.
fn bufs_for(alloc: Global, count: usize) -> Result<Vec<EventBuf>, AllocError>
    ensures { IfOk result (λ bufs. vec_len bufs ≡ count) }
{
    let mut bufs = Vec::with_capacity(alloc, count)?;
    for _ in 0..count {
        bufs.push(EventBuf::make(alloc)?)?;
    }
    Ok(bufs)
}

fn one_of(bufs: &mut Vec<EventBuf>) -> EventBuf
    requires { 0 < vec_len bufs.old }
    ensures { vec_len bufs.new + 1 ≡ vec_len bufs.old }
{
    let Some(buf) = bufs.pop() else {
        unreachable!()
    };
    buf
}

/// A worker for each version, in order, with the seats of a room as it was made: the first version leads, the others read.
pub fn staff<K: SyscallKernel>(
    alloc: Global,
    versions: Vec<Version>,
    readers: Vec<Reader<K>>,
    lead: Lead<K>,
) -> Result<Vec<Worker<K>>, AllocError>
    requires fresh { AreFresh threads 0 versions.items }
    requires seats { AreNewSeats readers.items lead }
    requires each { length versions.items ≡ length readers.items + 1 }
    ensures new { IfOk result (λ workers. StaffsAnew versions.items readers.items lead workers.items) }
    ensures each { IfOk result (λ workers. length workers.items ≡ length versions.items) }
{
    let count = versions.len();
    let bufs = bufs_for(alloc, count)?;
    let workers = Vec::with_capacity(alloc, count)?;
    Ok(staff_with(bufs, workers, versions, readers, lead))
}

/// The same with memory for them.
pub(crate) fn staff_with<K: SyscallKernel>(
    mut bufs: Vec<EventBuf>,
    workers: Vec<Worker<K>>,
    mut versions: Vec<Version>,
    mut readers: Vec<Reader<K>>,
    lead: Lead<K>,
) -> Vec<Worker<K>>
    requires fresh { AreFresh threads 0 versions.items }
    requires seats { AreNewSeats readers.items lead }
    requires each { length versions.items ≡ length readers.items + 1 }
    requires empty { workers.items ≡ [] }
    requires room { (vec_len versions ≤ vec_len bufs) × (vec_len versions ≤ vec_capacity workers) }
    ensures new { StaffsAnew versions.items readers.items lead result.items }
    ensures each { length result.items ≡ length versions.items }
    ensures capacity { vec_capacity result ≡ vec_capacity workers }
{
    let Some(version) = versions.pop() else {
        unreachable!()
    };
    let buf = one_of(&mut bufs);
    let Some(reader) = readers.pop() else {
        let mut workers = workers;
        workers.push_reserved(Worker::leading(buf, version, lead));
        return workers;
    };
    let mut workers = staff_with(bufs, workers, versions, readers, lead);
    workers.push_reserved(Worker::reading(buf, version, reader));
    workers
}
