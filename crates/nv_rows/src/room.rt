//! Events through a room.
ghost use Rattle.std.specs.Prelude.{◌≡◌, ◌<◌, ◌≤◌, IfOk};
ghost use Rattle.nv_calls.specs.Limits.{MOST_EVENTS};
ghost use Rattle.nv_room_tests.specs.Scripts.{AreCalls};

use nv_calls::{Recorded, SyscallKernel};
use nv_room_tests::{Script, exit_group, kernel, serve_all, write};
use std::alloc::{AllocError, Global};
use std::thread::Threads;

// How many events a room holds, and how many turns a thread may be idle.
const PLACES: u32 = 64;

const IDLE: u32 = 4_000_000_000;

/// How many events the last station of a room saw, of writes of so many bytes.
pub fn run_room<R: Threads + Sync>(
    rt: &R,
    alloc: Global,
    bytes: u32,
    events: u32,
    versions: u32,
) -> Result<u64, AllocError>
    requires bytes { bytes ≤ 4096 }
    requires events { events ≤ MOST_EVENTS }
    requires versions { (0 < versions) × (versions ≤ 8) }
{
    let script = script(alloc, bytes, events)?;
    let ended = nv_room_tests::run(rt, alloc, kernel(alloc)?, &script, versions, PLACES)?;
    Ok(match ended.seen.last() {
        Some(seen) => *seen as u64,
        None => 0,
    })
}

/// The same calls on the kernel alone.
pub fn run_kernel(alloc: Global, bytes: u32, events: u32) -> Result<u64, AllocError>
    requires bytes { bytes ≤ 4096 }
    requires events { events ≤ MOST_EVENTS }
{
    let script = script(alloc, bytes, events)?;
    let kernel = serve_all(kernel(alloc)?, &script);
    Ok(kernel.history().len() as u64)
}

fn script(alloc: Global, bytes: u32, events: u32) -> Result<Script, AllocError>
    requires { bytes ≤ 4096 }
    ensures events { IfOk result (λ s. s.events ≡ events) }
    ensures calls { IfOk result (λ s. AreCalls s) }
    ensures first { IfOk result (λ s. s.first.tid ≡ 100) }
{
    let opening = write(alloc, bytes)?;
    let first = write(alloc, bytes)?;
    let second = write(alloc, bytes)?;
    let last = exit_group(alloc)?;
    Ok(Script {
        opening,
        first,
        second,
        last,
        events,
        each: events,
        most: IDLE,
    })
}
