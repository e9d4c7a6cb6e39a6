//! Events through a room, and as many words through rtrb; bench/ring_speed.py takes the time.
use crate::{queue, room};
use anyhow::Result;
use std::alloc::{AllocError, Global};
use std::io::Print;
use std::thread::Threads;

// How often each run is repeated, and its events.
const ROUNDS: u32 = 10;

const SMALL_EVENTS: u32 = 100_000;

const LARGE_EVENTS: u32 = 10_000;

/// Takes what runs, as `ring-518-2` (words an event, readers), `kernel-518` or `rtrb-518`.
pub fn run_words<R: Print + AllocGlobal + Threads + Sync>(rt: &R, words: &[String]) -> Result<()> {
    let name = match words.first() {
        Some(name) => name.as_str(),
        None => "ring-6-1",
    };
    run_kind(rt, name)
}

/// Runs what the name says, and prints how many events were seen in all.
pub fn run_kind<R: Print + AllocGlobal + Threads + Sync>(rt: &R, name: &str) -> Result<()> {
    let events = measure(rt, rt.alloc(), name)?;
    println!(rt; "{name} {events}")?;
    Ok(())
}

// How many events were seen in all.
fn measure<R: Threads + Sync>(rt: &R, alloc: Global, name: &str) -> Result<u64, AllocError> {
    let mut events: u64 = 0;
    for _round in 0..ROUNDS {
        let seen = match name {
            "ring-6-0" => room::run_room(rt, alloc, 0, SMALL_EVENTS, 1)?,
            "ring-6-1" => room::run_room(rt, alloc, 0, SMALL_EVENTS, 2)?,
            "ring-6-2" => room::run_room(rt, alloc, 0, SMALL_EVENTS, 3)?,
            "ring-518-0" => room::run_room(rt, alloc, 4096, LARGE_EVENTS, 1)?,
            "ring-518-1" => room::run_room(rt, alloc, 4096, LARGE_EVENTS, 2)?,
            "ring-518-2" => room::run_room(rt, alloc, 4096, LARGE_EVENTS, 3)?,
            "kernel-6" => room::run_kernel(alloc, 0, SMALL_EVENTS)?,
            "kernel-518" => room::run_kernel(alloc, 4096, LARGE_EVENTS)?,
            "rtrb-6" => queue::run(rt, alloc, 6, SMALL_EVENTS)?,
            "rtrb-518" => queue::run(rt, alloc, 518, LARGE_EVENTS)?,
            _ => 0,
        };
        events = events.saturating_add(seen);
    }
    Ok(events)
}
