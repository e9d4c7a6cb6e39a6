// A gate at which two versions meet, so that they have to run beside each other.
ghost use Rattle.std.specs.Prelude.{◌<◌};

use crate::call::{Answered, Outside, monitor_through};
use nv_workers::{Gate, VersionNumber};
use std::alloc::{AllocError, Global};
use std::sync::Wait;
use std::sync::atomic::{AtomicU64, Ordering};
use std::thread::{Threads, yield_now};

// Version 1 has taken event 3 and the leader is about to publish event 7, at the same time: neither passes before both are
// there. The stamps of each come in order.
#[derive(Drop)]
struct Meeting {
    published: AtomicU64,
    taken: AtomicU64,
    // How often a call wasn't the next one, or the other version didn't come.
    faults: AtomicU64,
}

impl Meeting {
    fn new() -> Self {
        Meeting {
            published: AtomicU64::new(0),
            taken: AtomicU64::new(0),
            faults: AtomicU64::new(0),
        }
    }

    fn note(&self, passed: &AtomicU64, is_expected: bool, stamp: u32) {
        let before = passed.fetch_add(1, Ordering::SeqCst);
        if !is_expected || before != u64::from(stamp) {
            self.faults.fetch_add(1, Ordering::SeqCst);
        }
    }

    fn wait_for(&self, passed: &AtomicU64, count: u64) {
        for _ in 0..10_000_000 {
            if passed.load(Ordering::SeqCst) >= count {
                return;
            }
            yield_now();
        }
        self.faults.fetch_add(1, Ordering::SeqCst);
    }

    // Whether the versions met, and each of so many events was published and taken.
    fn was_right(&self, events: u64) -> bool {
        self.faults.load(Ordering::SeqCst) == 0
            && self.published.load(Ordering::SeqCst) == events
            && self.taken.load(Ordering::SeqCst) == events
    }
}

impl Gate for Meeting {
    fn before_publish(&self, version: VersionNumber, stamp: u32) {
        self.note(&self.published, version == VersionNumber(0), stamp);
        if stamp == 7 {
            self.wait_for(&self.taken, 4);
        }
    }

    fn after_take(&self, version: VersionNumber, stamp: u32) {
        self.note(&self.taken, version == VersionNumber(1), stamp);
        if stamp == 3 {
            self.wait_for(&self.published, 8);
        }
    }
}

/// Calls the monitor with these words, and with a gate at which its two versions meet. If they don't, or have another number of events,
/// the status is 255.
pub fn monitor_meeting<R: Threads + Wait + Sync>(
    rt: &R,
    alloc: Global,
    words: &[&str],
    outside: Outside,
    events: u32,
) -> Result<Answered, AllocError>
    requires { 0 < outside.most }
{
    let meeting = Meeting::new();
    let answered = monitor_through(rt, alloc, words, outside, &meeting)?;
    if meeting.was_right(u64::from(events)) {
        return Ok(answered);
    }
    Ok(Answered {
        status: 255,
        ..answered
    })
}
