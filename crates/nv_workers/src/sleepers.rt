// Threads that sleep until a worker of another has moved.

use std::sync::Wait;
use std::sync::atomic::{AtomicU64, Ordering};
use std::time::Duration;

/// Threads that have had nothing to do for long. Who is about to sleep enters, and then looks once more; who has moved looks for sleepers after that. So one
/// of them sees the other. A sleep has a bound as well: no run rests on a wake.
#[derive(Drop)]
pub(crate) struct Sleepers {
    count: AtomicU64,
    // How many wakes there were. It is the word that they sleep on.
    wakes: AtomicU64,
}

// Microseconds of the longest sleep without a wake.
const SLEEP: u64 = 65_536;

// Microseconds that a thread naps once it is woken: who woke it may lead, and a client waits for that one's answer.
const NAP: u64 = 256;

impl Sleepers {
    pub(crate) fn new() -> Sleepers {
        Sleepers {
            count: AtomicU64::new(0),
            wakes: AtomicU64::new(0),
        }
    }

    /// From here on this thread is woken.
    pub(crate) fn enter(&self) {
        self.count.fetch_add(1, Ordering::SeqCst);
    }

    /// It has something to do.
    pub(crate) fn leave(&self) {
        self.count.fetch_sub(1, Ordering::SeqCst);
    }

    /// How many wakes there were, to be asked before the look after which the thread sleeps.
    pub(crate) fn wakes(&self) -> u64 {
        self.wakes.load(Ordering::SeqCst)
    }

    /// Sleeps until the next wake after so many. Who is woken wakes the others.
    pub(crate) fn sleep<R: Wait>(&self, rt: &R, wakes: u64) {
        let expected = (wakes % 0x1_0000_0000) as u32;
        self.wakes
            .park_timeout(rt, expected, Duration::from_micros(SLEEP));
        if self.wakes() != wakes {
            nap(rt, NAP);
            self.wakes.wake_all();
        }
    }

    /// Wakes one of them, where there are any.
    pub(crate) fn wake(&self) {
        if self.count.load(Ordering::SeqCst) > 0 {
            self.wakes.fetch_add(1, Ordering::SeqCst);
            self.wakes.wake_one();
        }
    }
}

/// Sleeps for so many microseconds, and nobody wakes it.
pub(crate) fn nap<R: Wait>(rt: &R, micros: u64) {
    AtomicU64::new(0).park_timeout(rt, 0, Duration::from_micros(micros));
}
