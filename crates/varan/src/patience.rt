// How long the leader of a live run has waited for each follower.

use nv_workers::VersionNumber;
use std::sync::atomic::{AtomicU64, Ordering};
use std::time::Instant;

const MOST_VERSIONS: usize = 8;

const MICROS: u64 = 1_000;

/// A leader waits while its next event finds no place, because followers have still to pass earlier ones. Whoever has passed all events when the next one is
/// published begins anew; what leaders wait from then on, in all, counts for those that stay behind. So a follower that is slow for a moment isn't let go, and
/// one that never comes up while the service is busy is.
#[derive(Drop)]
pub struct Patience<'a> {
    rt: &'a HostRuntime,
    start: Option<Instant>,
    // Microseconds.
    limit: u64,
    // How many events leaders have published.
    published: AtomicU64,
    // Microseconds of the waits that are over.
    waited: AtomicU64,
    // When the wait that lasts began, or 0.
    since: AtomicU64,
    versions: [Passing; MOST_VERSIONS],
}

/// How a version comes along.
#[derive(Drop)]
struct Passing {
    // How many events it has passed, or led.
    passed: AtomicU64,
    // Microseconds that leaders had waited when an event was published before which it had passed all.
    begun: AtomicU64,
}

impl Passing {
    fn new() -> Passing {
        Passing {
            passed: AtomicU64::new(0),
            begun: AtomicU64::new(0),
        }
    }

    // The event with this stamp comes, before which leaders have waited so long.
    fn at_publish(&self, stamp: u64, waited: u64) {
        if self.passed.load(Ordering::SeqCst) >= stamp {
            self.begun.store(waited, Ordering::SeqCst);
        }
    }
}

impl<'a> Patience<'a> {
    /// A follower is let go once the leader has waited for it so many milliseconds.
    pub fn make(rt: &'a HostRuntime, millis: u32) -> Patience<'a> {
        Patience {
            rt,
            start: Instant::now(rt).ok(),
            limit: u64::from(millis) * MICROS,
            published: AtomicU64::new(0),
            waited: AtomicU64::new(0),
            since: AtomicU64::new(0),
            versions: [
                Passing::new(),
                Passing::new(),
                Passing::new(),
                Passing::new(),
                Passing::new(),
                Passing::new(),
                Passing::new(),
                Passing::new(),
            ],
        }
    }

    // Microseconds since the start, and one more. A clock that can't be read stands at it.
    fn now(&self) -> u64 {
        let Some(start) = self.start else {
            return 1;
        };
        match start.elapsed(self.rt) {
            Ok(time) => u64::try_from(time.as_micros())
                .unwrap_or(u64::MAX)
                .saturating_add(1),
            Err(_) => 1,
        }
    }

    // Microseconds that leaders have waited in all.
    fn waited(&self) -> u64 {
        let over = self.waited.load(Ordering::SeqCst);
        match self.since.load(Ordering::SeqCst) {
            0 => over,
            since => over.saturating_add(self.now().saturating_sub(since)),
        }
    }

    /// The leader's next event finds no place.
    pub fn at_wait(&self) {
        if self.since.load(Ordering::SeqCst) == 0 {
            self.since.store(self.now(), Ordering::SeqCst);
        }
    }

    /// The leader is about to publish the event with this stamp.
    pub fn at_publish(&self, leader: VersionNumber, stamp: u32) {
        let waited = self.waited();
        if self.since.load(Ordering::SeqCst) != 0 {
            self.waited.store(waited, Ordering::SeqCst);
            self.since.store(0, Ordering::SeqCst);
        }
        for version in &self.versions {
            version.at_publish(u64::from(stamp), waited);
        }
        self.at_pass(leader, stamp);
        self.published.store(u64::from(stamp) + 1, Ordering::SeqCst);
    }

    /// The version has passed the event with this stamp.
    pub fn at_pass(&self, version: VersionNumber, stamp: u32) {
        if let Some(version) = self.versions.get(version.0 as usize) {
            version.passed.store(u64::from(stamp) + 1, Ordering::SeqCst);
        }
    }

    /// How many events the follower that has passed so many is behind, where the leader has waited for it too long.
    pub fn behind(&self, version: VersionNumber, passed: u32) -> Option<u64> {
        let version = self.versions.get(version.0 as usize)?;
        let begun = version.begun.load(Ordering::SeqCst);
        if self.waited().saturating_sub(begun) < self.limit {
            return None;
        }
        let published = self.published.load(Ordering::SeqCst);
        Some(published.saturating_sub(u64::from(passed)))
    }
}
