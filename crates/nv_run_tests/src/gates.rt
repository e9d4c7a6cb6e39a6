ghost use Rattle.std.specs.Prelude.{◌≤◌};

use crate::accounts::{EXITS, alike};
use crate::runs::{beside, kernel, program};
use nv_workers::{Gate, VersionNumber};
use std::alloc::Global;
use std::process::Abort;
use std::sync::Wait;
use std::sync::atomic::{AtomicU64, Ordering};
use std::thread::{Threads, yield_now};

// How often the first version and the second came with each stamp: a decimal digit for each of 0, 1 and 2. Other versions are noted apart.
#[derive(Drop)]
struct Comings {
    first: AtomicU64,
    second: AtomicU64,
    others: AtomicU64,
}

impl Comings {
    fn none() -> Comings {
        Comings {
            first: AtomicU64::new(0),
            second: AtomicU64::new(0),
            others: AtomicU64::new(0),
        }
    }

    fn of(&self, version: VersionNumber) -> &AtomicU64 {
        match version {
            VersionNumber(0) => &self.first,
            VersionNumber(1) => &self.second,
            _ => &self.others,
        }
    }

    fn note(&self, version: VersionNumber, stamp: u32) {
        let once = match stamp {
            0 => 1,
            1 => 10,
            2 => 100,
            _ => 1_000,
        };
        self.of(version).fetch_add(once, Ordering::SeqCst);
    }

    fn told(&self) -> [u64; 3] {
        [
            self.first.load(Ordering::SeqCst),
            self.second.load(Ordering::SeqCst),
            self.others.load(Ordering::SeqCst),
        ]
    }
}

// A gate that notes which versions pass.
#[derive(Drop)]
struct Noting {
    published: Comings,
    taken: Comings,
}

impl Gate for Noting {
    fn before_publish(&self, version: VersionNumber, stamp: u32) {
        self.published.note(version, stamp);
    }

    fn after_take(&self, version: VersionNumber, stamp: u32) {
        self.taken.note(version, stamp);
    }
}

// The first version leads 0 to 1 and 2 to 3, the second 1 to 2: each publishes what it leads and takes the rest, under its own
// number, though it gets a new station where it hands over.
#[test]
fn gate_is_told_versions(rt: HostRuntime) {
    let alloc = rt.alloc();
    let two = alike(&rt, alloc, 2);
    let hands = [1, 2].to_vec(alloc).expect(&rt, "memory");
    for threads in [1, 2] {
        let gate = Noting {
            published: Comings::none(),
            taken: Comings::none(),
        };
        let fresh = kernel(alloc).expect(&rt, "a kernel");
        let account = beside(&rt, alloc, fresh, &two, None, &gate, &hands, 2, threads);
        assert!(rt; account.is_ok());
        assert_eq!(rt; gate.published.told(), [101, 10, 0]);
        assert_eq!(rt; gate.taken.told(), [10, 101, 0]);
    }
}

// A gate of one leader and one follower. It holds the follower once it has taken the first event, until the leader has come as
// far as it may and for some time more, and keeps how far the leader was ahead at most: the events that it had published less those
// that the follower had told as taken.
#[derive(Drop)]
struct Holding {
    places: u64,
    begun: AtomicU64,
    taken: AtomicU64,
    ahead: AtomicU64,
}

impl Holding {
    // Until the leader has begun more events than these, for so long at most.
    fn wait(&self, events: u64, yields: u32) {
        for _ in 0..yields {
            if self.begun.load(Ordering::SeqCst) > events {
                return;
            }
            yield_now();
        }
    }
}

impl Gate for Holding {
    fn before_publish(&self, _version: VersionNumber, stamp: u32) {
        let taken = self.taken.load(Ordering::SeqCst);
        let ahead = u64::from(stamp).saturating_sub(taken);
        self.ahead.fetch_max(ahead, Ordering::SeqCst);
        self.begun.fetch_add(1, Ordering::SeqCst);
    }

    fn after_take(&self, _version: VersionNumber, stamp: u32) {
        if stamp == 0 {
            self.wait(self.places, 10_000_000);
            self.wait(self.places.saturating_add(1), 20_000);
        }
        self.taken.fetch_add(1, Ordering::SeqCst);
    }
}

// While the follower is held with one event taken, the leader publishes as many after it as there are places, and no more.
fn leader_is_bounded<R: Threads + Wait + Sync + Abort>(rt: &R, alloc: Global, places: u32)
    requires { (2 ≤ places) × (places ≤ 1024) }
{
    let texts = [
        program(alloc, 40, EXITS).expect(rt, "memory"),
        program(alloc, 40, EXITS).expect(rt, "memory"),
    ];
    let hands = Vec::new(alloc);
    let gate = Holding {
        places: u64::from(places),
        begun: AtomicU64::new(0),
        taken: AtomicU64::new(0),
        ahead: AtomicU64::new(0),
    };
    let fresh = kernel(alloc).expect(rt, "a kernel");
    let account = beside(rt, alloc, fresh, &texts, None, &gate, &hands, places, 2);
    assert!(rt; account.is_ok());
    assert_eq!(rt; gate.begun.load(Ordering::SeqCst), 41);
    assert_eq!(rt; gate.taken.load(Ordering::SeqCst), 41);
    assert_eq!(rt; gate.ahead.load(Ordering::SeqCst), u64::from(places));
}

#[test]
fn ring_bounds_the_leader(rt: HostRuntime) {
    leader_is_bounded(&rt, rt.alloc(), 2);
    leader_is_bounded(&rt, rt.alloc(), 16);
}
