ghost use Rattle.std.specs.Prelude.{◌<◌, ◌≤◌};
ghost use Rattle.nv_room_tests.specs.Scripts.{AreCalls};

use crate::{
    Script, change_leader, clone, exit_group, getuid, hand_over, kernel, of_thread, run, write,
};
use std::alloc::Global;
use std::process::Abort;
use std::thread::Threads;

// Each reader has all events of the script.
fn all_see<R: Threads + Sync + Abort>(
    rt: &R,
    alloc: Global,
    script: &Script,
    versions: u32,
    places: u32,
)
    requires versions { (0 < versions) × (versions ≤ 8) }
    requires places { (2 ≤ places) × (places ≤ 1024) }
    requires calls { AreCalls script.now }
{
    let kernel = kernel(alloc).expect(rt, "memory");
    let ended = run(rt, alloc, kernel, script, versions, places).expect(rt, "memory");
    assert_eq!(rt; ended.seen.len(), versions as usize);
    for seen in ended.seen.iter() {
        assert_eq!(rt; *seen, script.events);
    }
}

// 99 getuid calls and exit_group.
fn asking<R: Abort>(rt: &R, alloc: Global) -> Script
    ensures { AreCalls result }
{
    Script {
        opening: getuid(alloc).expect(rt, "memory"),
        first: getuid(alloc).expect(rt, "memory"),
        second: getuid(alloc).expect(rt, "memory"),
        last: exit_group(alloc).expect(rt, "memory"),
        events: 100,
        each: 100,
        most: 10_000_000,
    }
}

// 49 writes of 4,096 bytes and exit_group: the payloads go round the pool, which has room for one and a half in a room of two places.
fn writing<R: Abort>(rt: &R, alloc: Global) -> Script
    ensures { AreCalls result }
{
    Script {
        opening: write(alloc, 4096).expect(rt, "memory"),
        first: write(alloc, 4096).expect(rt, "memory"),
        second: write(alloc, 4096).expect(rt, "memory"),
        last: exit_group(alloc).expect(rt, "memory"),
        events: 50,
        each: 50,
        most: 10_000_000,
    }
}

// Thread 100 makes thread 101, their calls alternate 50 times, and exit_group ends both.
fn alternating<R: Abort>(rt: &R, alloc: Global) -> Script
    ensures { AreCalls result }
{
    Script {
        opening: clone(alloc).expect(rt, "memory"),
        first: getuid(alloc).expect(rt, "memory"),
        second: of_thread(getuid(alloc).expect(rt, "memory"), 101),
        last: exit_group(alloc).expect(rt, "memory"),
        events: 102,
        each: 102,
        most: 10_000_000,
    }
}

#[test]
fn one_to_seven_readers(rt: HostRuntime) {
    let script = asking(&rt, rt.alloc());
    for versions in 2..=8 {
        all_see(&rt, rt.alloc(), &script, versions, 2);
        all_see(&rt, rt.alloc(), &script, versions, 1024);
    }
}

#[test]
fn largest_payloads(rt: HostRuntime) {
    let script = writing(&rt, rt.alloc());
    all_see(&rt, rt.alloc(), &script, 2, 2);
    all_see(&rt, rt.alloc(), &script, 4, 2);
    all_see(&rt, rt.alloc(), &script, 4, 1024);
}

#[test]
fn two_threads(rt: HostRuntime) {
    let script = alternating(&rt, rt.alloc());
    all_see(&rt, rt.alloc(), &script, 2, 2);
    all_see(&rt, rt.alloc(), &script, 3, 2);
    all_see(&rt, rt.alloc(), &script, 4, 16);
}

// Version 0 retires after three events, version 1 takes the lead and closes after five, and version 2 reads all.
#[test]
fn promote(rt: HostRuntime) {
    let alloc = rt.alloc();
    let call = getuid(alloc).expect(&rt, "memory");
    let last = exit_group(alloc).expect(&rt, "memory");
    let kernel = kernel(alloc).expect(&rt, "memory");
    let ended = change_leader(alloc, kernel, &call, &last).expect(&rt, "memory");
    match ended {
        Some(ended) => assert_eq!(rt; ended.seen.as_slice(), [3, 5, 5].as_slice()),
        None => assert!(rt; false),
    }
}

// Version 0 leads one event, hands over and reads on; version 1 leads the other two, of which the last is exit_group.
#[test]
fn hands_over_at_a_planned_length(rt: HostRuntime) {
    let alloc = rt.alloc();
    let call = getuid(alloc).expect(&rt, "memory");
    let last = exit_group(alloc).expect(&rt, "memory");
    let kernel = kernel(alloc).expect(&rt, "memory");
    let ended = hand_over(alloc, kernel, &call, &last).expect(&rt, "memory");
    match ended {
        Some(ended) => assert_eq!(rt; ended.seen.as_slice(), [3, 3].as_slice()),
        None => assert!(rt; false),
    }
}

// Eight versions over four places: each leads for three events and retires, and the last closes after exit_group.
#[test]
fn each_leads_in_its_turn(rt: HostRuntime) {
    let alloc = rt.alloc();
    let asking = asking(&rt, alloc);
    let script = Script {
        events: 25,
        each: 3,
        ..asking
    };
    let kernel = kernel(alloc).expect(&rt, "memory");
    let ended = run(&rt, alloc, kernel, &script, 8, 4).expect(&rt, "memory");
    assert_eq!(rt;
        ended.seen.as_slice(),
        [3, 6, 9, 12, 15, 18, 21, 25].as_slice()
    );
}
