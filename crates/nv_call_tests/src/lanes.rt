use nv_calls::{CLONE, EXIT};
use nv_room::Lanes;

const GETUID: u32 = 174;

#[test]
fn lanes_of_threads(rt: HostRuntime) {
    let mut lanes = Lanes::start();
    assert_eq!(rt; lanes.lane_of(100), 0);
    assert_eq!(rt; lanes.lane_of(101), 0);
    assert!(rt; lanes.lives(0) && !lanes.lives(1));
    lanes.note_call(100, CLONE, 101);
    lanes.note_call(100, CLONE, 102);
    lanes.note_call(102, CLONE, -11);
    assert_eq!(rt; lanes.lane_of(101), 1);
    assert_eq!(rt; lanes.lane_of(102), 2);
    assert!(rt; lanes.lives(2) && !lanes.lives(3));
    assert_eq!(rt; lanes.next(0), 2);
    assert_eq!(rt; lanes.next(1), 0);
    assert_eq!(rt; lanes.next(2), 1);
    lanes.note_call(101, EXIT, 0);
    assert_eq!(rt; lanes.next(1), 1);
    assert!(rt; !lanes.lives(1));
    lanes.note_call(102, CLONE, 103);
    assert_eq!(rt; lanes.lane_of(103), 1);
    lanes.note_call(103, GETUID, 1000);
    assert_eq!(rt; lanes.next(1), 2);
}

// Lane 0 is free when thread 100 has gone, and counts as one that lives.
#[test]
fn first_lane_is_taken_again(rt: HostRuntime) {
    let mut lanes = Lanes::start();
    lanes.note_call(100, CLONE, 101);
    lanes.note_call(100, EXIT, 0);
    assert!(rt; lanes.lives(0));
    assert_eq!(rt; lanes.lane_of(101), 1);
    lanes.note_call(101, CLONE, 102);
    assert_eq!(rt; lanes.lane_of(102), 0);
    assert_eq!(rt; lanes.next(0), 2);
}
