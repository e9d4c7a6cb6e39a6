use crate::cases::Case;
use crate::courses::{Course, scheduled};
use crate::runs::{kernel, one_by_one, text_of};
use crate::scheduler::Ending;
use crate::seed::Seed;
use std::alloc::Global;
use std::process::Abort;

const ROOMS: u32 = 1_000;

const SCHEDULES: u32 = 3;

// However its turns are scheduled, the versions of a room come to the account of the plain monitor.
fn comes_to_plain<R: Abort>(rt: &R, alloc: Global, number: u32) {
    let mut seed = Seed::new(number);
    let case = Case::draw(alloc, &mut seed).expect(rt, "memory");
    let count = case.texts.len();
    assert!(rt; 0 < count && count <= 8);
    assert!(rt; case.hands.len() <= 8);
    assert!(rt; 2 <= case.places && case.places <= 1024);
    let fresh = kernel(alloc).expect(rt, "a kernel");
    let plain = one_by_one(
        alloc,
        fresh,
        case.texts.as_slice(),
        case.rules.as_ref(),
        &case.hands,
    );
    let wanted = text_of(rt, alloc, plain);
    for _schedule in 0..SCHEDULES {
        match scheduled(alloc, &case, &mut seed).expect(rt, "memory") {
            Course::Ended(account) => {
                assert_eq!(rt;
                    text_of(rt, alloc, Some(account)).as_slice(),
                    wanted.as_slice(),
                    "room {number}"
                );
            }
            Course::Cut(ending) => assert_eq!(rt; ending, Ending::AllLeft, "room {number}"),
        }
    }
}

#[test]
fn scheduled_runs_come_to_the_plain_account(rt: HostRuntime) {
    let alloc = rt.alloc();
    for number in 0..ROOMS {
        comes_to_plain(&rt, alloc, number);
    }
}
