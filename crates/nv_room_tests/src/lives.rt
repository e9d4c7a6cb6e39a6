//! Which threads live after a history.
ghost use Rattle.std.specs.Prelude.{◌≡◌, map, Contains, IsTrue, ◌||◌};
ghost use Rattle.std.specs.Bool.{OnTrue};
ghost use Rattle.nv_calls.specs.Calls.{entry};
ghost use Rattle.nv_calls.specs.Logs.{live_after, child_of};
ghost use Rattle.nv_room.specs.Lanes.{is_of};

use nv_calls::{EXIT, EXIT_GROUP, Event, FIRST_THREAD, made};

// No thread has ended.
pub(crate) fn goes_on(history: &[Event]) -> bool
    ensures { OnTrue result (Contains (live_after (map entry history.now)) FIRST_THREAD) }
{
    for event in history {
        if event.call.nr == EXIT || event.call.nr == EXIT_GROUP {
            return false;
        }
    }
    true
}

// Whether the thread, the first or another, may make a call.
pub(crate) fn can_call(history: &[Event], tid: u32) -> bool
    requires { Contains (live_after (map entry history.now)) FIRST_THREAD }
    ensures { IsTrue result → Contains (live_after (map entry history.now)) tid }
{
    tid == FIRST_THREAD || lives_after(history, tid)
}

// Whether the thread is the first or was made, and no thread has ended.
fn lives_after(history: &[Event], tid: u32) -> bool
    ensures { IsTrue result → Contains (live_after (map entry history.now)) tid }
{
    let mut lives = tid == FIRST_THREAD;
    for event in history {
        if event.call.nr == EXIT || event.call.nr == EXIT_GROUP {
            return false;
        }
        lives = lives_on(lives, event, tid);
    }
    lives
}

// The event made the thread, or it lives already.
fn lives_on(lives: bool, event: &Event, tid: u32) -> bool
    ensures { result ≡ (lives || is_of tid (child_of (entry event.now))) }
{
    lives || is_of(made(event.call.nr, event.reply.ret), tid)
}

fn is_of(child: Option<u32>, tid: u32) -> bool
    ensures { result ≡ is_of tid child }
{
    match child {
        Some(other) => other == tid,
        None => false,
    }
}
