// The threads that live after the events of a log.
ghost use Rattle.std.specs.Prelude.{◌≡◌, ◌≤◌, [], length, filter, ◌==◌, not};
ghost use Rattle.nv_calls.specs.Calls.{entry};
ghost use Rattle.nv_calls.specs.Logs.{IsNew, child_of, live_after, live_next};
ghost use Rattle.nv_trace.specs.Checks.{is_live};

use arrayvec::ArrayVec;
use nv_calls::{EXIT, EXIT_GROUP, Event, FIRST_THREAD, MOST_THREADS, made};

/// The first thread alone.
pub fn first_thread() -> ArrayVec<u32, MOST_THREADS>
    ensures { result.items ≡ live_after [] }
{
    let mut live = ArrayVec::new();
    live.push(FIRST_THREAD);
    live
}

/// Whether the thread lives.
pub fn lives(live: &[u32], tid: u32) -> bool
    ensures { result ≡ is_live live.now tid }
{
    live.contains(&tid)
}

// The threads without one of them.
fn others(live: &[u32], tid: u32) -> ArrayVec<u32, MOST_THREADS>
    requires { length live.now ≤ 8 }
    ensures { result.items ≡ filter (λ t. not (t == tid)) live.now }
{
    let mut rest = ArrayVec::new();
    for i in 0..live.len() {
        if live[i] == tid {
            continue;
        }
        rest.push(live[i]);
    }
    rest
}

/// The threads that live after one more event.
pub fn note(live: &mut ArrayVec<u32, MOST_THREADS>, event: &Event)
    requires { IsNew live.old.items (child_of (entry event.now)) }
    ensures { live.new.items ≡ live_next live.old.items (entry event.now) }
{
    let nr = event.call.nr;
    if nr == EXIT_GROUP {
        live.clear();
        return;
    }
    if nr == EXIT {
        *live = others(live, event.call.tid);
        return;
    }
    if let Some(child) = made(nr, event.reply.ret) {
        live.push(child);
    }
}
