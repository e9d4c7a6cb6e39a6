// Whether a kernel answers as a trace says.
ghost use Rattle.std.specs.Prelude.{◌≡◌, ◌<◌, ◌≤◌, ◌⊎◌, ◌++◌, [], ◌∷◌, List, Some, None, IfErr, OnOk, MatchResult, length, map};
ghost use Rattle.nv_calls.specs.Calls.{Entry, entry, response};
ghost use Rattle.nv_calls.specs.Logs.{live_after};
ghost use Rattle.nv_calls.specs.Limits.{MOST_EVENTS};
ghost use Rattle.nv_trace.specs.Checks.{AreStamped, AreSoundEvents, is_reply, entry_fault, left_at, StopsFor};
ghost use Rattle.nv_trace.specs.declared.fault.CheckFault.TheVariants.{Memory};

use crate::CheckFault;
use crate::live::{first_thread, lives, note};
use arrayvec::ArrayVec;
use nv_calls::{Event, MOST_THREADS, Recorded, Reply, Scripted, SyscallKernel, shaped};

fn is_reply(reply: &Reply, other: &Reply) -> bool
    ensures { result ≡ is_reply (response reply.now) (response other.now) }
{
    reply.ret == other.ret && reply.payload.as_slice() == other.payload.as_slice()
}

// Whether the last call of a history got this reply.
fn has_got(history: &[Event], reply: &Reply) -> bool
    ensures { (log : List Entry) (e : Entry) → map entry history.now ≡ log ++ e ∷ [] → result ≡ is_reply e.reply (response reply.now) }
{
    match history.last() {
        Some(event) => is_reply(&event.reply, reply),
        None => false,
    }
}

// Serves the call of the next event, unless the event has a fault before.
fn play<K: SyscallKernel + Recorded + Scripted>(
    kernel: &mut K,
    live: &mut ArrayVec<u32, MOST_THREADS>,
    event: &Event,
) -> Result<(), CheckFault>
    requires live { live.old.items ≡ live_after (K.log kernel.old) }
    requires few { length (K.log kernel.old) < MOST_EVENTS }
    requires stamp { event.now.stamp ≡ length (K.log kernel.old) }
    ensures start { K.start kernel.new ≡ K.start kernel.old }
    ensures known { K.known kernel.new ≡ K.known kernel.old }
    ensures fault { MatchResult result (λ _. entry_fault (K.known kernel.old) (K.log kernel.old) (entry event.now) ≡ None)
        (λ fault. (fault ≡ Memory) ⊎ (entry_fault (K.known kernel.old) (K.log kernel.old) (entry event.now) ≡ Some fault)) }
    ensures comes { OnOk result (K.log kernel.new ≡ K.log kernel.old ++ entry event.now ∷ []) }
    ensures live { OnOk result (live.new.items ≡ live_after (K.log kernel.new)) }
    ensures left { IfErr result (λ fault. K.log kernel.new ≡ left_at (K.known kernel.old) (K.log kernel.old) (entry event.now) fault) }
{
    let stamp = event.stamp;
    if kernel.ended().is_some() {
        return Err(CheckFault::Ended(stamp));
    }
    if !shaped(&event.call) {
        return Err(CheckFault::Shape(stamp));
    }
    if !lives(live.as_slice(), event.call.tid) {
        return Err(CheckFault::Thread(stamp));
    }
    kernel.reserve(&event.call)?;
    kernel.serve(&event.call);
    if !has_got(kernel.history(), &event.reply) {
        return Err(CheckFault::Reply(stamp));
    }
    note(live, event);
    Ok(())
}

/// Has the kernel serve the calls of the events, up to the first event that it doesn't come to.
pub fn check<K: SyscallKernel + Recorded + Scripted>(
    kernel: &mut K,
    events: &[Event],
) -> Result<(), CheckFault>
    requires empty { K.log kernel.old ≡ [] }
    requires few { length events.now ≤ MOST_EVENTS }
    requires stamped { AreStamped (map entry events.now) }
    ensures start { K.start kernel.new ≡ K.start kernel.old }

    // the events are what the kernel comes to, and it has served them all
    ensures sound { OnOk result (AreSoundEvents (K.known kernel.old) (map entry events.now)) }
    ensures served { OnOk result (K.log kernel.new ≡ map entry events.now) }

    // they aren't, and this is the first fault; or memory is wanted
    ensures stops { IfErr result (λ fault. StopsFor (K.known kernel.old) (map entry events.now) fault (K.log kernel.new)) }
{
    let mut live = first_thread();
    for event in events {
        match play(kernel, &mut live, event) {
            Ok(()) => {}
            Err(fault) => return Err(fault),
        }
    }
    Ok(())
}
