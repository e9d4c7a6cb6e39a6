// An event whose memory is taken before its call is served.
ghost use Rattle.std.specs.Prelude.{◌≡◌, ◌+◌, ◌≤◌, ◌<◌, ◌^◌, ℕ, [], ◌∷◌, ◌++◌, length, Some, IfOk, vec_len, vec_capacity};
ghost use mathlib.Core.Option.{some};
ghost use lib.ListN.{get_elem?};
ghost use Rattle.nv_calls.specs.Calls.{request, entry};
ghost use Rattle.nv_calls.specs.Logs.{InRange};
ghost use Rattle.nv_calls.specs.Limits.{MOST_BYTES};
ghost use Rattle.nv_kernel.specs.Ends.{end_next};
ghost use Rattle.nv_kernel.specs.Kernel.{CanHold, spare_of};

use nv_calls::{Bytes, Call, Event, Reply, Syscall};
use std::alloc::{AllocError, Global};

/// Memory for the event of a call: its payload, and the most that it hands out.
pub fn blank(alloc: Global, call: &Call) -> Result<Event, AllocError>
    requires { length call.now.payload.bytes ≤ MOST_BYTES }
    ensures { IfOk result (λ e. CanHold (Some (spare_of e)) (request call.now)) }
{
    let handed_in = Bytes::make(alloc, call.payload.as_slice().len() as u32)?;
    let handed_out = Bytes::make(alloc, Syscall::of(call.nr).most_out(&call.args))?;
    Ok(Event {
        stamp: 0,
        call: Call {
            tid: 0,
            nr: 0,
            args: [0; 6],
            bad: false,
            payload: handed_in,
        },
        reply: Reply {
            ret: 0,
            payload: handed_out,
        },
    })
}

/// The event of this call with this result, and the bytes that are handed out.
pub fn fill(event: &mut Event, call: &Call, stamp: u32, ret: i32, out: &Bytes)
    requires handed_in { length call.now.payload.bytes ≤ event.old.call.payload.capacity }
    requires handed_out { length out.now.bytes ≤ event.old.reply.payload.capacity }
    requires few { length call.now.payload.bytes + length out.now.bytes ≤ MOST_BYTES }
    ensures entry { entry event.new ≡ record { stamp = stamp; call = request call.now; reply = record { ret = ret; payload = out.now.bytes } } }
    ensures range { InRange (entry event.new) }
{
    tell_ranges(call.tid, call.nr, call.args);
    event.stamp = stamp;
    event.call.tid = call.tid;
    event.call.nr = call.nr;
    event.call.args = call.args;
    event.call.bad = call.bad;
    event.call.payload.set(call.payload.as_slice());
    event.reply.ret = ret;
    event.reply.payload.set(out.as_slice());
}

/// Numbers that are passed by value are known to be in their ranges.
fn tell_ranges(tid: u32, nr: u32, args: [u32; 6])
    ensures tid { tid < 2 ^ 32 }
    ensures nr { nr < 2 ^ 32 }
    ensures six { length args ≡ 6 }
    ensures args { (i x : ℕ) → get_elem? args i ≡ some x → x < 2 ^ 32 }
{
    let _numbers = (tid, nr);
    let _args = [args[0], args[1], args[2], args[3], args[4], args[5]];
}

/// The exit status after this call, where no thread lives.
pub fn next_end(over: bool, call: &Call) -> Option<u8>
    ensures { result ≡ end_next over (request call.now) }
{
    if over { Some(call.status()) } else { None }
}

/// One more event, for which memory is reserved.
pub fn keep(log: &mut Vec<Event>, event: Event)
    requires { vec_len log.old < vec_capacity log.old }
    ensures { log.new.items ≡ log.old.items ++ event ∷ [] }
{
    match log.push(event) {
        Ok(()) => {}
        Err(_) => unreachable!(),
    }
}
