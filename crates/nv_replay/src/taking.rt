// The result that an event gives to a call that isn't its own.
ghost use Rattle.std.specs.Prelude.{◌≡◌, ◌≤◌, length};
ghost use Rattle.nv_calls.specs.Calls.{request, entry};
ghost use Rattle.nv_calls.specs.Limits.{MOST_BYTES};
ghost use Rattle.nv_calls.specs.Shapes.{IsShaped};
ghost use Rattle.nv_replay.specs.Taking.{is_alike, is_through, is_writing, fits, all_written, result_by, taken};

use nv_calls::{Call, Event, Syscall, is_of_threads};

fn is_alike(call: &Call, other: &Call) -> bool
    ensures { result ≡ is_alike (request call.now) (request other.now) }
{
    call.tid == other.tid && call.nr == other.nr && call.bad == other.bad && !is_of_threads(call.nr)
}

fn is_through(syscall: Syscall) -> bool
    ensures { result ≡ is_through syscall }
{
    match syscall {
        Syscall::Llseek | Syscall::Read | Syscall::Write | Syscall::Readv | Syscall::Writev => true,
        _ => false,
    }
}

fn is_writing(syscall: Syscall) -> bool
    ensures { result ≡ is_writing syscall }
{
    match syscall {
        Syscall::Write | Syscall::Writev => true,
        _ => false,
    }
}

fn fits(syscall: Syscall, call: &Call, event: &Event) -> bool
    ensures { result ≡ fits syscall (request call.now) (entry event.now) }
{
    (!is_through(syscall) || call.args[0] == event.call.args[0])
        && event.reply.payload.as_slice().len() <= syscall.most_out(&call.args) as usize
}

fn all_written(call: &Call, event: &Event) -> Option<i32>
    requires { length call.now.payload.bytes ≤ MOST_BYTES }
    ensures { result ≡ all_written (request call.now) (entry event.now) event.now.reply.ret }
{
    let ret = event.reply.ret;
    if ret < 0 {
        return Some(ret);
    }
    if ret.cast_unsigned() as usize != event.call.payload.as_slice().len() {
        return None;
    }
    Some(call.payload.as_slice().len() as i32)
}

/// The result that the call has by the event, where it may take it.
#[tactic(auto, unfolding(crate::specs::Taking::taken))]
pub fn taken(call: &Call, event: &Event) -> Option<i32>
    requires { IsShaped (request call.now) }
    ensures { result ≡ taken (request call.now) (entry event.now) }
{
    let syscall = Syscall::of(call.nr);
    if !is_alike(call, &event.call) || !fits(syscall, call, event) {
        return None;
    }
    if is_writing(syscall) {
        return all_written(call, event);
    }
    Some(event.reply.ret)
}
