// The twelve fields of an event.
ghost use Rattle.std.specs.Prelude.{◌≡◌};
ghost use Rattle.std.specs.Int.{w32, cast_unsigned};
ghost use Rattle.nv_calls.specs.Calls.{entry};
ghost use Rattle.nv_calls.specs.Logs.{InRange};
ghost use Rattle.nv_trace.specs.Trace.{bit, fields_of};

use nv_calls::Event;

/// How many bytes the fields of an event have.
pub const FIELDS: usize = 48;

fn bit(bad: bool) -> u32
    ensures { result ≡ bit bad }
{
    if bad { 1 } else { 0 }
}

// The result as its 32 bits. By reference, since a number that is read through one is known to be in range.
fn bits_of(ret: &i32) -> u32
    ensures { result ≡ cast_unsigned w32 ret.now }
{
    let value = *ret;
    value.cast_unsigned()
}

/// The fields of an event, as a trace has them.
pub fn fields_of(event: &Event) -> [u32; 12]
    requires { InRange (entry event.now) }
    ensures { result ≡ fields_of (entry event.now) }
{
    let call = &event.call;
    let sent = call.payload.as_slice().len() as u32;
    let came = event.reply.payload.as_slice().len() as u32;
    [
        call.tid,
        call.nr,
        call.args[0],
        call.args[1],
        call.args[2],
        call.args[3],
        call.args[4],
        call.args[5],
        bit(call.bad),
        bits_of(&event.reply.ret),
        sent,
        came,
    ]
}
