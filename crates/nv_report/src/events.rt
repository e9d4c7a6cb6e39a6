// The log.
ghost use Rattle.std.specs.Prelude.{◌≡◌, ◌++◌, codes};
ghost use Rattle.std.specs.List.{flat_map};
ghost use Rattle.nv_outside.specs.Sink.{Puts};
ghost use Rattle.nv_calls.specs.Calls.{entry};
ghost use Rattle.nv_bytes.specs.Numbers.{hex_of};
ghost use Rattle.nv_report.specs.Events.{call_text, result_text, payload_text, event_text};

use crate::numbers::{put_hex, put_numbers};
use itoa::Buffer;
use nv_calls::{Event, Reply};
use nv_outside::{Put, Sink, put_all, put_pieces};

// Each event on a line.
pub fn put_events<S: Sink>(sink: &mut S, log: &[Event]) -> Put
    ensures { Puts (S.told sink.old) (S.faults sink.old) (flat_map (λ event. event_text (entry event)) log.now) result (S.told sink.new) (S.faults sink.new) }
{
    for event in log {
        put_event(sink, event)?;
    }
    Ok(())
}

/// Writes an event as a line of the log.
pub fn put_event<S: Sink>(sink: &mut S, event: &Event) -> Put
    ensures { Puts (S.told sink.old) (S.faults sink.old) (event_text (entry event.now)) result (S.told sink.new) (S.faults sink.new) }
{
    put_call(sink, event)?;
    put_result(sink, &event.reply)?;
    put_end(
        sink,
        event.call.payload.as_slice(),
        event.reply.payload.as_slice(),
    )
}

// Stamp, thread, number and arguments.
fn put_call<S: Sink>(sink: &mut S, event: &Event) -> Put
    ensures { Puts (S.told sink.old) (S.faults sink.old) (call_text (entry event.now)) result (S.told sink.new) (S.faults sink.new) }
{
    put_numbers(sink, &[event.stamp, event.call.tid, event.call.nr])?;
    put_numbers(sink, &event.call.args)
}

fn put_result<S: Sink>(sink: &mut S, reply: &Reply) -> Put
    ensures { Puts (S.told sink.old) (S.faults sink.old) (result_text reply.now.ret) result (S.told sink.new) (S.faults sink.new) }
{
    let mut buffer = Buffer::new();
    put_pieces(sink, &[b"= ", buffer.format(reply.ret).as_bytes(), b" :"])
}

fn put_end<S: Sink>(sink: &mut S, call: &[u8], reply: &[u8]) -> Put
    ensures { Puts (S.told sink.old) (S.faults sink.old) (payload_text call.now reply.now ++ codes "\n") result (S.told sink.new) (S.faults sink.new) }
{
    put_payload(sink, call, reply)?;
    put_all(sink, b"\n")
}

// The bytes of a call and of its reply, after a space where there are any.
fn put_payload<S: Sink>(sink: &mut S, call: &[u8], reply: &[u8]) -> Put
    ensures { Puts (S.told sink.old) (S.faults sink.old) (payload_text call.now reply.now) result (S.told sink.new) (S.faults sink.new) }
{
    if call.is_empty() && reply.is_empty() {
        Ok(())
    } else {
        put_bytes(sink, call, reply)
    }
}

// A space, and the bytes of a call and of its reply.
fn put_bytes<S: Sink>(sink: &mut S, call: &[u8], reply: &[u8]) -> Put
    ensures { Puts (S.told sink.old) (S.faults sink.old) (codes " " ++ (hex_of call.now ++ hex_of reply.now)) result (S.told sink.new) (S.faults sink.new) }
{
    put_all(sink, b" ")?;
    put_hex(sink, call)?;
    put_hex(sink, reply)
}
