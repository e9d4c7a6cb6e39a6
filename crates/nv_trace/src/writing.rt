// The writer of traces.
ghost use Rattle.std.specs.Prelude.{◌++◌, map};
ghost use Rattle.std.specs.List.{flat_map};
ghost use Rattle.nv_outside.specs.Sink.{Puts};
ghost use Rattle.nv_calls.specs.Calls.{entry};
ghost use Rattle.nv_calls.specs.Logs.{InRange};
ghost use Rattle.nv_trace.specs.Trace.{AreRecordable, IsRecordable, number_bytes, event_bytes, head_bytes, trace_of};

use crate::fields::fields_of;
use nv_calls::Event;
use nv_outside::{Put, Sink, put_all};

// Each number in four bytes.
#[tactic(auto, unfolding(crate::specs::Trace::number_bytes))]
fn put_numbers<S: Sink>(sink: &mut S, values: &[u32]) -> Put
    ensures { Puts (S.told sink.old) (S.faults sink.old) (number_bytes values.now) result (S.told sink.new) (S.faults sink.new) }
{
    for value in values {
        put_all(sink, &value.to_le_bytes())?;
    }
    Ok(())
}

fn put_payloads<S: Sink>(sink: &mut S, event: &Event) -> Put
    ensures { let e = entry event.now in
        Puts (S.told sink.old) (S.faults sink.old) (e.call.payload ++ e.reply.payload) result (S.told sink.new) (S.faults sink.new) }
{
    put_all(sink, event.call.payload.as_slice())?;
    put_all(sink, event.reply.payload.as_slice())
}

fn put_event<S: Sink>(sink: &mut S, event: &Event) -> Put
    requires { InRange (entry event.now) }
    ensures { Puts (S.told sink.old) (S.faults sink.old) (event_bytes (entry event.now)) result (S.told sink.new) (S.faults sink.new) }
{
    put_numbers(sink, &fields_of(event))?;
    put_payloads(sink, event)
}

fn put_events<S: Sink>(sink: &mut S, log: &[Event]) -> Put
    requires { AreRecordable 0 (map entry log.now) }
    ensures { Puts (S.told sink.old) (S.faults sink.old) (flat_map (λ event. event_bytes (entry event)) log.now) result (S.told sink.new) (S.faults sink.new) }
{
    for event in log {
        put_event(sink, event)?;
    }
    Ok(())
}

fn put_head<S: Sink>(sink: &mut S, count: u32) -> Put
    ensures { Puts (S.told sink.old) (S.faults sink.old) (head_bytes count) result (S.told sink.new) (S.faults sink.new) }
{
    put_all(sink, b"VARANTR1")?;
    put_numbers(sink, &[count])
}

/// Writes the trace of a log. It takes no memory.
pub fn write<S: Sink>(sink: &mut S, log: &[Event]) -> Put
    requires { IsRecordable (map entry log.now) }
    ensures { Puts (S.told sink.old) (S.faults sink.old) (trace_of (map entry log.now)) result (S.told sink.new) (S.faults sink.new) }
{
    put_head(sink, log.len() as u32)?;
    put_events(sink, log)
}
