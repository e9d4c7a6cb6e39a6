// An event and a version in the JSON form.
ghost use Rattle.std.specs.Prelude.{◌≡◌, None, Some, IfOk};
ghost use Rattle.serde_json.specs.Data.{object};
ghost use Rattle.serde_json.specs.View.{view};
ghost use Rattle.nv_calls.specs.Calls.{entry};
ghost use Rattle.nv_replay.specs.Version.{standing_of};
ghost use Rattle.nv_report.specs.Json.{list_value, event_value, led_value, version_members, version_value};

use crate::values::{numbers, payload_value, spans, word_json};
use crate::versions::name_of;
use nv_calls::Event;
use nv_replay::{Fate, Standing, Version};
use nv_threads::FaultKind;
use serde_json::{Value, json};
use std::alloc::{AllocError, Global};

fn event_value(alloc: Global, event: &Event) -> Result<Value, AllocError>
    ensures { IfOk result (λ value. view value ≡ event_value (entry event.now)) }
{
    let args = numbers(alloc, &event.call.args)?;
    let call = event.call.payload.as_slice();
    let payload = payload_value(alloc, call, event.reply.payload.as_slice())?;
    json!(in alloc; {
        "args": args,
        "nr": event.call.nr,
        "payload": payload,
        "ret": event.reply.ret,
        "stamp": event.stamp,
        "tid": event.call.tid
    })
}

// Each event of the log.
pub fn events(alloc: Global, log: &[Event]) -> Result<Value, AllocError>
    ensures { IfOk result (λ value. view value ≡ list_value (λ event. event_value (entry event)) log.now) }
{
    let mut items = Vec::new(alloc);
    for event in log {
        items.push(event_value(alloc, event)?)?;
    }
    Ok(Value::Array(items))
}

fn led_value(alloc: Global, standing: &Standing) -> Result<Value, AllocError>
    ensures { IfOk result (λ value. view value ≡ led_value standing.now) }
{
    spans(alloc, standing.led.as_slice())
}

// A version that has no fate.
fn going_on(alloc: Global, standing: &Standing) -> Result<Value, AllocError>
    ensures { IfOk result (λ value. view value ≡ object (version_members None standing.now)) }
{
    let led = led_value(alloc, standing)?;
    json!(in alloc; {"led": led, "rewrites": standing.rewrites, "seen": standing.seen})
}

fn exited(alloc: Global, code: u8, standing: &Standing) -> Result<Value, AllocError>
    ensures { IfOk result (λ value. view value ≡ object (version_members (Some (Fate.Exited code)) standing.now)) }
{
    let led = led_value(alloc, standing)?;
    json!(in alloc; {
        "code": code,
        "fate": "exited",
        "led": led,
        "rewrites": standing.rewrites,
        "seen": standing.seen
    })
}

fn faulted(
    alloc: Global,
    kind: FaultKind,
    tid: u32,
    pc: u32,
    standing: &Standing,
) -> Result<Value, AllocError>
    ensures { IfOk result (λ value. view value ≡ object (version_members (Some (Fate.Fault kind tid pc)) standing.now)) }
{
    let led = led_value(alloc, standing)?;
    let pc = word_json(alloc, pc)?;
    json!(in alloc; {
        "fate": "fault",
        "kind": name_of(kind),
        "led": led,
        "pc": pc,
        "rewrites": standing.rewrites,
        "seen": standing.seen,
        "tid": tid
    })
}

fn refused(
    alloc: Global,
    tid: u32,
    nr: u32,
    stamp: u32,
    verdict: u32,
    standing: &Standing,
) -> Result<Value, AllocError>
    ensures { IfOk result (λ value. view value ≡ object (version_members (Some (Fate.Refused tid nr stamp verdict)) standing.now)) }
{
    let led = led_value(alloc, standing)?;
    let verdict = word_json(alloc, verdict)?;
    json!(in alloc; {
        "fate": "refused",
        "led": led,
        "nr": nr,
        "rewrites": standing.rewrites,
        "seen": standing.seen,
        "stamp": stamp,
        "tid": tid,
        "verdict": verdict
    })
}

fn starved(alloc: Global, standing: &Standing) -> Result<Value, AllocError>
    ensures { IfOk result (λ value. view value ≡ object (version_members (Some Fate.Memory) standing.now)) }
{
    let led = led_value(alloc, standing)?;
    json!(in alloc; {
        "fate": "memory",
        "led": led,
        "rewrites": standing.rewrites,
        "seen": standing.seen
    })
}

fn let_go(alloc: Global, standing: &Standing) -> Result<Value, AllocError>
    ensures { IfOk result (λ value. view value ≡ object (version_members (Some Fate.LetGo) standing.now)) }
{
    let led = led_value(alloc, standing)?;
    json!(in alloc; {
        "fate": "left",
        "led": led,
        "rewrites": standing.rewrites,
        "seen": standing.seen
    })
}

fn version_value(alloc: Global, standing: &Standing) -> Result<Value, AllocError>
    ensures { IfOk result (λ value. view value ≡ version_value standing.now) }
{
    match standing.fate {
        None => going_on(alloc, standing),
        Some(Fate::Exited(code)) => exited(alloc, code, standing),
        Some(Fate::Fault { kind, tid, pc }) => faulted(alloc, kind, tid, pc, standing),
        Some(
            Fate::Refused {
                tid,
                nr,
                stamp,
                verdict,
            },
        ) => refused(alloc, tid, nr, stamp, verdict, standing),
        Some(Fate::Memory) => starved(alloc, standing),
        Some(Fate::LetGo) => let_go(alloc, standing),
    }
}

// Each version.
pub fn versions(alloc: Global, versions: &[Version]) -> Result<Value, AllocError>
    ensures { IfOk result (λ value. view value ≡ list_value (λ version. version_value (standing_of version)) versions.now) }
{
    let mut items = Vec::new(alloc);
    for version in versions {
        items.push(version_value(alloc, version.standing())?)?;
    }
    Ok(Value::Array(items))
}
