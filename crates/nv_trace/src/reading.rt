// The reader of traces.
ghost use Rattle.std.specs.Prelude.{◌≡◌, ◌+◌, ◌≤◌, ◌⊎◌, Some, None, IfOk, IfErr, MatchResult, length, drop, map};
ghost use Rattle.nv_calls.specs.Calls.{entry, request, response};
ghost use Rattle.nv_calls.specs.Limits.{MOST_BYTES};
ghost use Rattle.nv_trace.specs.Trace.{IsRead};
ghost use Rattle.nv_trace.specs.Held.{count_in, sent_in, came_in, size_in, request_in, response_in, entry_in, entries_in};
ghost use Rattle.nv_trace.specs.Faults.{has_head, head_fault, event_fault, events_fault, IsFirstFault};
ghost use Rattle.nv_trace.specs.declared.fault.TraceFault.TheVariants.{Memory};

use crate::TraceFault;
use crate::fields::FIELDS;
use nv_bytes::u32_at;
use nv_calls::{Bytes, Call, Event, MOST_BYTES, Reply};
use std::alloc::{AllocError, Global};

/// How many bytes stand before the first event.
const HEAD: usize = 12;

/// How many entries of a log a trace has at most.
const MOST_TRACED: u32 = 131_072;

fn has_head(bytes: &[u8]) -> bool
    ensures { result ≡ has_head bytes.now }
{
    bytes.len() >= HEAD && bytes.starts_with(b"VARANTR1")
}

// How many events the bytes tell.
#[tactic(auto, unfolding(crate::specs::Faults::head_fault))]
fn count_events(bytes: &[u8]) -> Result<u32, TraceFault>
    ensures fault { MatchResult result (λ _. head_fault bytes.now ≡ None) (λ fault. head_fault bytes.now ≡ Some fault) }
    ensures long { IfOk result (λ _. 12 ≤ length bytes.now) }
    ensures count { IfOk result (λ count. count ≡ count_in bytes.now) }
{
    if !has_head(bytes) {
        return Err(TraceFault::Magic);
    }
    let count = u32_at(bytes, 8);
    if count > MOST_TRACED {
        return Err(TraceFault::Count);
    }
    Ok(count)
}

// How many bytes the event in front has.
#[tactic(auto, unfolding(crate::specs::Faults::event_fault))]
fn event_size(bytes: &[u8], place: u32) -> Result<usize, TraceFault>
    ensures fault { MatchResult result (λ _. event_fault place bytes.now ≡ None) (λ fault. event_fault place bytes.now ≡ Some fault) }
    ensures is { IfOk result (λ size. size ≡ size_in bytes.now) }
    ensures inside { IfOk result (λ size. size ≤ length bytes.now) }
    ensures few { IfOk result (λ _. sent_in bytes.now + came_in bytes.now ≤ MOST_BYTES) }
{
    if bytes.len() < FIELDS {
        return Err(TraceFault::Short(place));
    }
    let payload = u32_at(bytes, 40) as usize + u32_at(bytes, 44) as usize;
    if u32_at(bytes, 32) > 1 || payload > MOST_BYTES as usize {
        return Err(TraceFault::Field(place));
    }
    let size = FIELDS + payload;
    if bytes.len() < size {
        return Err(TraceFault::Short(place));
    }
    Ok(size)
}

fn copied(alloc: Global, bytes: &[u8]) -> Result<Bytes, AllocError>
    requires { length bytes.now ≤ MOST_BYTES }
    ensures { IfOk result (λ held. held.bytes ≡ bytes.now) }
{
    let mut held = Bytes::make(alloc, bytes.len() as u32)?;
    held.set(bytes);
    Ok(held)
}

#[tactic(auto, unfolding(crate::specs::Held::request_in))]
fn args(bytes: &[u8]) -> [u32; 6]
    requires { 48 ≤ length bytes.now }
    ensures { result ≡ (request_in bytes.now).args }
{
    [
        u32_at(bytes, 8),
        u32_at(bytes, 12),
        u32_at(bytes, 16),
        u32_at(bytes, 20),
        u32_at(bytes, 24),
        u32_at(bytes, 28),
    ]
}

#[tactic(auto, unfolding(crate::specs::Held::request_in))]
fn read_call(alloc: Global, bytes: &[u8]) -> Result<Call, AllocError>
    requires inside { size_in bytes.now ≤ length bytes.now }
    requires few { sent_in bytes.now + came_in bytes.now ≤ MOST_BYTES }
    ensures { IfOk result (λ call. request call ≡ request_in bytes.now) }
{
    let sent = u32_at(bytes, 40) as usize;
    let payload = copied(alloc, &bytes[FIELDS..FIELDS + sent])?;
    Ok(Call {
        tid: u32_at(bytes, 0),
        nr: u32_at(bytes, 4),
        args: args(bytes),
        bad: u32_at(bytes, 32) == 1,
        payload,
    })
}

#[tactic(auto, unfolding(crate::specs::Held::response_in))]
fn read_reply(alloc: Global, bytes: &[u8]) -> Result<Reply, AllocError>
    requires inside { size_in bytes.now ≤ length bytes.now }
    requires few { sent_in bytes.now + came_in bytes.now ≤ MOST_BYTES }
    ensures { IfOk result (λ reply. response reply ≡ response_in bytes.now) }
{
    let start = FIELDS + u32_at(bytes, 40) as usize;
    let came = u32_at(bytes, 44) as usize;
    let payload = copied(alloc, &bytes[start..start + came])?;
    Ok(Reply {
        ret: u32_at(bytes, 36).cast_signed(),
        payload,
    })
}

// The event in front.
fn read_event(alloc: Global, bytes: &[u8], place: u32) -> Result<Event, AllocError>
    requires inside { size_in bytes.now ≤ length bytes.now }
    requires few { sent_in bytes.now + came_in bytes.now ≤ MOST_BYTES }
    ensures { IfOk result (λ event. entry event ≡ entry_in place bytes.now) }
{
    let call = read_call(alloc, bytes)?;
    let reply = read_reply(alloc, bytes)?;
    Ok(Event {
        stamp: place,
        call,
        reply,
    })
}

// The bytes behind so many.
fn after(bytes: &[u8], count: usize) -> &[u8]
    requires { count ≤ length bytes.now }
    ensures { result.now ≡ drop count bytes.now }
{
    &bytes[count..]
}

// So many events, behind which nothing stands.
fn read_events(alloc: Global, bytes: &[u8], count: u32) -> Result<Vec<Event>, TraceFault>
    ensures fault { MatchResult result (λ _. events_fault count 0 bytes.now ≡ None) (λ fault. (fault ≡ Memory) ⊎ (events_fault count 0 bytes.now ≡ Some fault)) }
    ensures events { IfOk result (λ events. map entry events.items ≡ entries_in count 0 bytes.now) }
{
    let mut events = Vec::new(alloc);
    let mut rest = bytes;
    for place in 0..count {
        let size = event_size(rest, place)?;
        events.push(read_event(alloc, rest, place)?)?;
        rest = after(rest, size);
    }
    if rest.len() > 0 {
        return Err(TraceFault::Extra);
    }
    Ok(events)
}

/// Reads a trace.
pub fn read(alloc: Global, bytes: &[u8]) -> Result<Vec<Event>, TraceFault>
    // the bytes are the trace of these events, and of no others
    ensures log { IfOk result (λ events. IsRead (map entry events.items) bytes.now) }

    // they are no trace, and this is their first fault; want of memory is the one free answer
    ensures fault { IfErr result (λ fault. (fault ≡ Memory) ⊎ IsFirstFault bytes.now fault) }
{
    let count = count_events(bytes)?;
    read_events(alloc, after(bytes, HEAD), count)
}
