//! A change of leader, step by step: each call's answer is the one that it should be, or there is none.
ghost use Rattle.std.specs.Prelude.{◌≡◌, ◌+◌, ◌<◌, ◌≤◌, [], false, length, map, IfOk, IfSome, Contains};
ghost use Rattle.std.specs.Bool.{OnTrue};
ghost use Rattle.nv_calls.specs.Calls.{request, entry};
ghost use Rattle.nv_calls.specs.Logs.{live_after, IsLegal};
ghost use Rattle.nv_calls.specs.Shapes.{IsShaped};
ghost use Rattle.nv_room.specs.Seats.{IsOfRoom, IsLeadOf, IsLeftOf, FreshReaders, view, due_of, kernel_of, origin, version_of_lead, version_of_left, version_of_reader, versions_of, AskedSoFar};
ghost use Rattle.nv_room_tests.specs.Going.{GoesOn};
ghost use Rattle.nv_room_tests.specs.Backs.{HasReadNothing};

use crate::lives::goes_on;
use crate::running::publish_one;
use nv_calls::{Call, EXIT_GROUP, FIRST_THREAD, Recorded, SyscallKernel};
use nv_lamport::{Polled, poll_merged};
use nv_promotion::{Lower, close, leave, lower_gone, retire, take};
use nv_ring::advance;
use nv_room::{Ended, Lead, Left, Reader, Room};
use nv_words::EventBuf;
use std::alloc::{AllocError, Global};

/// Station 0 publishes three calls and retires, station 1 takes the lead, publishes one more and the last, and closes, and
/// station 2 reads on.
pub fn change_leader<K: SyscallKernel + Recorded>(
    alloc: Global,
    kernel: K,
    call: &Call,
    last: &Call,
) -> Result<Option<Ended<K>>, AllocError>
    requires empty { K.log kernel ≡ [] }
    requires shaped { IsShaped (request call.now) × IsShaped (request last.now) }
    requires first { (call.now.tid ≡ FIRST_THREAD) × (last.now.tid ≡ FIRST_THREAD) }
    requires goes_on { GoesOn (request call.now) }
    requires ends { last.now.nr ≡ EXIT_GROUP }
    ensures { IfOk result (λ o. IfSome o (λ e. IsLegal (K.known e.kernel) (K.log e.kernel))) }
{
    let mut buf = EventBuf::make(alloc)?;
    let hands = Vec::new(alloc);
    let (room, readers, lead) = Room::make(alloc, kernel, 3, 4, &hands)?;
    let left = lead_in_turn(&room, lead, readers, &mut buf, call, last);
    let Some((first, second, third)) = left else {
        return Ok(None);
    };
    Ok(Some(end_three(alloc, room, first, second, third)?))
}

// The seats of the three stations, once each has left.
fn lead_in_turn<K: SyscallKernel + Recorded>(
    room: &Room<K>,
    lead: Lead<K>,
    readers: Vec<Reader<K>>,
    buf: &mut EventBuf,
    call: &Call,
    last: &Call,
) -> Option<(Left<K>, Left<K>, Left<K>)>
    requires lead { IsLeadOf room.now lead × (due_of lead ≡ false) × AskedSoFar room.now lead }
    requires readers { FreshReaders room.now readers.items × (length readers.items ≡ 2) }
    requires shaped { IsShaped (request call.now) × IsShaped (request last.now) }
    requires first { (call.now.tid ≡ FIRST_THREAD) × (last.now.tid ≡ FIRST_THREAD) }
    requires lives { Contains (live_after (K.log (kernel_of lead))) FIRST_THREAD }
    requires goes_on { GoesOn (request call.now) }
    requires ends { last.now.nr ≡ EXIT_GROUP }
    ensures of { IfSome result (λ left. IsLeftOf room.now left.0 × IsLeftOf room.now left.1 × IsLeftOf room.now left.2) }
    ensures versions { IfSome result (λ left. (version_of_left left.0 ≡ version_of_lead lead) × (version_of_left left.1 ≡ 1) × (version_of_left left.2 ≡ 2)) }
{
    let (second, mut third) = two_readers(room, readers)?;
    let first = first_leads(room, lead, &mut third, call)?;
    let second = second_leads(room, second, &mut third, buf, call, last)?;
    let third = reads_to_end(room, third, buf)?;
    Some((first, second, third))
}

fn two_readers<K: SyscallKernel + Recorded>(
    room: &Room<K>,
    mut readers: Vec<Reader<K>>,
) -> Option<(Reader<K>, Reader<K>)>
    requires { FreshReaders room.now readers.items × (length readers.items ≡ 2) }
    ensures { IfSome result (λ r. HasReadNothing room.now r.0 × HasReadNothing room.now r.1 × (version_of_reader r.0 ≡ 1) × (version_of_reader r.1 ≡ 2)) }
{
    let third = readers.pop()?;
    let second = readers.pop()?;
    Some((second, third))
}

// Three calls, and station 1 is the first that is left.
fn first_leads<K: SyscallKernel + Recorded>(
    room: &Room<K>,
    mut lead: Lead<K>,
    third: &mut Reader<K>,
    call: &Call,
) -> Option<Left<K>>
    requires lead { IsLeadOf room.now lead × (due_of lead ≡ false) × AskedSoFar room.now lead }
    requires third { HasReadNothing room.now third.old }
    requires shaped { IsShaped (request call.now) }
    requires first { call.now.tid ≡ FIRST_THREAD }
    requires lives { Contains (live_after (K.log (kernel_of lead))) FIRST_THREAD }
    requires goes_on { GoesOn (request call.now) }
    ensures left { IfSome result (λ l. IsLeftOf room.now l × (version_of_left l ≡ version_of_lead lead)) }
    ensures third { HasReadNothing room.now third.new × (version_of_reader third.new ≡ version_of_reader third.old) }
{
    if !publish_some(room, &mut lead, call, 3, 1) {
        return None;
    }
    let left = retire(lead, room);
    match lower_gone(third, room) {
        Lower::Alive(1) => Some(left),
        _ => None,
    }
}

// The next leader has seen the three events. While the third reads on it publishes one more and the last.
fn second_leads<K: SyscallKernel + Recorded>(
    room: &Room<K>,
    mut second: Reader<K>,
    third: &mut Reader<K>,
    buf: &mut EventBuf,
    call: &Call,
    last: &Call,
) -> Option<Left<K>>
    requires second { HasReadNothing room.now second }
    requires third { HasReadNothing room.now third.old }
    requires shaped { IsShaped (request call.now) × IsShaped (request last.now) }
    requires first { (call.now.tid ≡ FIRST_THREAD) × (last.now.tid ≡ FIRST_THREAD) }
    requires goes_on { GoesOn (request call.now) }
    requires ends { last.now.nr ≡ EXIT_GROUP }
    ensures left { IfSome result (λ l. IsLeftOf room.now l × (version_of_left l ≡ version_of_reader second)) }
    ensures third { HasReadNothing room.now third.new × (version_of_reader third.new ≡ version_of_reader third.old) }
{
    if !read_some(room, &mut second, buf, 3) {
        return None;
    }
    let mut lead = take_over(room, second, buf, 3)?;
    if !goes_on(lead.kernel().history()) || !publish_some(room, &mut lead, call, 1, 1) {
        return None;
    }
    if !read_some(room, third, buf, 4) {
        return None;
    }
    end_lead(room, lead, last)
}

// The last event, and that there are five and will be no more.
fn reads_to_end<K: SyscallKernel + Recorded>(
    room: &Room<K>,
    mut third: Reader<K>,
    buf: &mut EventBuf,
) -> Option<Left<K>>
    requires { HasReadNothing room.now third }
    ensures { IfSome result (λ l. IsLeftOf room.now l × (version_of_left l ≡ version_of_reader third)) }
{
    if !read_some(room, &mut third, buf, 1) {
        return None;
    }
    match poll_merged(&mut third, room, buf) {
        Polled::Closed(5) => Some(leave(third, room)),
        _ => None,
    }
}

// Publishes a call so many times, waiting for each place at most so many turns.
pub(crate) fn publish_some<K: SyscallKernel + Recorded>(
    room: &Room<K>,
    lead: &mut Lead<K>,
    call: &Call,
    count: u32,
    most: u32,
) -> bool
    requires of { IsLeadOf room.now lead.old }
    requires none_due { due_of lead.old ≡ false }
    requires asked { AskedSoFar room.now lead.old }
    requires shaped { IsShaped (request call.now) }
    requires first { call.now.tid ≡ FIRST_THREAD }
    requires lives { Contains (live_after (K.log (kernel_of lead.old))) FIRST_THREAD }
    requires goes_on { GoesOn (request call.now) }
    ensures of { IsLeadOf room.now lead.new }
    ensures due { due_of lead.new ≡ false }
    ensures asked { AskedSoFar room.now lead.new }
    ensures version { version_of_lead lead.new ≡ version_of_lead lead.old }
    ensures lives { OnTrue result (Contains (live_after (K.log (kernel_of lead.new))) FIRST_THREAD) }
{
    for _event in 0..count {
        if !publish_one(room, lead, call, most) {
            return false;
        }
    }
    true
}

// Sees so many events, as long as they are there.
pub(crate) fn read_some<K: SyscallKernel + Recorded>(
    room: &Room<K>,
    reader: &mut Reader<K>,
    buf: &mut EventBuf,
    count: u32,
) -> bool
    requires of { IsOfRoom room.now reader.old }
    requires none_read { (view reader.old).read ≡ [] }
    ensures of { IsOfRoom room.now reader.new }
    ensures none_read { (view reader.new).read ≡ [] }
    ensures version { version_of_reader reader.new ≡ version_of_reader reader.old }
{
    for _event in 0..count {
        match poll_merged(reader, room, buf) {
            Polled::Event => advance(reader, room),
            _ => return false,
        }
    }
    true
}

// The room is free after so many events, and no lower station is left.
pub(crate) fn take_over<K: SyscallKernel + Recorded>(
    room: &Room<K>,
    mut reader: Reader<K>,
    buf: &mut EventBuf,
    events: u32,
) -> Option<Lead<K>>
    requires of { IsOfRoom room.now reader }
    requires none_read { (view reader).read ≡ [] }
    ensures of { IfSome result (λ l. IsLeadOf room.now l) }
    ensures due { IfSome result (λ l. due_of l ≡ false) }
    ensures asked { IfSome result (λ l. AskedSoFar room.now l) }
    ensures version { IfSome result (λ l. version_of_lead l ≡ version_of_reader reader) }
{
    if !is_free(room, &mut reader, buf, events) {
        return None;
    }
    let Lower::AllGone = lower_gone(&mut reader, room) else {
        return None;
    };
    match poll_merged(&mut reader, room, buf) {
        Polled::Free(_) => Some(take(reader, room)),
        _ => None,
    }
}

// No station leads after so many events.
pub(crate) fn is_free<K: SyscallKernel + Recorded>(
    room: &Room<K>,
    reader: &mut Reader<K>,
    buf: &mut EventBuf,
    events: u32,
) -> bool
    requires of { IsOfRoom room.now reader.old }
    requires none_read { (view reader.old).read ≡ [] }
    ensures of { IsOfRoom room.now reader.new }
    ensures version { version_of_reader reader.new ≡ version_of_reader reader.old }
    ensures none_read { OnTrue result ((view reader.new).read ≡ []) }
{
    match poll_merged(reader, room, buf) {
        Polled::Free(n) => n == events,
        _ => false,
    }
}

// Publishes the last call, and closes.
pub(crate) fn end_lead<K: SyscallKernel + Recorded>(
    room: &Room<K>,
    mut lead: Lead<K>,
    last: &Call,
) -> Option<Left<K>>
    requires of { IsLeadOf room.now lead }
    requires none_due { due_of lead ≡ false }
    requires asked { AskedSoFar room.now lead }
    requires shaped { IsShaped (request last.now) }
    requires lives { Contains (live_after (K.log (kernel_of lead))) last.now.tid }
    requires ends { last.now.nr ≡ EXIT_GROUP }
    ensures of { IfSome result (λ l. IsLeftOf room.now l) }
    ensures version { IfSome result (λ l. version_of_left l ≡ version_of_lead lead) }
{
    if !publish_one(room, &mut lead, last, 1) {
        return None;
    }
    Some(close(lead, room))
}

fn end_three<K: SyscallKernel + Recorded>(
    alloc: Global,
    room: Room<K>,
    first: Left<K>,
    second: Left<K>,
    third: Left<K>,
) -> Result<Ended<K>, AllocError>
    requires of { IsLeftOf room first × IsLeftOf room second × IsLeftOf room third }
    requires versions_are { (version_of_left first ≡ 0) × (version_of_left second ≡ 1) × (version_of_left third ≡ 2) × (versions_of room ≡ 3) }
    ensures legal { IfOk result (λ e. IsLegal (K.known e.kernel) (K.log e.kernel)) }
{
    let mut left = Vec::with_capacity(alloc, 3)?;
    left.push(third)?;
    left.push(second)?;
    left.push(first)?;
    Ok(room.finish(left))
}
