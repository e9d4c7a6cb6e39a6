//! A planned hand-over, step by step: each call's answer is the one that it should be, or there is none.
ghost use Rattle.std.specs.Prelude.{◌≡◌, ◌+◌, ◌<◌, ◌≤◌, [], ◌∷◌, false, length, IfOk, IfSome};
ghost use Rattle.nv_calls.specs.Calls.{request};
ghost use Rattle.nv_calls.specs.Logs.{IsLegal};
ghost use Rattle.nv_calls.specs.Shapes.{IsShaped};
ghost use Rattle.nv_room.specs.Seats.{IsLeftOf, IsFreshLead, FreshReaders, kernel_of, origin, hands_of, version_of_left, version_of_reader, versions_of};
ghost use Rattle.nv_room_tests.specs.Going.{GoesOn};
ghost use Rattle.nv_room_tests.specs.Backs.{HasReadNothing};

use crate::changing::{end_lead, publish_some, read_some, take_over};
use crate::lives::goes_on;
use nv_calls::{Call, EXIT_GROUP, FIRST_THREAD, Recorded, SyscallKernel};
use nv_lamport::{Polled, poll_merged};
use nv_promotion::{Lower, hand, leave, lower_gone};
use nv_ring::{Placed, place, publish};
use nv_room::{Ended, Lead, Left, Reader, Room};
use nv_words::EventBuf;
use std::alloc::{AllocError, Global};

/// A room of two versions with the planned length 1. Version 0 publishes a call, gives up the lead and reads on as the last. Version 1
/// takes the lead, publishes the call again and the last, and closes, and version 0 reads both.
pub fn hand_over<K: SyscallKernel + Recorded>(
    alloc: Global,
    kernel: K,
    call: &Call,
    last: &Call,
) -> Result<Option<Ended<K>>, AllocError>
    requires empty { K.log kernel ≡ [] }
    requires shaped { IsShaped (request call.now) × IsShaped (request last.now) }
    requires first { (call.now.tid ≡ FIRST_THREAD) × (last.now.tid ≡ FIRST_THREAD) }
    requires goes_on { GoesOn (request call.now) }
    requires ends { last.now.nr ≡ EXIT_GROUP }
    ensures { IfOk result (λ o. IfSome o (λ e. IsLegal (K.known e.kernel) (K.log e.kernel))) }
{
    let mut buf = EventBuf::make(alloc)?;
    let mut hands = Vec::with_capacity(alloc, 1)?;
    hands.push(1u32)?;
    let (room, readers, lead) = Room::make(alloc, kernel, 2, 4, &hands)?;
    let Some(second) = one_reader(&room, readers) else {
        return Ok(None);
    };
    let Some(first) = first_hands(&room, lead, call) else {
        return Ok(None);
    };
    let Some(second) = second_leads(&room, second, &mut buf, call, last) else {
        return Ok(None);
    };
    let Some(first) = first_follows(&room, first, &mut buf) else {
        return Ok(None);
    };
    Ok(Some(end_two(alloc, room, first, second)?))
}

fn one_reader<K: SyscallKernel + Recorded>(
    room: &Room<K>,
    mut readers: Vec<Reader<K>>,
) -> Option<Reader<K>>
    requires { FreshReaders room.now readers.items × (length readers.items ≡ 1) }
    ensures { IfSome result (λ r. HasReadNothing room.now r × (version_of_reader r ≡ 1)) }
{
    let reader = readers.pop()?;
    Some(reader)
}

// One call, and the lead is given up; the other version is before the first one now.
fn first_hands<K: SyscallKernel + Recorded>(
    room: &Room<K>,
    mut lead: Lead<K>,
    call: &Call,
) -> Option<Reader<K>>
    requires lead { IsFreshLead room.now lead × (K.log (kernel_of lead) ≡ []) }
    requires planned { hands_of room.now ≡ 1 ∷ [] }
    requires shaped { IsShaped (request call.now) }
    requires first { call.now.tid ≡ FIRST_THREAD }
    ensures { IfSome result (λ r. HasReadNothing room.now r × (version_of_reader r ≡ 0)) }
{
    lead.reserve(call).ok()?;
    let Placed::Ready = place(&mut lead, room) else {
        return None;
    };
    publish(&mut lead, room, call);
    let mut reader = hand(lead, room);
    match lower_gone(&mut reader, room) {
        Lower::Alive(1) => Some(reader),
        _ => None,
    }
}

fn second_leads<K: SyscallKernel + Recorded>(
    room: &Room<K>,
    mut second: Reader<K>,
    buf: &mut EventBuf,
    call: &Call,
    last: &Call,
) -> Option<Left<K>>
    requires second { HasReadNothing room.now second }
    requires shaped { IsShaped (request call.now) × IsShaped (request last.now) }
    requires first { (call.now.tid ≡ FIRST_THREAD) × (last.now.tid ≡ FIRST_THREAD) }
    requires goes_on { GoesOn (request call.now) }
    requires ends { last.now.nr ≡ EXIT_GROUP }
    ensures { IfSome result (λ l. IsLeftOf room.now l × (version_of_left l ≡ version_of_reader second)) }
{
    if !read_some(room, &mut second, buf, 1) {
        return None;
    }
    let mut lead = take_over(room, second, buf, 1)?;
    if !goes_on(lead.kernel().history()) || !publish_some(room, &mut lead, call, 1, 1) {
        return None;
    }
    end_lead(room, lead, last)
}

// Both events of the other version, and that there are three and will be no more.
fn first_follows<K: SyscallKernel + Recorded>(
    room: &Room<K>,
    mut first: Reader<K>,
    buf: &mut EventBuf,
) -> Option<Left<K>>
    requires { HasReadNothing room.now first }
    ensures { IfSome result (λ l. IsLeftOf room.now l × (version_of_left l ≡ version_of_reader first)) }
{
    if !read_some(room, &mut first, buf, 2) {
        return None;
    }
    match poll_merged(&mut first, room, buf) {
        Polled::Closed(3) => Some(leave(first, room)),
        _ => None,
    }
}

fn end_two<K: SyscallKernel + Recorded>(
    alloc: Global,
    room: Room<K>,
    first: Left<K>,
    second: Left<K>,
) -> Result<Ended<K>, AllocError>
    requires of { IsLeftOf room first × IsLeftOf room second }
    requires versions_are { (version_of_left first ≡ 0) × (version_of_left second ≡ 1) × (versions_of room ≡ 2) }
    ensures legal { IfOk result (λ e. IsLegal (K.known e.kernel) (K.log e.kernel)) }
{
    let mut left = Vec::with_capacity(alloc, 2)?;
    left.push(second)?;
    left.push(first)?;
    Ok(room.finish(left))
}
