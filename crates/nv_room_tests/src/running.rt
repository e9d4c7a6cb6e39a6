//! A room's stations, each on a thread: they lead in their turns, and read what the others publish.
ghost use Rattle.std.specs.Prelude.{◌≡◌, ◌+◌, ◌<◌, ◌≤◌, ◌++◌, [], ◌∷◌, false, length, IfOk, Contains, Some};
ghost use Rattle.std.specs.Bool.{OnTrue};
ghost use Rattle.nv_calls.specs.Calls.{request};
ghost use Rattle.nv_calls.specs.Logs.{served, live_after, IsLegal, IsLawful};
ghost use Rattle.nv_calls.specs.Shapes.{IsShaped};
ghost use Rattle.nv_room.specs.Seats.{IsOfRoom, IsLeadOf, IsLeftOf, FreshReaders, view, due_of, kernel_of, origin, version_of_lead, version_of_left, version_of_reader, versions_of, AskedSoFar};
ghost use Rattle.nv_room_tests.specs.Backs.{HasReadNothing, LeftInOrder};
ghost use Rattle.nv_room_tests.specs.Scripts.{AreCalls};

use crate::lives::{can_call, goes_on};
use crate::script::Script;
use nv_calls::{Call, FIRST_THREAD, MOST_EVENTS, Recorded, SyscallKernel};
use nv_lamport::{Polled, poll_merged};
use nv_promotion::{Lower, close, leave, lower_gone, retire, take};
use nv_ring::{Placed, advance, place, publish};
use nv_room::{Ended, Lead, Leaving, Left, Moving, Opening, Reader, Room};
use nv_words::EventBuf;
use std::alloc::{AllocError, Global};
use std::thread;
use std::thread::{Threads, join, yield_now};

/// Runs the script over so many versions, and gives what ended.
pub fn run<R: Threads + Sync, K: SyscallKernel + Recorded>(
    rt: &R,
    alloc: Global,
    kernel: K,
    script: &Script,
    versions: u32,
    places: u32,
) -> Result<Ended<K>, AllocError>
    requires versions { (0 < versions) × (versions ≤ 8) }
    requires places { (2 ≤ places) × (places ≤ 1024) }
    requires empty { K.log kernel ≡ [] }
    requires calls { AreCalls script.now }
    ensures start { IfOk result (λ e. K.start e.kernel ≡ K.start kernel) }
    ensures legal { IfOk result (λ e. IsLegal (K.known e.kernel) (K.log e.kernel)) }
    ensures lawful { IfOk result (λ e. IsLawful (K.log e.kernel)) }
    ensures wide { IfOk result (λ e. length e.seen.items ≡ versions) }
{
    let hands = Vec::new(alloc);
    let (room, readers, lead) = Room::make(alloc, kernel, versions, places, &hands)?;
    let shared = &room;
    let head = move || -> Left<K>
        requires { IsLeadOf shared.now lead × (due_of lead ≡ false) × (version_of_lead lead ≡ 0) × AskedSoFar shared.now lead × AreCalls script.now }
        ensures { IsLeftOf shared.entry.now result × (version_of_left result ≡ 0) }
    { lead_share(shared, lead, script) };
    let tail = move || -> Result<Vec<Left<K>>, AllocError>
        requires { FreshReaders shared.now readers.items × AreCalls script.now }
        ensures { IfOk result (λ ls. LeftInOrder shared.entry.now ls.items × (length ls.items ≡ length readers.items)) }
    { follow_each(rt, alloc, shared, readers, script) };
    let (first, others) = join(rt, head, tail);
    let others = others?;
    end_all(room, first, others)
}

fn end_all<K: SyscallKernel + Recorded>(
    room: Room<K>,
    first: Left<K>,
    mut others: Vec<Left<K>>,
) -> Result<Ended<K>, AllocError>
    requires first { IsLeftOf room first × (version_of_left first ≡ 0) }
    requires others { LeftInOrder room others.items × (length others.items + 1 ≡ versions_of room) }
    ensures start { IfOk result (λ e. K.start e.kernel ≡ K.start (origin room)) }
    ensures legal { IfOk result (λ e. IsLegal (K.known e.kernel) (K.log e.kernel)) }
    ensures lawful { IfOk result (λ e. IsLawful (K.log e.kernel)) }
    ensures wide { IfOk result (λ e. length e.seen.items ≡ versions_of room) }
{
    others.push(first)?;
    Ok(room.finish(others))
}

// Each reader follows on a thread of its own.
fn follow_each<R: Threads + Sync, K: SyscallKernel + Recorded>(
    rt: &R,
    alloc: Global,
    room: &Room<K>,
    readers: Vec<Reader<K>>,
    script: &Script,
) -> Result<Vec<Left<K>>, AllocError>
    requires fresh { FreshReaders room.now readers.items }
    requires calls { AreCalls script.now }
    ensures order { IfOk result (λ ls. LeftInOrder room.now ls.items) }
    ensures len { IfOk result (λ ls. length ls.items ≡ length readers.items) }
{
    let station = move |reader: Reader<K>| -> Left<K>
        requires { HasReadNothing room.now reader × AreCalls script.now }
        ensures { IsLeftOf room.entry.now result × (version_of_left result ≡ version_of_reader reader) }
    { follow(alloc, room, reader, script) };
    let back = thread::map_vec(rt, readers, &station)?;
    Ok(back)
}

// Reads until the room is closed, up to an event that isn't the script's, or takes the lead where no lower station is left.
fn follow<K: SyscallKernel + Recorded>(
    alloc: Global,
    room: &Room<K>,
    mut reader: Reader<K>,
    script: &Script,
) -> Left<K>
    requires of { HasReadNothing room.now reader }
    requires calls { AreCalls script.now }
    ensures of { IsLeftOf room.now result }
    ensures version { version_of_left result ≡ version_of_reader reader }
{
    let Ok(mut buf) = EventBuf::make(alloc) else {
        return leave(reader, room);
    };
    for _turn in 0..script.most {
        match poll_merged(&mut reader, room, &mut buf) {
            Polled::Event => {
                if !script.has(buf.event(), reader.seen()) {
                    return leave(reader, room);
                }
                advance(&mut reader, room);
            }
            Polled::Waiting => yield_now(),
            Polled::Closed(_) => return leave(reader, room),
            Polled::Free(_) => {
                if may_take(room, &mut reader, &mut buf) {
                    return lead_share(room, take(reader, room), script);
                }
                yield_now();
            }
        }
    }
    leave(reader, room)
}

// Whether no lower station is left and the room is free since; an event that came between is seen.
fn may_take<K: SyscallKernel + Recorded>(
    room: &Room<K>,
    reader: &mut Reader<K>,
    buf: &mut EventBuf,
) -> bool
    requires { HasReadNothing room.now reader.old }
    ensures of { HasReadNothing room.now reader.new }
    ensures version { version_of_reader reader.new ≡ version_of_reader reader.old }
    ensures freed { OnTrue result ((view reader.new).freed ≡ Some (length (view reader.new).seen)) }
{
    let Lower::AllGone = lower_gone(reader, room) else {
        return false;
    };
    match poll_merged(reader, room, buf) {
        Polled::Free(_) => true,
        Polled::Event => {
            advance(reader, room);
            false
        }
        Polled::Waiting | Polled::Closed(_) => false,
    }
}

// Publishes its share and retires; who publishes the last call closes.
fn lead_share<K: SyscallKernel + Recorded>(
    room: &Room<K>,
    mut lead: Lead<K>,
    script: &Script,
) -> Left<K>
    requires of { IsLeadOf room.now lead }
    requires none_due { due_of lead ≡ false }
    requires asked { AskedSoFar room.now lead }
    requires calls { AreCalls script.now }
    ensures of { IsLeftOf room.now result }
    ensures version { version_of_left result ≡ version_of_lead lead }
{
    if !goes_on(lead.kernel().history()) || !publish_share(room, &mut lead, script) {
        return retire(lead, room);
    }
    if lead.seen() + 1 != script.events {
        return retire(lead, room);
    }
    if !publish_one(room, &mut lead, &script.last, script.most) {
        return retire(lead, room);
    }
    close(lead, room)
}

// The events that its version leads for, but for the last of all.
fn publish_share<K: SyscallKernel + Recorded>(
    room: &Room<K>,
    lead: &mut Lead<K>,
    script: &Script,
) -> bool
    requires of { IsLeadOf room.now lead.old }
    requires none_due { due_of lead.old ≡ false }
    requires asked { AskedSoFar room.now lead.old }
    requires calls { AreCalls script.now }
    requires lives { Contains (live_after (K.log (kernel_of lead.old))) FIRST_THREAD }
    ensures of { IsLeadOf room.now lead.new }
    ensures due { due_of lead.new ≡ false }
    ensures asked { AskedSoFar room.now lead.new }
    ensures version { version_of_lead lead.new ≡ version_of_lead lead.old }
    ensures lives { OnTrue result (Contains (live_after (K.log (kernel_of lead.new))) FIRST_THREAD) }
{
    let version = lead.version();
    for number in lead.seen()..script.events.saturating_sub(1) {
        if !script.leads(version, number) {
            return true;
        }
        if !publish_next(room, lead, script, number) {
            return false;
        }
    }
    true
}

// The event with this number, if its thread lives.
fn publish_next<K: SyscallKernel + Recorded>(
    room: &Room<K>,
    lead: &mut Lead<K>,
    script: &Script,
    number: u32,
) -> bool
    requires of { IsLeadOf room.now lead.old }
    requires none_due { due_of lead.old ≡ false }
    requires asked { AskedSoFar room.now lead.old }
    requires calls { AreCalls script.now }
    requires lives { Contains (live_after (K.log (kernel_of lead.old))) FIRST_THREAD }
    ensures of { IsLeadOf room.now lead.new }
    ensures due { due_of lead.new ≡ false }
    ensures asked { AskedSoFar room.now lead.new }
    ensures version { version_of_lead lead.new ≡ version_of_lead lead.old }
    ensures lives { OnTrue result (Contains (live_after (K.log (kernel_of lead.new))) FIRST_THREAD) }
{
    let call = script.call(number);
    if !can_call(lead.kernel().history(), call.tid) {
        return false;
    }
    publish_one(room, lead, call, script.most)
}

// Publishes one call, unless the kernel has no memory, the log is full or no place comes free.
pub(crate) fn publish_one<K: SyscallKernel + Recorded>(
    room: &Room<K>,
    lead: &mut Lead<K>,
    call: &Call,
    most: u32,
) -> bool
    requires of { IsLeadOf room.now lead.old }
    requires none_due { due_of lead.old ≡ false }
    requires asked { AskedSoFar room.now lead.old }
    requires shaped { IsShaped (request call.now) }
    requires lives { Contains (live_after (K.log (kernel_of lead.old))) call.now.tid }
    ensures of { IsLeadOf room.now lead.new }
    ensures due { due_of lead.new ≡ false }
    ensures asked { AskedSoFar room.now lead.new }
    ensures version { version_of_lead lead.new ≡ version_of_lead lead.old }
    ensures log { OnTrue result (K.log (kernel_of lead.new) ≡ K.log (kernel_of lead.old) ++ served (K.known (kernel_of lead.new)) (K.log (kernel_of lead.old)) (request call.now) ∷ []) }
{
    if lead.seen() >= MOST_EVENTS || lead.reserve(call).is_err() {
        return false;
    }
    for _turn in 0..most {
        match place(lead, room) {
            Placed::Ready => {
                publish(lead, room, call);
                return true;
            }
            Placed::Waiting(_) => yield_now(),
        }
    }
    false
}

/// As many calls, the first thread's alone, on a kernel that is in no room.
pub fn serve_all<K: SyscallKernel + Recorded>(mut kernel: K, script: &Script) -> K
    requires empty { K.log kernel ≡ [] }
    requires calls { AreCalls script.now }
    requires first { script.now.first.tid ≡ FIRST_THREAD }
    requires few { script.now.events ≤ MOST_EVENTS }
    ensures start { K.start result ≡ K.start kernel }
{
    for _event in 1..script.events {
        if kernel.reserve(&script.first).is_err() {
            return kernel;
        }
        kernel.serve(&script.first);
    }
    if kernel.reserve(&script.last).is_ok() {
        kernel.serve(&script.last);
    }
    kernel
}

#[tactic(auto)]
fn crosses<T: Send>(_value: &T) {}

/// The room and each kind of seat may cross threads, whatever the kernel is.
pub fn all_cross<K: SyscallKernel + Recorded>(
    room: &Room<K>,
    reader: &Reader<K>,
    lead: &Lead<K>,
    opening: &Opening<K>,
    moving: &Moving<K>,
    leaving: &Leaving<K>,
    left: &Left<K>,
) {
    crosses(room);
    crosses(reader);
    crosses(lead);
    crosses(opening);
    crosses(moving);
    crosses(leaving);
    crosses(left);
}
