//! A leader's turn.
ghost use Rattle.std.specs.Prelude.{◌≡◌, ◌≤◌, ℕ, List, Some, None, false, true, length, IfSome};
ghost use Rattle.nv_threads.specs.Threads.{Proc, threads};
ghost use Rattle.nv_replay.specs.Follow.{Judge};
ghost use Rattle.nv_calls.specs.Hands.{has};
ghost use Rattle.nv_replay.specs.Hands.{count_above};
ghost use Rattle.nv_replay.specs.Version.{IsLiveLeader};
ghost use Rattle.nv_room.specs.Kinds.{Stepped};
ghost use Rattle.nv_room.specs.Seats.{SameLead, lead_view, stations_of, version_of_lead, kernel_of, due_of};
ghost use Rattle.nv_workers.specs.Terms.{AreOfRoom};
ghost use Rattle.nv_workers.specs.Working.{LeadsOn, asked_by};
ghost use Rattle.nv_workers.specs.Growing.{OneMoreAtMost};
ghost use Rattle.nv_workers.specs.inner.Leads.{AfterLead, HasCome, HasDropped, HasPublished, IsLate, HasSpare, IsNext, gives_up};

use crate::follows::Next;
use crate::gate::{Gate, VersionNumber};
use crate::terms::Terms;
use nv_calls::SyscallKernel;
use nv_replay::{Led, Version};
use nv_ring::{Placed, place, publish};
use nv_room::{Lead, Room};

/// Comes to a call, unless one is asked, and serves it where its event has a place.
pub(crate) fn lead_turn<K: SyscallKernel, G: Gate>(
    version: &mut Version,
    lead: &mut Lead<K>,
    asked: &mut Option<u32>,
    room: &Room<K>,
    terms: &Terms<'_, G>,
) -> Next
    requires leads { (judges : ℕ → Judge) × (p : Proc) × LeadsOn judges room.now terms.now.most p version.old false lead.old asked.old }
    requires terms { AreOfRoom room.now terms.now }
    ensures same { SameLead lead.old lead.new }
    ensures after { (judges : ℕ → Judge) (p : Proc) → LeadsOn judges room.now terms.now.most p version.old false lead.old asked.old → AfterLead judges room.now terms.now.most p version.new lead.new asked.new result }
    ensures published { HasPublished (lead_view lead.old) (lead_view lead.new) result }
    ensures late { IsLate room.now lead.old lead.new result }
    ensures one { OneMoreAtMost (length (lead_view lead.old).seen) (length (lead_view lead.new).seen) }
    ensures rewrites { version.old.at.rewrites ≤ version.new.at.rewrites }
    ensures steps { Stepped (stations_of room.now) (lead_view lead.old) (lead_view lead.new) }
{
    let Some(tid) = come_to_call(version, asked, terms.most) else {
        return Next::Leaves;
    };
    if let Placed::Waiting(_) = place(lead, room) {
        terms.gate.at_wait(leader(lead));
        return Next::Waits;
    }
    if lead.reserve(version.pending(tid)).is_err() {
        version.refuse_memory();
        return Next::Leaves;
    }
    terms.gate.before_publish(leader(lead), lead.seen());
    publish(lead, room, version.pending(tid));
    let event = lead.kernel().last();
    version.answered(event);
    terms.gate.after_publish(leader(lead), event);
    *asked = None;
    next_of(version, lead, room, terms.hands)
}

// The thread whose call is asked; the version comes to one where none is. None where it is dropped.
fn come_to_call(version: &mut Version, asked: &mut Option<u32>, most: u32) -> Option<u32>
    requires leading { asked.old ≡ None → IsLiveLeader version.old }
    requires on { asked.old ≡ None → threads.ended version.old.at.process ≡ None }
    ensures dropped { result ≡ None → HasDropped most version.old version.new asked.old }
    ensures came { IfSome result (λ tid. (asked.new ≡ Some tid) × HasCome most version.old version.new asked.old tid) }
    ensures rewrites { version.old.at.rewrites ≤ version.new.at.rewrites }
{
    if let Some(tid) = *asked {
        return Some(tid);
    }
    match version.lead(most) {
        Led::Dropped(_) => None,
        Led::Asked(tid) => {
            *asked = Some(tid);
            Some(tid)
        }
    }
}

// The version that leads, whatever its station's number is.
pub(crate) fn leader<K: SyscallKernel>(lead: &Lead<K>) -> VersionNumber
    ensures { result.0 ≡ version_of_lead lead.now }
{
    VersionNumber(lead.version())
}

// What comes next for a leader whose call was served.
fn next_of<K: SyscallKernel>(
    version: &Version,
    lead: &mut Lead<K>,
    room: &Room<K>,
    hands: &[u32],
) -> Next
    requires seen { version.now.at.seen ≡ length (K.log (kernel_of lead.old)) }
    ensures next { IsNext hands.now room.now version.now lead.new result }
    ensures same { SameLead lead.old lead.new }
    ensures view { lead_view lead.new ≡ lead_view lead.old }
    ensures due { due_of lead.new ≡ due_of lead.old }
    ensures log { K.log (kernel_of lead.new) ≡ K.log (kernel_of lead.old) }
    ensures start { K.start (kernel_of lead.new) ≡ K.start (kernel_of lead.old) }
    ensures handed { (lengths : List ℕ) → K.handed (kernel_of lead.old) lengths → K.handed (kernel_of lead.new) (asked_by (gives_up result) hands.now (length (K.log (kernel_of lead.old))) lengths) }
{
    if version.standing().fate.is_some() {
        return Next::Leaves;
    }
    if is_planned(hands, version.standing().seen) {
        return Next::Hands;
    }
    if has_spare(version, lead, room, hands) && lead.hands_over() {
        return Next::Hands;
    }
    Next::Moved
}

// How many parts of the log a version may lead.
const MOST_PARTS: usize = 8;

// Whether the leader may hand over at a length that isn't planned: on demand, where a station and a part are left beside those for the
// planned lengths above this one.
fn has_spare<K: SyscallKernel>(
    version: &Version,
    lead: &Lead<K>,
    room: &Room<K>,
    hands: &[u32],
) -> bool
    ensures { result ≡ true → HasSpare hands.now room.now version.now lead.now }
{
    let standing = version.standing();
    let later = count_above(hands, standing.seen);
    let station_left = lead.opened() as usize + later < room.stations() as usize;
    let part_left = standing.led.as_slice().len() + later <= MOST_PARTS;
    room.on_demand() && station_left && part_left
}

// How many of these lengths are above this one.
fn count_above(hands: &[u32], at: u32) -> usize
    ensures is { result ≡ count_above hands.now at }
    ensures few { result ≤ length hands.now }
{
    match hands {
        [] => 0,
        [first, rest @ ..] => usize::from(*first > at) + count_above(rest, at),
    }
}

fn is_planned(hands: &[u32], length: u32) -> bool
    ensures { result ≡ has hands.now length }
{
    hands.contains(&length)
}
