//! How a station leaves.
ghost use Rattle.std.specs.Prelude.{◌≡◌, [], true, false, length, map};
ghost use Rattle.nv_calls.specs.Logs.{live_after};
ghost use Rattle.nv_words.specs.Spelling.{spell};
ghost use Rattle.nv_room.specs.Owner.{is_free, is_closed, owner_at};
ghost use Rattle.nv_room.specs.Steps.{as_leaving, as_gone};
ghost use Rattle.nv_room.specs.Seats.{IsOfRoom, IsLeadOf, IsLeftOf, view, lead_view, left_view, station_of_reader, version_of_reader, station_of_lead, version_of_lead, station_of_left, version_of_left, kernel_of, due_of, AskedSoFar};

use nv_calls::SyscallKernel;
use nv_room::{Lead, Left, Reader, Room};

/// The kernel goes home, the room is free at head for another station to lead, and the station leaves.
pub fn retire<K: SyscallKernel>(lead: Lead<K>, room: &Room<K>) -> Left<K>
    requires of { IsLeadOf room.now lead }
    requires none_due { due_of lead ≡ false }
    requires asked { AskedSoFar room.now lead }
    ensures of { IsLeftOf room.now result }
    ensures station { (station_of_left result ≡ station_of_lead lead) × (version_of_left result ≡ version_of_lead lead) }
    ensures view { left_view result ≡ as_gone (as_leaving (lead_view lead) (left_view result).owner_last) }
    ensures given { (is_free (left_view result).owner_last ≡ true) × (owner_at (left_view result).owner_last ≡ length (lead_view lead).seen) }
    ensures log { (left_view result).seen ≡ map spell (K.log (kernel_of lead)) }
{
    let leaving = room.retire_step(lead);
    room.leave_step(leaving)
}

/// The kernel, which has ended, goes home, the room is closed at head, and the station leaves.
pub fn close<K: SyscallKernel>(lead: Lead<K>, room: &Room<K>) -> Left<K>
    requires of { IsLeadOf room.now lead }
    requires none_due { due_of lead ≡ false }
    requires asked { AskedSoFar room.now lead }
    requires ended { live_after (K.log (kernel_of lead)) ≡ [] }
    ensures of { IsLeftOf room.now result }
    ensures station { (station_of_left result ≡ station_of_lead lead) × (version_of_left result ≡ version_of_lead lead) }
    ensures view { left_view result ≡ as_gone (as_leaving (lead_view lead) (left_view result).owner_last) }
    ensures given { (is_closed (left_view result).owner_last ≡ true) × (owner_at (left_view result).owner_last ≡ length (lead_view lead).seen) }
    ensures log { (left_view result).seen ≡ map spell (K.log (kernel_of lead)) }
{
    let leaving = room.close_step(lead);
    room.leave_step(leaving)
}

/// The station of a reader leaves.
pub fn leave<K: SyscallKernel>(reader: Reader<K>, room: &Room<K>) -> Left<K>
    requires of { IsOfRoom room.now reader }
    ensures of { IsLeftOf room.now result }
    ensures station { (station_of_left result ≡ station_of_reader reader) × (version_of_left result ≡ version_of_reader reader) }
    ensures view { left_view result ≡ as_gone (view reader) }
{
    room.leave_reader(reader)
}
