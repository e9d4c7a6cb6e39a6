//! How a lead hands over.
ghost use Rattle.std.specs.Prelude.{◌≡◌, [], true, false, length};
ghost use Rattle.nv_room.specs.Spans.{LastHasEvent};
ghost use Rattle.nv_room.specs.Room.{MayHand};
ghost use Rattle.nv_room.specs.Steps.{as_opening, as_moving, as_reader};
ghost use Rattle.nv_room.specs.Owner.{is_free, owner_at};
ghost use Rattle.nv_room.specs.Kinds.{Stepped};
ghost use Rattle.nv_room.specs.Seats.{IsOfRoom, IsLeadOf, stations_of, view, lead_view, station_of_reader, version_of_reader, version_of_lead, opened_of, due_of, hands_of, AskedHere};

use nv_calls::SyscallKernel;
use nv_room::{Lead, Reader, Room};

/// The log has just reached a planned length; or the kernel has just asked for it, where a station is left beside those kept for the
/// planned lengths above it. And the lead has led an event. The kernel goes home, the room is free at head for another station to lead, and the seat reads on at a new
/// station, the last. It can't fail and takes no memory.
pub fn hand<K: SyscallKernel>(lead: Lead<K>, room: &Room<K>) -> Reader<K>
    requires of { IsLeadOf room.now lead }
    requires none_due { due_of lead ≡ false }
    requires may { MayHand (stations_of room.now) (hands_of room.now) (lead_view lead).opened (length (lead_view lead).seen) }
    requires led { LastHasEvent (lead_view lead).spans }
    requires asked { AskedHere room.now lead }
    ensures of { IsOfRoom room.now result }
    ensures station { (station_of_reader result ≡ opened_of lead) × (version_of_reader result ≡ version_of_lead lead) }
    ensures view { view result ≡ as_reader (as_moving (as_opening (lead_view lead)) (view result).owner_last) }
    ensures read { (view result).read ≡ [] }
    ensures steps { Stepped (stations_of room.now) (lead_view lead) (view result) }
    ensures given { (is_free (view result).owner_last ≡ true) × (owner_at (view result).owner_last ≡ length (lead_view lead).seen) }
{
    let opening = room.open_step(lead);
    let moving = room.hand_step(opening);
    room.move_step(moving)
}
