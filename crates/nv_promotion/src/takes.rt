//! How a station takes the lead.
ghost use Rattle.std.specs.Prelude.{◌≡◌, ◌<◌, false, length, map, Some};
ghost use Rattle.nv_words.specs.Spelling.{spell};
ghost use Rattle.nv_room.specs.Steps.{as_lead};
ghost use Rattle.nv_room.specs.Kinds.{Stepped};
ghost use Rattle.nv_room.specs.Seats.{IsOfRoom, IsLeadOf, SameReader, stations_of, view, lead_view, station_of_reader, version_of_reader, station_of_lead, version_of_lead, kernel_of, due_of, origin, AskedSoFar};
ghost use Rattle.nv_promotion.specs.Lowers.{KeepsMarks, IsLower};

use nv_calls::SyscallKernel;
use nv_room::{Cursor, Lead, Reader, Room};

/// Whether all stations below a reader's have left.
#[derive(Clone, Copy, Debug, PartialEq, Eq, Drop)]
pub enum Lower {
    /// Each was seen gone.
    AllGone,
    /// This one hasn't left.
    Alive(u32),
}

/// Looks at the cursors of the stations below the reader's, up to the first that hasn't left.
pub fn lower_gone<K: SyscallKernel>(reader: &mut Reader<K>, room: &Room<K>) -> Lower
    requires { IsOfRoom room.now reader.old }
    ensures of { IsOfRoom room.now reader.new }
    ensures same { SameReader reader.old reader.new }
    ensures kept { KeepsMarks (view reader.old) (view reader.new) }
    ensures lower { IsLower (view reader.old) (view reader.new) (station_of_reader reader.old) result }
    ensures steps { Stepped (stations_of room.now) (view reader.old) (view reader.new) }
{
    let own = reader.station();
    for station in 0..own {
        match room.reader_looks(reader, station) {
            Cursor::Gone => {}
            Cursor::At(_) => return Lower::Alive(station),
        }
    }
    Lower::AllGone
}

/// The kernel comes to a reader that found the owner free after all lower stations were seen gone, and has seen all events.
pub fn take<K: SyscallKernel>(reader: Reader<K>, room: &Room<K>) -> Lead<K>
    requires of { IsOfRoom room.now reader }
    requires freed { (view reader).freed ≡ Some (length (view reader).seen) }
    ensures of { IsLeadOf room.now result }
    ensures station { (station_of_lead result ≡ station_of_reader reader) × (version_of_lead result ≡ version_of_reader reader) }
    ensures view { lead_view result ≡ as_lead (lead_view result).asked (view reader) }
    ensures due { due_of result ≡ false }
    ensures log { map spell (K.log (kernel_of result)) ≡ (view reader).seen }
    ensures start { K.start (kernel_of result) ≡ K.start (origin room.now) }
    ensures asked { AskedSoFar room.now result }
{
    room.take_step(reader)
}
