//! How a reader finds the next event and reads it.
ghost use Rattle.std.specs.Prelude.{◌≡◌, ◌<◌, [], length, IsSome};
ghost use Rattle.nv_room.specs.Kinds.{Stepped};
ghost use Rattle.nv_room.specs.Seats.{IsOfRoom, SameReader, stations_of, view};
ghost use Rattle.nv_lamport.specs.Polls.{HasRead, HasFound, IsPolled};

use nv_calls::SyscallKernel;
use nv_room::{Owner, Reader, Room};
use nv_words::{EventBuf, Spelt};

/// What a poll gave.
#[derive(Clone, Copy, Debug, PartialEq, Eq, Drop)]
pub enum Polled {
    /// The next event is in the buffer.
    Event,
    /// No event is published that the reader hasn't seen, and a station leads.
    Waiting,
    /// No station leads after so many events, all of which the reader has seen.
    Free(u32),
    /// There are so many events and will be no more, and the reader has seen all.
    Closed(u32),
}

/// The next event, whose lane it finds by the number in each lane's next place (Lamport's logical clock) and whose words it reads one by one;
/// or what the owner was when all published events were seen. Once all lower stations are marked gone it never waits.
pub fn poll_merged<K: SyscallKernel>(
    reader: &mut Reader<K>,
    room: &Room<K>,
    buf: &mut EventBuf,
) -> Polled
    requires of { IsOfRoom room.now reader.old }
    requires none_read { (view reader.old).read ≡ [] }
    ensures of { IsOfRoom room.now reader.new }
    ensures same { SameReader reader.old reader.new }
    ensures polled { IsPolled (view reader.old) (view reader.new) buf.new result }
    ensures steps { Stepped (stations_of room.now) (view reader.old) (view reader.new) }
{
    let seen = reader.seen();
    if reader.head() <= seen && room.look_head(reader) <= seen {
        match room.look_owner(reader) {
            Owner::Held(_) => return Polled::Waiting,
            Owner::Free(n) => {
                if n <= seen {
                    return Polled::Free(n);
                }
            }
            Owner::Closed(n) => {
                if n <= seen {
                    return Polled::Closed(n);
                }
            }
        }
        room.look_head(reader);
    }
    next_event(reader, room, buf);
    Polled::Event
}

// The next event, which is published: its lane, and then its words.
fn next_event<K: SyscallKernel>(reader: &mut Reader<K>, room: &Room<K>, buf: &mut EventBuf)
    requires of { IsOfRoom room.now reader.old }
    requires none_read { (view reader.old).read ≡ [] }
    requires published { length (view reader.old).seen < (view reader.old).head_last }
    ensures of { IsOfRoom room.now reader.new }
    ensures same { SameReader reader.old reader.new }
    ensures read { HasRead (view reader.old) (view reader.new) buf.new }
    ensures steps { Stepped (stations_of room.now) (view reader.old) (view reader.new) }
{
    find_lane(reader, room);
    read_event(reader, room, buf);
}

// Probes the lanes that live until one has the next event, which is published.
fn find_lane<K: SyscallKernel>(reader: &mut Reader<K>, room: &Room<K>)
    requires of { IsOfRoom room.now reader.old }
    requires published { length (view reader.old).seen < (view reader.old).head_last }
    ensures of { IsOfRoom room.now reader.new }
    ensures same { SameReader reader.old reader.new }
    ensures found { HasFound (view reader.old) (view reader.new) }
    ensures steps { Stepped (stations_of room.now) (view reader.old) (view reader.new) }
{
    for lane in 0..8 {
        if !reader.lives(lane) {
            continue;
        }
        if room.probe(reader, lane) {
            return;
        }
    }
}

// All words of the next event, whose lane is noted.
fn read_event<K: SyscallKernel>(reader: &mut Reader<K>, room: &Room<K>, buf: &mut EventBuf)
    requires of { IsOfRoom room.now reader.old }
    requires none_read { (view reader.old).read ≡ [] }
    requires published { length (view reader.old).seen < (view reader.old).head_last }
    requires noted { IsSome (view reader.old).noted }
    ensures of { IsOfRoom room.now reader.new }
    ensures same { SameReader reader.old reader.new }
    ensures read { HasRead (view reader.old) (view reader.new) buf.new }
    ensures steps { Stepped (stations_of room.now) (view reader.old) (view reader.new) }
{
    buf.clear();
    let mut i = 0;
    loop {
        let word = room.read_word(reader, i);
        match buf.put(word) {
            Spelt::Whole => return,
            Spelt::More => {}
        }
        i += 1;
    }
}
