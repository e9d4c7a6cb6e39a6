//! A reader's turn.
ghost use Rattle.std.specs.Prelude.{◌≡◌, ◌≤◌, ℕ, [], true, length};
ghost use Rattle.nv_threads.specs.Threads.{Proc};
ghost use Rattle.nv_room.specs.Kinds.{Stepped};
ghost use Rattle.nv_room.specs.Seats.{IsOfRoom, SameReader, stations_of, view, version_of_reader, on_demand_of};
ghost use Rattle.nv_room.specs.Steps.{TellsEnd};
ghost use Rattle.nv_workers.specs.Terms.{judges_of};
ghost use Rattle.nv_workers.specs.Working.{FollowsOn, HasFound};
ghost use Rattle.nv_workers.specs.Growing.{OneMoreAtMost};
ghost use Rattle.nv_workers.specs.Follows.{AfterTurn, HasGrown, IsIdle, IsBusy, IsFound, IsWaiting};
ghost use Rattle.nv_workers.specs.inner.Spares.{HasSpared, MayBeAhead};

use crate::gate::{Gate, VersionNumber};
use crate::terms::Terms;
use nv_calls::{Event, SyscallKernel};
use nv_lamport::{Polled, poll_merged};
use nv_promotion::{Lower, lower_gone};
use nv_replay::{Followed, Version};
use nv_ring::advance;
use nv_room::{Reader, Room};
use nv_words::EventBuf;

/// What comes next for a station.
#[derive(Clone, Copy, Debug, PartialEq, Eq, Drop)]
pub(crate) enum Next {
    /// It goes on.
    Moved,
    /// It waits for another station, and its version goes on meanwhile.
    Ahead,
    /// It waits for another station.
    Waits,
    /// It takes the lead.
    Leads,
    /// It hands over.
    Hands,
    /// Its version has ended.
    Leaves,
    /// It left in an earlier turn.
    Left,
}

// What a look for the next event finds.
enum Found {
    // The event, all of whose words are read.
    Event,
    // Another station leads, or is to lead before this one.
    Held,
    // It is this station's turn to lead.
    Free,
}

/// Polls, unless an event is held, and makes one decision on the event.
pub(crate) fn follow_turn<K: SyscallKernel, G: Gate>(
    version: &mut Version,
    reader: &mut Reader<K>,
    held: &mut bool,
    buf: &mut EventBuf,
    spare: &mut u32,
    room: &Room<K>,
    terms: &Terms<'_, G>,
) -> Next
    requires { (most : ℕ) × (p : Proc) × FollowsOn (judges_of terms.now) room.now most p version.old reader.old held.old buf.old }
    ensures same { SameReader reader.old reader.new }
    ensures after { (most : ℕ) (p : Proc) → FollowsOn (judges_of terms.now) room.now most p version.old reader.old held.old buf.old → AfterTurn (judges_of terms.now) room.now most p version.new reader.new held.new buf.new result }
    ensures grown { HasGrown (view reader.old) (view reader.new) version.old version.new result }
    ensures idle { IsIdle (view reader.old) (view reader.new) result }
    ensures one { OneMoreAtMost (length (view reader.old).seen) (length (view reader.new).seen) }
    ensures rewrites { version.old.at.rewrites ≤ version.new.at.rewrites }
    ensures steps { Stepped (stations_of room.now) (view reader.old) (view reader.new) }
    ensures spare { HasSpared spare.old spare.new result }
    ensures goes { MayBeAhead result version.old }
{
    if *held {
        return decide(version, reader, held, buf, room, terms);
    }
    match find_event(reader, room, buf) {
        Found::Event => {
            *held = true;
            begin_event(version, reader, held, buf, room, terms)
        }
        Found::Held => go_ahead(version, spare),
        Found::Free => Next::Leads,
    }
}

// The turn steps that a version which waits goes ahead in a turn, of 1,000 instructions at most: then its worker looks again
// for the event, and the others of its thread have their turns.
const STEPS: u32 = 10;

// While its station waits, a version goes on towards its next call, in `spare` turns at most.
fn go_ahead(version: &mut Version, spare: &mut u32) -> Next
    ensures same { version.new ≡ version.old }
    ensures waits { IsWaiting result }
    ensures spare { HasSpared spare.old spare.new result }
    ensures goes { MayBeAhead result version.old }
{
    let Some(left) = spare.checked_sub(1) else {
        return Next::Waits;
    };
    if version.run_ahead(STEPS) {
        *spare = left;
        Next::Ahead
    } else {
        Next::Waits
    }
}

// Polls, and where no station leads and all lower ones have left, polls again.
fn find_event<K: SyscallKernel>(reader: &mut Reader<K>, room: &Room<K>, buf: &mut EventBuf) -> Found
    requires of { IsOfRoom room.now reader.old }
    requires none_read { (view reader.old).read ≡ [] }
    requires goes_on { TellsEnd (view reader.old).seen → ⊥ }
    ensures of { IsOfRoom room.now reader.new }
    ensures same { SameReader reader.old reader.new }
    ensures found { IsFound (view reader.old) (view reader.new) buf.new result }
    ensures steps { Stepped (stations_of room.now) (view reader.old) (view reader.new) }
{
    let polled = poll_merged(reader, room, buf);
    match polled {
        Polled::Event => return Found::Event,
        Polled::Waiting => return Found::Held,
        Polled::Free(_) => {}
        Polled::Closed(_) => unreachable!(),
    }
    match lower_gone(reader, room) {
        Lower::Alive(_) => return Found::Held,
        Lower::AllGone => {}
    }
    let again = poll_merged(reader, room, buf);
    match again {
        Polled::Event => Found::Event,
        Polled::Free(_) => Found::Free,
        Polled::Waiting | Polled::Closed(_) => unreachable!(),
    }
}

// The next event was found: the version is let go before it, or makes its first decision on it.
fn begin_event<K: SyscallKernel, G: Gate>(
    version: &mut Version,
    reader: &mut Reader<K>,
    held: &mut bool,
    buf: &EventBuf,
    room: &Room<K>,
    terms: &Terms<'_, G>,
) -> Next
    requires found { (most : ℕ) × (p : Proc) × HasFound (judges_of terms.now) room.now most p version.old reader.old buf.now }
    requires held { held.old ≡ true }
    ensures same { SameReader reader.old reader.new }
    ensures after { (most : ℕ) (p : Proc) → HasFound (judges_of terms.now) room.now most p version.old reader.old buf.now → AfterTurn (judges_of terms.now) room.now most p version.new reader.new held.new buf.now result }
    ensures grown { HasGrown (view reader.old) (view reader.new) version.old version.new result }
    ensures busy { IsBusy result }
    ensures one { OneMoreAtMost (length (view reader.old).seen) (length (view reader.new).seen) }
    ensures rewrites { version.old.at.rewrites ≤ version.new.at.rewrites }
    ensures steps { Stepped (stations_of room.now) (view reader.old) (view reader.new) }
{
    let over = is_let_go(version, reader, room, terms.gate);
    if over {
        version.let_go();
        return Next::Leaves;
    }
    decide(version, reader, held, buf, room, terms)
}

// Whether the gate has the version let go, which it may only where leaders hand over on demand, too.
fn is_let_go<K: SyscallKernel, G: Gate>(
    version: &Version,
    reader: &Reader<K>,
    room: &Room<K>,
    gate: &G,
) -> bool
    ensures { result ≡ true → on_demand_of room.now ≡ true }
{
    room.on_demand() && gate.lets_go(follower(reader), version.standing().seen)
}

// One decision on the event that is held.
fn decide<K: SyscallKernel, G: Gate>(
    version: &mut Version,
    reader: &mut Reader<K>,
    held: &mut bool,
    buf: &EventBuf,
    room: &Room<K>,
    terms: &Terms<'_, G>,
) -> Next
    requires follows { (most : ℕ) × (p : Proc) × FollowsOn (judges_of terms.now) room.now most p version.old reader.old true buf.now }
    requires held { held.old ≡ true }
    ensures same { SameReader reader.old reader.new }
    ensures after { (most : ℕ) (p : Proc) → FollowsOn (judges_of terms.now) room.now most p version.old reader.old true buf.now → AfterTurn (judges_of terms.now) room.now most p version.new reader.new held.new buf.now result }
    ensures grown { HasGrown (view reader.old) (view reader.new) version.old version.new result }
    ensures busy { IsBusy result }
    ensures one { OneMoreAtMost (length (view reader.old).seen) (length (view reader.new).seen) }
    ensures rewrites { version.old.at.rewrites ≤ version.new.at.rewrites }
    ensures steps { Stepped (stations_of room.now) (view reader.old) (view reader.new) }
{
    let event = buf.event();
    let followed = version.follow(terms.rules, event);
    tell_rewrite(version, reader, event, followed, terms.gate);
    match followed {
        Followed::Rewrote(_) => Next::Moved,
        Followed::Dropped(_) => Next::Leaves,
        Followed::Matched | Followed::Skipped | Followed::Took => {
            advance(reader, room);
            *held = false;
            terms.gate.after_take(follower(reader), event.stamp);
            if version.standing().fate.is_some() {
                return Next::Leaves;
            }
            Next::Moved
        }
    }
}

// The gate is told where a rule decided, and the version goes on.
fn tell_rewrite<K: SyscallKernel, G: Gate>(
    version: &Version,
    reader: &Reader<K>,
    event: &Event,
    followed: Followed,
    gate: &G,
) {
    match followed {
        Followed::Rewrote(_) | Followed::Skipped | Followed::Took => {
            gate.at_rewrite(follower(reader), event, version.standing().rewrites);
        }
        Followed::Matched | Followed::Dropped(_) => {}
    }
}

// The version that follows, whatever its station's number is.
fn follower<K: SyscallKernel>(reader: &Reader<K>) -> VersionNumber
    ensures { result.0 ≡ version_of_reader reader.now }
{
    VersionNumber(reader.version())
}
