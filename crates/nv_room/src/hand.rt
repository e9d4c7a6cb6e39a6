//! The steps with which a lead gives the kernel up, a reader takes it, and a station leaves.
ghost use Rattle.std.specs.Prelude.{◌≡◌, ℕ, ◌<◌, ◌≤◌, ◌⊎◌, [], ◌∷◌, true, false, length, map, Some};
ghost use Rattle.nv_calls.specs.Logs.{live_after};
ghost use Rattle.nv_words.specs.Spelling.{spell};
ghost use Rattle.nv_room.specs.Owner.{free, closed, owner_word, owner_at, is_free, is_closed};
ghost use Rattle.nv_room.specs.Steps.{as_leaving, as_lead, as_gone};
ghost use Rattle.nv_room.specs.Seats.{IsOfRoom, IsLeadOf, IsLeavingOf, IsLeftOf, view, lead_view, leaving_view, left_view, station_of_reader, version_of_reader, station_of_lead, version_of_lead, station_of_leaving, version_of_leaving, station_of_left, version_of_left, kernel_of, due_of, origin, AskedSoFar};

use crate::plays::{GiveUp, Leave, Take};
use crate::room::{Lead, Leaving, Left, Reader, Room, STATIONS};
use crate::steps::{FIRST_CURSOR, GONE, LINE, OWNER};
use nv_calls::SyscallKernel;

const HELD: u64 = 1;

const CLOSED: u64 = 2;

impl<K: SyscallKernel> Lead<K> {
    // The owner word of a room that is free at head.
    fn free_word(&self) -> u64
        requires { (self.now.station < 16) × (self.now.opened ≤ 16) }
        ensures { result ≡ owner_word free self.now.station self.now.opened self.now.seen }
    {
        ((self.seen as u64 * 32 + self.opened as u64) * 16 + self.station as u64) * 4
    }
}

impl<K: SyscallKernel> Room<K> {
    /// The kernel goes home, and the room is free at head.
    pub fn retire_step(&self, lead: Lead<K>) -> Leaving<K>
        requires of { IsLeadOf self.now lead }
        requires none_due { due_of lead ≡ false }
        requires asked { AskedSoFar self.now lead }
        ensures of { IsLeavingOf self.now result }
        ensures station { (station_of_leaving result ≡ station_of_lead lead) × (version_of_leaving result ≡ version_of_lead lead) }
        ensures view { leaving_view result ≡ as_leaving (lead_view lead) (leaving_view result).owner_last }
        ensures given { (is_free (leaving_view result).owner_last ≡ true) × (owner_at (leaving_view result).owner_last ≡ length (lead_view lead).seen) }
        ensures log { (leaving_view result).seen ≡ map spell (K.log (kernel_of lead)) }
    {
        let word = lead.free_word();
        self.give_up(lead, word)
    }

    /// The kernel, which has ended, goes home, and the room is closed at head.
    pub fn close_step(&self, lead: Lead<K>) -> Leaving<K>
        requires of { IsLeadOf self.now lead }
        requires none_due { due_of lead ≡ false }
        requires asked { AskedSoFar self.now lead }
        requires ended { live_after (K.log (kernel_of lead)) ≡ [] }
        ensures of { IsLeavingOf self.now result }
        ensures station { (station_of_leaving result ≡ station_of_lead lead) × (version_of_leaving result ≡ version_of_lead lead) }
        ensures view { leaving_view result ≡ as_leaving (lead_view lead) (leaving_view result).owner_last }
        ensures given { (is_closed (leaving_view result).owner_last ≡ true) × (owner_at (leaving_view result).owner_last ≡ length (lead_view lead).seen) }
        ensures log { (leaving_view result).seen ≡ map spell (K.log (kernel_of lead)) }
    {
        let word = lead.free_word() + CLOSED;
        self.give_up(lead, word)
    }

    // The kernel goes home, and the owner word becomes this one.
    fn give_up(&self, lead: Lead<K>, word: u64) -> Leaving<K>
        requires of { IsLeadOf self.now lead }
        requires none_due { due_of lead ≡ false }
        requires asked { AskedSoFar self.now lead }
        requires word { (word ≡ owner_word free lead.station lead.opened lead.seen) ⊎ ((word ≡ owner_word closed lead.station lead.opened lead.seen) × (live_after (K.log (kernel_of lead)) ≡ [])) }
        ensures of { IsLeavingOf self.now result }
        ensures station { (station_of_leaving result ≡ station_of_lead lead) × (version_of_leaving result ≡ version_of_lead lead) }
        ensures view { leaving_view result ≡ as_leaving (lead_view lead) word }
        ensures log { (leaving_view result).seen ≡ map spell (K.log (kernel_of lead)) }
    {
        lead.tell_lawful();
        let Lead {
            mut seat,
            kernel,
            station,
            version,
            opened: _,
            seen,
            wrote: _,
            due: _,
            floors: _,
            spot: _,
            trail: _,
        } = lead;
        let inside = self.table.shared.exchange(&mut seat, 0, Some(kernel));
        match inside {
            None => {}
            Some(_) => unreachable!(),
        }
        self.table.shared.store::<GiveUp>(&mut seat, OWNER, word);
        Leaving {
            seat,
            station,
            version,
            seen,
        }
    }

    /// The kernel comes to the reader, with the history that it has seen. What it has asked for since the room was made is what the
    /// lead's view tells.
    pub fn take_step(&self, reader: Reader<K>) -> Lead<K>
        requires of { IsOfRoom self.now reader }
        requires freed { (view reader).freed ≡ Some (length (view reader).seen) }
        ensures of { IsLeadOf self.now result }
        ensures station { (station_of_lead result ≡ station_of_reader reader) × (version_of_lead result ≡ version_of_reader reader) }
        ensures view { lead_view result ≡ as_lead (lead_view result).asked (view reader) }
        ensures due { due_of result ≡ false }
        ensures log { map spell (K.log (kernel_of result)) ≡ (view reader).seen }
        ensures start { K.start (kernel_of result) ≡ K.start (origin self.now) }
        ensures asked { AskedSoFar self.now result }
    {
        let Reader {
            mut seat,
            station,
            version,
            opened,
            seen,
            read: _,
            head: _,
            trail,
            spot,
        } = reader;
        let word = (opened as u64 * 16 + station as u64) * 4 + HELD;
        self.table.shared.store::<Take<K>>(&mut seat, OWNER, word);
        let inside = self.table.shared.exchange(&mut seat, 0, None);
        let Some(kernel) = inside else { unreachable!() };
        Lead {
            seat,
            kernel,
            station,
            version,
            opened,
            seen,
            wrote: 0,
            due: false,
            floors: [0; STATIONS],
            spot,
            trail,
        }
    }

    /// The station of a seat that gave the kernel up leaves.
    pub fn leave_step(&self, seat: Leaving<K>) -> Left<K>
        requires of { IsLeavingOf self.now seat }
        ensures of { IsLeftOf self.now result }
        ensures station { (station_of_left result ≡ station_of_leaving seat) × (version_of_left result ≡ version_of_leaving seat) }
        ensures view { left_view result ≡ as_gone (leaving_view seat) }
    {
        let Leaving {
            seat: mut inner,
            station,
            version,
            seen,
        } = seat;
        self.table
            .shared
            .store::<Leave>(&mut inner, LINE * (station as usize + FIRST_CURSOR), GONE);
        Left {
            seat: inner,
            station,
            version,
            seen,
        }
    }

    /// The station of a reader leaves.
    pub fn leave_reader(&self, reader: Reader<K>) -> Left<K>
        requires of { IsOfRoom self.now reader }
        ensures of { IsLeftOf self.now result }
        ensures station { (station_of_left result ≡ station_of_reader reader) × (version_of_left result ≡ version_of_reader reader) }
        ensures view { left_view result ≡ as_gone (view reader) }
    {
        let Reader {
            mut seat,
            station,
            version,
            opened: _,
            seen,
            read: _,
            head: _,
            trail: _,
            spot: _,
        } = reader;
        self.table
            .shared
            .store::<Leave>(&mut seat, LINE * (station as usize + FIRST_CURSOR), GONE);
        Left {
            seat,
            station,
            version,
            seen,
        }
    }
}
