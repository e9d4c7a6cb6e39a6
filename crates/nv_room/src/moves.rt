//! The steps with which a lead hands over, and reads on at a new station, the last.
ghost use Rattle.std.specs.Prelude.{◌≡◌, ◌<◌, ◌≤◌, [], ◌∷◌, true, false, length};
ghost use Rattle.nv_calls.specs.Logs.{IsLawful};
ghost use Rattle.nv_room.specs.Owner.{is_free, owner_at, opened_at};
ghost use Rattle.nv_room.specs.Planned.{asked_then};
ghost use Rattle.nv_room.specs.Spans.{LastHasEvent};
ghost use Rattle.nv_room.specs.Room.{MayHand, Became};
ghost use Rattle.nv_room.specs.Steps.{as_opening, as_moving, as_reader};
ghost use Rattle.nv_room.specs.Seats.{IsOfRoom, IsLeadOf, IsOpeningOf, IsMovingOf, view, lead_view, opening_view, opening_kernel, moving_view, kernel_of, due_of, stations_of, hands_of, origin};

use crate::plays::{Hand, LookSpare, Move, OpenNext};
use crate::room::{Lead, Moving, Opening, Reader, Room};
use crate::steps::{FIRST_CURSOR, GONE, HEAD, LINE, OWNER};
use nv_calls::SyscallKernel;

impl<K: SyscallKernel> Room<K> {
    /// The first station that isn't open gets head as its cursor. There is one wherever the log has just reached a planned
    /// length, or where more stations are left than there are planned lengths above it.
    pub fn open_step(&self, lead: Lead<K>) -> Opening<K>
        requires of { IsLeadOf self.now lead }
        requires none_due { due_of lead ≡ false }
        requires may { MayHand (stations_of self.now) (hands_of self.now) (lead_view lead).opened (length (lead_view lead).seen) }
        requires led { LastHasEvent (lead_view lead).spans }
        ensures of { IsOpeningOf self.now result }
        ensures view { opening_view result ≡ as_opening (lead_view lead) }
        ensures above { (lead_view lead).station < (lead_view lead).opened }
        ensures kernel { opening_kernel result ≡ kernel_of lead }
    {
        let Lead {
            mut seat,
            kernel,
            station,
            version,
            opened,
            seen,
            wrote: _,
            due: _,
            floors: _,
            spot,
            trail,
        } = lead;
        // Changes nothing; that there is such a station is what it tells.
        let _head = self.table.shared.load::<LookSpare>(&mut seat, HEAD);
        self.table.shared.store::<OpenNext>(
            &mut seat,
            LINE * (opened as usize + FIRST_CURSOR),
            seen as u64,
        );
        Opening {
            seat,
            kernel,
            station,
            version,
            opened,
            seen,
            spot,
            trail,
        }
    }

    /// The kernel goes home, the room is free at head, and the new station is open. Where no length is planned the kernel has just
    /// asked for it.
    pub fn hand_step(&self, opening: Opening<K>) -> Moving<K>
        requires of { IsOpeningOf self.now opening }
        requires asked { Became K.start K.handed (origin self.now) (opening_kernel opening) (asked_then (hands_of self.now) (length (opening_view opening).seen) (opening_view opening).asked) }
        ensures of { IsMovingOf self.now result }
        ensures view { moving_view result ≡ as_moving (opening_view opening) (moving_view result).owner_last }
        ensures given { (is_free (moving_view result).owner_last ≡ true) × (owner_at (moving_view result).owner_last ≡ length (opening_view opening).seen) }
    {
        opening.tell_lawful();
        let Opening {
            mut seat,
            kernel,
            station,
            version,
            opened,
            seen,
            spot,
            trail,
        } = opening;
        let inside = self.table.shared.exchange(&mut seat, 0, Some(kernel));
        match inside {
            None => {}
            Some(_) => unreachable!(),
        }
        let word = ((seen as u64 * 32 + (opened as u64 + 1)) * 16 + station as u64) * 4;
        self.table.shared.store::<Hand>(&mut seat, OWNER, word);
        Moving {
            seat,
            former: station,
            station: opened,
            version,
            opened: opened + 1,
            seen,
            spot,
            trail,
        }
    }

    /// The former station leaves, and the seat reads on at the new one.
    pub fn move_step(&self, moving: Moving<K>) -> Reader<K>
        requires of { IsMovingOf self.now moving }
        ensures of { IsOfRoom self.now result }
        ensures view { view result ≡ as_reader (moving_view moving) }
    {
        let Moving {
            mut seat,
            former,
            station,
            version,
            opened,
            seen,
            spot,
            trail,
        } = moving;
        self.table
            .shared
            .store::<Move>(&mut seat, LINE * (former as usize + FIRST_CURSOR), GONE);
        Reader {
            seat,
            station,
            version,
            opened,
            seen,
            read: 0,
            head: 0,
            trail,
            spot,
        }
    }
}

impl<K: SyscallKernel> Opening<K> {
    // The kernel's history is lawful.
    fn tell_lawful(&self)
        ensures { IsLawful (K.log self.now.kernel) }
    {
        let _end = self.kernel.ended();
    }
}
