//! A version with its seat.
ghost use Rattle.std.specs.Prelude.{◌≡◌, ◌≤◌, ℕ, List, None, true, false, length, Some, IfOk};
ghost use Rattle.nv_threads.specs.Threads.{Proc, threads};
ghost use Rattle.nv_replay.specs.Follow.{Judge};
ghost use Rattle.nv_replay.specs.Version.{IsFresh, Running};
ghost use Rattle.nv_room.specs.Kinds.{Stepped};
ghost use Rattle.nv_room.specs.Seats.{IsLeadOf, IsLeftOf, version_of_lead, version_of_reader, version_of_left, stations_of, view, lead_view, left_view, due_of, AskedSoFar};
ghost use Rattle.nv_room.specs.Steps.{as_gone, as_leaving};
ghost use Rattle.nv_workers.specs.Terms.{AreOfRoom, judges_of};
ghost use Rattle.nv_workers.specs.Working.{FollowsOn, LeadsOn};
ghost use Rattle.nv_workers.specs.Growing.{OneMoreAtMost, SparesOn, GoesOnly};
ghost use Rattle.nv_workers.specs.Measure.{Falls, seat_left};
ghost use Rattle.nv_workers.specs.Worker.{Works, WorksAt, IsGone, IsLast, TookLead, TurnTells, version_of, version_of_seat, seen_by};
ghost use Rattle.nv_workers.specs.inner.Stepping.{CanLead, CanHand, CanLeave, AfterStep, StepTells};
ghost use Rattle.nv_workers.specs.inner.Spares.{HasSpared, MayBeAhead};
ghost use Rattle.nv_workers.specs.Views.{GoesBySteps};
ghost use Rattle.nv_workers.specs.Staffing.{IsNewLead, IsNewReader, LeadsAnew, ReadsAnew};

use crate::follows::{Next, follow_turn};
use crate::gate::{Gate, VersionNumber};
use crate::leads::{lead_turn, leader};
use crate::terms::Terms;
use nv_calls::SyscallKernel;
use nv_promotion::{close, hand, leave, retire, take};
use nv_replay::{Standing, Version};
use nv_room::{Lead, Left, Reader, Room};
use nv_words::EventBuf;
use std::alloc::{AllocError, Global};
use std::mem;

/// What a turn came to.
#[derive(Clone, Copy, Debug, PartialEq, Eq, Drop)]
pub enum Turn {
    /// The worker got on.
    Moved,
    /// It waits for another station, and its version goes on meanwhile.
    Ahead,
    /// It waits for another station.
    Waiting,
    /// The version has ended and its station has left.
    Done,
}

/// The seat of a worker.
#[derive(Drop)]
pub(crate) enum Seat<K: SyscallKernel> {
    /// `held` says that the next event is read and not yet consumed.
    Reading { reader: Reader<K>, held: bool },
    /// The thread whose call is asked and not yet served.
    Leading { lead: Lead<K>, asked: Option<u32> },
    Gone { left: Left<K> },
    /// Only while the seat changes.
    Moving,
}

// In how many turns a version may go on while it waits. One that has used them up waits as any other, and its calls come later.
const MOST_AHEAD: u32 = 1_000_000_000;

/// A version with its seat in a room.
#[derive(Drop)]
pub struct Worker<K: SyscallKernel> {
    pub(crate) version: Version,
    pub(crate) seat: Seat<K>,
    pub(crate) buf: EventBuf,
    /// In so many turns its version may still go on while it waits.
    pub(crate) spare: u32,
}

impl<K: SyscallKernel> Worker<K> {
    /// The version that leads first, with the lead of a room as it was made; memory is for one event.
    pub fn lead(alloc: Global, version: Version, lead: Lead<K>) -> Result<Worker<K>, AllocError>
        requires fresh { IsFresh threads 0 version }
        requires seat { IsNewLead lead }
        ensures { IfOk result (LeadsAnew version lead) }
    {
        let buf = EventBuf::make(alloc)?;
        Ok(Worker::leading(buf, version, lead))
    }

    // The same with memory for one event.
    pub(crate) fn leading(buf: EventBuf, mut version: Version, lead: Lead<K>) -> Worker<K>
        requires fresh { IsFresh threads 0 version }
        requires seat { IsNewLead lead }
        ensures { LeadsAnew version lead result }
    {
        version.begin_lead();
        let seat = Seat::Leading { lead, asked: None };
        let spare = MOST_AHEAD;
        Worker {
            version,
            seat,
            buf,
            spare,
        }
    }

    /// A version that follows, with the reader of its station as it was made; memory is for one event.
    pub fn reader(
        alloc: Global,
        version: Version,
        reader: Reader<K>,
    ) -> Result<Worker<K>, AllocError>
        requires fresh { IsFresh threads (version_of_reader reader) version }
        requires seat { IsNewReader reader }
        ensures { IfOk result (ReadsAnew version reader) }
    {
        let buf = EventBuf::make(alloc)?;
        Ok(Worker::reading(buf, version, reader))
    }

    // The same with memory for one event.
    pub(crate) fn reading(buf: EventBuf, version: Version, reader: Reader<K>) -> Worker<K>
        requires fresh { IsFresh threads (version_of_reader reader) version }
        requires seat { IsNewReader reader }
        ensures { ReadsAnew version reader result }
    {
        let seat = Seat::Reading {
            reader,
            held: false,
        };
        let spare = MOST_AHEAD;
        Worker {
            version,
            seat,
            buf,
            spare,
        }
    }

    /// One turn: at most one event is consumed or served. A version that was a stage of its run, fresh with some process, is one
    /// from the same process after it.
    pub fn turn<G: Gate>(&mut self, room: &Room<K>, terms: &Terms<'_, G>) -> Turn
        requires works { (p : Proc) × Works (judges_of terms.now) room.now terms.now.most p self.old }
        requires terms { AreOfRoom room.now terms.now }
        ensures works { (p : Proc) → Works (judges_of terms.now) room.now terms.now.most p self.old → Works (judges_of terms.now) room.now terms.now.most p self.new }
        ensures version { version_of self.new ≡ version_of self.old }
        ensures last { IsLast result self.new.seat }
        ensures tells { TurnTells room.now result self.old.version self.new.version self.old.seat self.new.seat }
        ensures one { OneMoreAtMost (seen_by self.old.seat) (seen_by self.new.seat) }
        ensures rewrites { self.old.version.at.rewrites ≤ self.new.version.at.rewrites }
        ensures spare { SparesOn result self.old.spare self.new.spare }
        ensures goes { GoesOnly result self.old.version }
        ensures falls { Falls result self.old self.new }
        ensures steps { GoesBySteps (stations_of room.now) self.old.seat self.new.seat }
    {
        match self.step(room, terms) {
            Next::Moved => {
                let _few = self.version.rewrites();
                Turn::Moved
            }
            Next::Ahead => Turn::Ahead,
            Next::Waits => Turn::Waiting,
            Next::Leads => {
                self.promote(room, terms.gate);
                Turn::Moved
            }
            Next::Hands => {
                self.hand_over(room);
                Turn::Moved
            }
            Next::Leaves => {
                self.depart(room, terms.gate);
                Turn::Done
            }
            Next::Left => Turn::Done,
        }
    }

    // The seat is lent, and stays where it is: a lead has the kernel in it.
    fn step<G: Gate>(&mut self, room: &Room<K>, terms: &Terms<'_, G>) -> Next
        requires works { (p : Proc) × Works (judges_of terms.now) room.now terms.now.most p self.old }
        requires terms { AreOfRoom room.now terms.now }
        ensures after { (p : Proc) → Works (judges_of terms.now) room.now terms.now.most p self.old → AfterStep (judges_of terms.now) room.now p self.new.version terms.now.most self.new.buf self.new.seat result }
        ensures version { version_of self.new ≡ version_of self.old }
        ensures tells { StepTells room.now result self.old.version self.new.version self.old.seat self.new.seat }
        ensures one { OneMoreAtMost (seen_by self.old.seat) (seen_by self.new.seat) }
        ensures rewrites { self.old.version.at.rewrites ≤ self.new.version.at.rewrites }
        ensures spare { HasSpared self.old.spare self.new.spare result }
        ensures goes { MayBeAhead result self.old.version }
        ensures seat { seat_left self.new.seat ≡ seat_left self.old.seat }
        ensures steps { GoesBySteps (stations_of room.now) self.old.seat self.new.seat }
    {
        match &mut self.seat {
            Seat::Reading { reader, held } => follow_turn(
                &mut self.version,
                reader,
                held,
                &mut self.buf,
                &mut self.spare,
                room,
                terms,
            ),
            Seat::Leading { lead, asked } => lead_turn(&mut self.version, lead, asked, room, terms),
            Seat::Gone { .. } => Next::Left,
            Seat::Moving => unreachable!(),
        }
    }

    // The reader's seat becomes the lead. Out of line, so that a turn's frame has no seat in it.
    #[inline(never)]
    fn promote<G: Gate>(&mut self, room: &Room<K>, gate: &G)
        requires can { (judges : ℕ → Judge) × (most : ℕ) × (p : Proc) × CanLead judges room.now p self.old.version most self.old.buf self.old.seat }
        ensures works { (judges : ℕ → Judge) (most : ℕ) (p : Proc) → CanLead judges room.now p self.old.version most self.old.buf self.old.seat → Works judges room.now most p self.new }
        ensures version { version_of self.new ≡ version_of self.old }
        ensures seen { seen_by self.new.seat ≡ seen_by self.old.seat }
        ensures leads { TookLead self.old.seat self.new.seat }
        ensures on { self.new.version.at.fate ≡ None }
        ensures rewrites { self.new.version.at.rewrites ≡ self.old.version.at.rewrites }
        ensures spare { self.new.spare ≡ self.old.spare }
        ensures steps { GoesBySteps (stations_of room.now) self.old.seat self.new.seat }
    {
        let seat = mem::replace(&mut self.seat, Seat::Moving);
        let Seat::Reading { reader, held: _ } = seat else {
            unreachable!()
        };
        let lead = take_lead(&mut self.version, reader, room);
        gate.at_lead(leader(&lead), lead.seen());
        self.seat = Seat::Leading { lead, asked: None };
    }

    // The version gives up the lead, and its seat reads on at a new station. Out of line as well.
    #[inline(never)]
    fn hand_over(&mut self, room: &Room<K>)
        requires can { (judges : ℕ → Judge) × (most : ℕ) × (p : Proc) × CanHand judges room.now p self.old.version most self.old.seat }
        ensures works { (judges : ℕ → Judge) (most : ℕ) (p : Proc) → CanHand judges room.now p self.old.version most self.old.seat → Works judges room.now most p self.new }
        ensures version { version_of self.new ≡ version_of self.old }
        ensures seen { seen_by self.new.seat ≡ seen_by self.old.seat }
        ensures stays { ¬ IsGone self.new.seat }
        ensures fate { self.new.version.at.fate ≡ self.old.version.at.fate }
        ensures rewrites { self.new.version.at.rewrites ≡ self.old.version.at.rewrites }
        ensures spare { self.new.spare ≡ self.old.spare }
        ensures steps { GoesBySteps (stations_of room.now) self.old.seat self.new.seat }
    {
        let seat = mem::replace(&mut self.seat, Seat::Moving);
        let Seat::Leading { lead, asked: _ } = seat else {
            unreachable!()
        };
        let reader = give_lead(&mut self.version, lead, room);
        let held = false;
        self.seat = Seat::Reading { reader, held };
    }

    // The seat leaves. Out of line as well.
    #[inline(never)]
    fn depart<G: Gate>(&mut self, room: &Room<K>, gate: &G)
        requires can { (judges : ℕ → Judge) × (most : ℕ) × (p : Proc) × CanLeave judges room.now p self.old.version most self.old.seat }
        ensures works { (judges : ℕ → Judge) (most : ℕ) (p : Proc) → CanLeave judges room.now p self.old.version most self.old.seat → Works judges room.now most p self.new }
        ensures version { version_of self.new ≡ version_of self.old }
        ensures seen { seen_by self.new.seat ≡ seen_by self.old.seat }
        ensures gone { IsGone self.new.seat }
        ensures same { self.new.version ≡ self.old.version }
        ensures spare { self.new.spare ≡ self.old.spare }
        ensures steps { GoesBySteps (stations_of room.now) self.old.seat self.new.seat }
    {
        let seat = mem::replace(&mut self.seat, Seat::Moving);
        let left = vacate(seat, self.version.standing(), room, gate);
        self.seat = Seat::Gone { left };
    }
}

// The seat of a version that has its fate leaves.
fn vacate<K: SyscallKernel, G: Gate>(
    seat: Seat<K>,
    standing: &Standing,
    room: &Room<K>,
    gate: &G,
) -> Left<K>
    requires can { (judges : ℕ → Judge) × (most : ℕ) × (p : Proc) × (v : Running Proc) × CanLeave judges room.now p v most seat }
    ensures works { (judges : ℕ → Judge) (most : ℕ) (p : Proc) (v : Running Proc) (buf : List ℕ) → CanLeave judges room.now p v most seat → WorksAt judges room.now most p v buf (Seat.Gone result) }
    ensures version { version_of_left result ≡ version_of_seat seat }
    ensures seen { length (left_view result).seen ≡ seen_by seat }
    ensures steps { GoesBySteps (stations_of room.now) seat (Seat.Gone result) }
{
    match seat {
        Seat::Reading { reader, held: _ } => {
            gate.at_end(VersionNumber(reader.version()), standing);
            leave(reader, room)
        }
        Seat::Leading { lead, asked: _ } => {
            gate.at_end(leader(&lead), standing);
            give_up(lead, room)
        }
        Seat::Gone { .. } | Seat::Moving => unreachable!(),
    }
}

// The version leads from here on.
fn take_lead<K: SyscallKernel>(version: &mut Version, reader: Reader<K>, room: &Room<K>) -> Lead<K>
    requires follows { (judges : ℕ → Judge) × (most : ℕ) × (p : Proc) × (buf : List ℕ) × FollowsOn judges room.now most p version.old reader false buf }
    requires freed { (view reader).freed ≡ Some (length (view reader).seen) }
    ensures leads { (judges : ℕ → Judge) (most : ℕ) (p : Proc) (buf : List ℕ) → FollowsOn judges room.now most p version.old reader false buf → LeadsOn judges room.now most p version.new false result None }
    ensures version { version_of_lead result ≡ version_of_reader reader }
    ensures seen { (lead_view result).seen ≡ (view reader).seen }
    ensures on { version.new.at.fate ≡ None }
    ensures rewrites { version.new.at.rewrites ≡ version.old.at.rewrites }
    ensures steps { Stepped (stations_of room.now) (view reader) (lead_view result) }
{
    version.begin_lead();
    let lead = take(reader, room);
    let _end = lead.kernel().ended();
    lead
}

// The version gives up the lead, and follows on from here as the last in the order.
fn give_lead<K: SyscallKernel>(version: &mut Version, lead: Lead<K>, room: &Room<K>) -> Reader<K>
    requires leads { (judges : ℕ → Judge) × (most : ℕ) × (p : Proc) × LeadsOn judges room.now most p version.old true lead None }
    ensures follows { (judges : ℕ → Judge) (most : ℕ) (p : Proc) (buf : List ℕ) → LeadsOn judges room.now most p version.old true lead None → FollowsOn judges room.now most p version.new result false buf }
    ensures version { version_of_reader result ≡ version_of_lead lead }
    ensures seen { (view result).seen ≡ (lead_view lead).seen }
    ensures fate { version.new.at.fate ≡ version.old.at.fate }
    ensures rewrites { version.new.at.rewrites ≡ version.old.at.rewrites }
    ensures steps { Stepped (stations_of room.now) (lead_view lead) (view result) }
{
    version.end_lead();
    hand(lead, room)
}

// The kernel goes home; where it has ended nobody leads after.
fn give_up<K: SyscallKernel>(lead: Lead<K>, room: &Room<K>) -> Left<K>
    requires of { IsLeadOf room.now lead }
    requires none_due { due_of lead ≡ false }
    requires asked { AskedSoFar room.now lead }
    ensures of { IsLeftOf room.now result }
    ensures version { version_of_left result ≡ version_of_lead lead }
    ensures view { left_view result ≡ as_gone (as_leaving (lead_view lead) (left_view result).owner_last) }
{
    if lead.kernel().ended().is_some() {
        return close(lead, room);
    }
    retire(lead, room)
}
