//! What the seats and the room tell, and the kernel's calls through the lead.
ghost use Rattle.std.specs.Prelude.{◌≡◌, ◌+◌, ◌<◌, ◌≤◌, ◌++◌, ℕ, List, [], ◌∷◌, true, false, length, slice_index, OnOk, Contains, IsTrue, ◌↔◌};
ghost use Rattle.nv_calls.specs.Calls.{request};
ghost use Rattle.nv_calls.specs.Logs.{served, live_after, IsLawful};
ghost use Rattle.nv_calls.specs.Hands.{with_hand};
ghost use Rattle.nv_calls.specs.Learning.{GoesOn};
ghost use Rattle.nv_calls.specs.Shapes.{IsShaped};
ghost use Rattle.nv_calls.specs.Limits.{MOST_BYTES, MOST_EVENTS};
ghost use Rattle.nv_room.specs.Seats.{view, lead_view, station_of_reader, version_of_reader, station_of_lead, version_of_lead, opened_of, stations_of, versions_of, places_of, on_demand_of, kernel_of, due_of, SameLead};
ghost use Rattle.nv_room.specs.Lanes.{lives};
ghost use Rattle.nv_pool.specs.Chunks.{chunks_of};
ghost use Rattle.nv_room.specs.Placement.{pool_chunks, chunks_from};
ghost use Rattle.nv_room.specs.Logs.{lanes_after};

use crate::lanes::Lanes;
use crate::room::{Lead, Reader, Room};
use nv_calls::{Call, SyscallKernel};
use std::alloc::AllocError;

impl<K: SyscallKernel> Lead<K> {
    pub fn kernel(&self) -> &K
        ensures { result.now ≡ kernel_of self.now }
    {
        &self.kernel
    }

    /// How many events are published.
    pub fn seen(&self) -> u32
        ensures count { length (lead_view self.now).seen ≡ result }
        ensures small { result ≤ MOST_EVENTS }
    {
        self.seen
    }

    pub fn station(&self) -> u32
        ensures { result ≡ station_of_lead self.now }
    {
        self.station
    }

    /// The version that the seat began with.
    pub fn version(&self) -> u32
        ensures { result ≡ version_of_lead self.now }
    {
        self.version
    }

    /// How many stations are open.
    pub fn opened(&self) -> u32
        ensures value { result ≡ opened_of self.now }
        ensures view { (lead_view self.now).opened ≡ result }
    {
        self.opened
    }

    /// The kernel's.
    pub fn reserve(&mut self, call: &Call) -> Result<(), AllocError>
        requires shaped { IsShaped (request call.now) }
        ensures same { SameLead self.old self.new }
        ensures view { lead_view self.new ≡ lead_view self.old }
        ensures due { due_of self.new ≡ due_of self.old }
        ensures log { K.log (kernel_of self.new) ≡ K.log (kernel_of self.old) }
        ensures start { K.start (kernel_of self.new) ≡ K.start (kernel_of self.old) }
        ensures known { GoesOn (K.log (kernel_of self.old)) (K.known (kernel_of self.old)) (K.known (kernel_of self.new)) }
        ensures handed { (lengths : List ℕ) → K.handed (kernel_of self.old) lengths → K.handed (kernel_of self.new) lengths }
        ensures ready { OnOk result (K.is_ready (kernel_of self.new) (request call.now)) }
    {
        self.kernel.reserve(call)
    }

    /// The kernel's. The event that it appends is due to be published.
    pub fn serve(&mut self, call: &Call)
        requires none_due { due_of self.old ≡ false }
        requires ready { K.is_ready (kernel_of self.old) (request call.now) }
        requires shaped { IsShaped (request call.now) }
        requires lives { Contains (live_after (K.log (kernel_of self.old))) call.now.tid }
        requires few { length (K.log (kernel_of self.old)) < MOST_EVENTS }
        ensures same { SameLead self.old self.new }
        ensures view { lead_view self.new ≡ lead_view self.old }
        ensures due { due_of self.new ≡ true }
        ensures log { K.log (kernel_of self.new) ≡ K.log (kernel_of self.old) ++ served (K.known (kernel_of self.old)) (K.log (kernel_of self.old)) (request call.now) ∷ [] }
        ensures start { K.start (kernel_of self.new) ≡ K.start (kernel_of self.old) }
        ensures known { K.known (kernel_of self.new) ≡ K.known (kernel_of self.old) }
        ensures handed { (lengths : List ℕ) → K.handed (kernel_of self.old) lengths → K.handed (kernel_of self.new) lengths }
    {
        self.kernel.serve(call);
        let _end = self.kernel.ended();
        self.due = true;
    }

    /// Whether the kernel asks the lead to hand over here. Nothing of the room's changes.
    pub fn hands_over(&mut self) -> bool
        ensures same { SameLead self.old self.new }
        ensures view { lead_view self.new ≡ lead_view self.old }
        ensures due { due_of self.new ≡ due_of self.old }
        ensures log { K.log (kernel_of self.new) ≡ K.log (kernel_of self.old) }
        ensures start { K.start (kernel_of self.new) ≡ K.start (kernel_of self.old) }
        ensures known { K.known (kernel_of self.new) ≡ K.known (kernel_of self.old) }
        ensures handed { (lengths : List ℕ) → K.handed (kernel_of self.old) lengths → K.handed (kernel_of self.new) (with_hand result (length (K.log (kernel_of self.old))) lengths) }
    {
        self.kernel.hands_over()
    }

    /// No more than was last seen of a station's cursor.
    pub fn floor(&self, station: u32) -> u32
        requires { station < 16 }
        ensures { station < length (lead_view self.now).floors → result ≤ slice_index (lead_view self.now).floors station }
    {
        self.floors[station as usize]
    }

    /// Whether the chunks of the events from `floor` on and of one more, whose payloads have so many bytes, are no more than the room has.
    pub fn fits(&self, bytes: u32, floor: u32) -> bool
        requires bytes { bytes ≤ MOST_BYTES }
        requires floor { floor ≤ length (lead_view self.now).seen }
        requires near { length (lead_view self.now).seen ≤ floor + (lead_view self.now).places }
        ensures { IsTrue result ↔ (chunks_from (lead_view self.now).seen floor + chunks_of bytes ≤ pool_chunks (lead_view self.now).places) }
    {
        self.trail.pool.fits(bytes, floor)
    }

    // The kernel's history is lawful.
    pub(crate) fn tell_lawful(&self)
        ensures { IsLawful (K.log self.now.kernel) }
    {
        let _end = self.kernel.ended();
    }
}

impl<K: SyscallKernel> Reader<K> {
    /// The lanes after the events seen.
    pub fn lanes(&self) -> &Lanes
        ensures { result.now ≡ lanes_after (view self.now).seen }
    {
        &self.trail.lanes
    }

    /// Whether some thread has the lane after the events seen, or it is lane 0.
    pub fn lives(&self, lane: u32) -> bool
        requires { lane < 8 }
        ensures { result ≡ lives (lanes_after (view self.now).seen) lane }
    {
        self.trail.lanes.lives(lane)
    }

    /// How many events it has seen.
    pub fn seen(&self) -> u32
        ensures count { length (view self.now).seen ≡ result }
        ensures small { result ≤ MOST_EVENTS }
    {
        self.seen
    }

    /// No more than were published when it last looked at head.
    pub fn head(&self) -> u32
        ensures { result ≤ (view self.now).head_last }
    {
        self.head
    }

    pub fn station(&self) -> u32
        ensures { result ≡ station_of_reader self.now }
    {
        self.station
    }

    /// The version that the seat began with.
    pub fn version(&self) -> u32
        ensures { result ≡ version_of_reader self.now }
    {
        self.version
    }
}

impl<K: SyscallKernel> Room<K> {
    /// One for each version, and eight more for as many hand-overs.
    pub fn stations(&self) -> u32
        ensures value { result ≡ stations_of self.now }
        ensures few { result ≤ 16 }
    {
        self.stations
    }

    pub fn versions(&self) -> u32
        ensures value { result ≡ versions_of self.now }
        ensures few { result ≤ 8 }
    {
        self.versions
    }

    /// Whether a lead may hand over where no length is planned, too.
    pub fn on_demand(&self) -> bool
        ensures { result ≡ on_demand_of self.now }
    {
        self.on_demand
    }

    /// How many events the room holds at once.
    pub fn places(&self) -> u32
        ensures value { result ≡ places_of self.now }
        ensures least { 2 ≤ result }
        ensures most { result ≤ 1024 }
    {
        self.places
    }
}
