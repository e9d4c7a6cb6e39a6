//! The lanes, as far as a log tells.
ghost use Rattle.std.specs.Prelude.{◌≡◌, ◌+◌, ◌<◌, ◌≤◌, length, IfSome, Some, None, sum, slice_index};
ghost use Rattle.nv_calls.specs.Calls.{entry};
ghost use Rattle.nv_calls.specs.Limits.{MOST_EVENTS};
ghost use Rattle.nv_room.specs.Lanes.{is_of, lane_of, free_lane, lane_in, noted, noted_by, start, lives, with_holder, with_child_lane};

use nv_calls::{EXIT, Event, FIRST_THREAD, MOST_THREADS, made};
use std::marker::Model;

/// How many lanes there are: as many as threads may live.
pub const LANES: usize = MOST_THREADS;

/// Which thread has each lane, and how many events stand in it.
#[derive(Drop)]
pub struct Lanes {
    holders: [Option<u32>; LANES],
    counts: [u32; LANES],
}

impl Model for Lanes {
    ghost use Rattle.nv_room.specs.Lanes.{Taken};

    ghost Value = { Taken };

    ghost view = { λ l. record { holders = l.holders; counts = l.counts } };
}

fn is_of(holder: Option<u32>, tid: u32) -> bool
    ensures { result ≡ is_of tid holder }
{
    match holder {
        Some(other) => other == tid,
        None => false,
    }
}

#[tactic(auto, unfolding(crate::specs::Lanes::lane_of))]
fn lane_among(holders: &[Option<u32>], tid: u32) -> Option<usize>
    ensures is { result ≡ lane_of holders.now tid }
    ensures inside { IfSome result (λ lane. lane < length holders.now) }
{
    holders.iter().position(|holder| is_of(*holder, tid))
}

#[tactic(auto, unfolding(crate::specs::Lanes::free_lane))]
fn free_among(holders: &[Option<u32>]) -> Option<usize>
    ensures is { result ≡ free_lane holders.now }
    ensures inside { IfSome result (λ lane. lane < length holders.now) }
{
    holders.iter().position(|holder| holder.is_none())
}

impl Lanes {
    /// Before any event: thread 100 has lane 0.
    #[tactic(auto, unfolding(crate::specs::Lanes::start))]
    pub fn start() -> Lanes
        ensures is { result ≡ start }
        ensures count { sum result.counts ≡ 0 }
    {
        let mut holders = [None; LANES];
        holders[0] = Some(FIRST_THREAD);
        Lanes {
            holders,
            counts: [0; LANES],
        }
    }

    /// One more event of the log.
    pub fn note(&mut self, event: &Event)
        requires few { sum self.old.counts < MOST_EVENTS }
        ensures is { self.new ≡ noted self.old (entry event.now) }
        ensures count { sum self.new.counts ≡ sum self.old.counts + 1 }
    {
        self.note_call(event.call.tid, event.call.nr, event.reply.ret);
    }

    /// One more event of the log, by its thread, its number and its result.
    #[tactic(auto, unfolding(crate::specs::Lanes::noted_by, crate::specs::Lanes::holders_by))]
    pub fn note_call(&mut self, tid: u32, nr: u32, ret: i32)
        requires few { sum self.old.counts < MOST_EVENTS }
        ensures is { self.new ≡ noted_by self.old tid nr ret }
        ensures count { sum self.new.counts ≡ sum self.old.counts + 1 }
    {
        let lane = self.lane_of(tid) as usize;
        self.counts[lane] += 1;
        if nr == EXIT {
            self.free(tid);
        } else if let Some(child) = made(nr, ret) {
            self.seat(child);
        }
    }

    /// Where the next event of the thread stands: in its lane, or in lane 0 where it has none.
    pub fn lane_of(&self, tid: u32) -> u32
        ensures is { result ≡ lane_in self.now.holders tid }
        ensures below { result < 8 }
    {
        match lane_among(&self.holders, tid) {
            Some(lane) => lane as u32,
            None => 0,
        }
    }

    /// How many events stand in the lane.
    pub fn next(&self, lane: u32) -> u32
        requires { lane < 8 }
        ensures { result ≡ slice_index self.now.counts lane }
    {
        self.counts[lane as usize]
    }

    /// Whether some thread has the lane, or it is lane 0.
    pub fn lives(&self, lane: u32) -> bool
        requires { lane < 8 }
        ensures { result ≡ lives self.now lane }
    {
        lane == 0 || self.holders[lane as usize].is_some()
    }

    fn free(&mut self, tid: u32)
        ensures { self.new ≡ record self.old { holders = with_holder self.old.holders (lane_of self.old.holders tid) None } }
    {
        if let Some(lane) = lane_among(&self.holders, tid) {
            self.holders[lane] = None;
        }
    }

    fn seat(&mut self, child: u32)
        ensures { self.new ≡ record self.old { holders = with_child_lane self.old.holders (Some child) } }
    {
        if lane_among(&self.holders, child).is_some() {
            return;
        }
        if let Some(lane) = free_among(&self.holders) {
            self.holders[lane] = Some(child);
        }
    }
}
