// Which parts of a memory may be read or written as a whole, so that most loads and stores search no regions.
ghost use Rattle.std.specs.Prelude.{◌≡◌, ◌+◌, ◌/◌, ◌<◌, ◌≤◌, ◌^◌, IfOk, length, replicate};
ghost use Rattle.nv_memory.specs.inner.Rights.{no_part, part_at, in_a_part, may_read, may_write, IsPart, Looked};

use crate::ranges::is_in_one;
use crate::region::{Region, Right};
use std::alloc::{AllocError, Global};

/// How many bytes a part has.
const PART: usize = 256;

/// What may be done everywhere in a part. A part that has code isn't written as a whole.
#[derive(Clone, Copy, Debug)]
pub struct Part {
    pub read: bool,
    pub write: bool,
}

/// The parts of a memory from address 0 on, but for what is left at its end.
#[derive(Debug, Drop)]
pub struct Rights {
    pub parts: Vec<Part>,
}

impl Rights {
    /// None yet.
    pub fn make(alloc: Global, size: u32) -> Result<Rights, AllocError>
        ensures few { IfOk result (λ rights. length rights.parts.items ≤ 2 ^ 24) }
        ensures none { IfOk result (λ rights. rights.parts.items ≡ replicate (length rights.parts.items) no_part) }
    {
        let count = size as usize / PART;
        let parts = vec![in alloc; no_part(); count]?;
        Ok(Rights { parts })
    }

    /// Whether the range lies in a part that may be read.
    pub fn reads(&self, address: u32, length: usize) -> bool
        ensures { result ≡ may_read self.now.parts.items address length }
    {
        is_in_a_part(address, length) && self.part(address).read
    }

    /// Whether the range lies in a part that may be written.
    pub fn writes(&self, address: u32, length: usize) -> bool
        ensures { result ≡ may_write self.now.parts.items address length }
    {
        is_in_a_part(address, length) && self.part(address).write
    }

    fn part(&self, address: u32) -> Part
        ensures { result ≡ part_at self.now.parts.items (address / 256) }
    {
        let place = address as usize / PART;
        if place < self.parts.len() {
            self.parts[place]
        } else {
            no_part()
        }
    }

    /// Looks at the parts that meet the range, where the code lies from one address to below another.
    pub fn look(&mut self, regions: &[Region], start: usize, stop: usize, from: usize, to: usize)
        requires { length self.old.parts.items ≤ 2 ^ 24 }
        ensures length { length self.new.parts.items ≡ length self.old.parts.items }
        ensures looked { Looked regions.now start stop (from / 256) (to / 256 + 1) self.old.parts.items self.new.parts.items }
    {
        look_at_each(
            &mut self.parts,
            regions,
            start,
            stop,
            from / PART,
            to / PART + 1,
        );
    }
}

fn no_part() -> Part
    ensures { result ≡ no_part }
{
    Part {
        read: false,
        write: false,
    }
}

fn is_in_a_part(address: u32, length: usize) -> bool
    ensures { result ≡ in_a_part address length }
{
    length <= PART && address as usize % PART <= PART - length
}

// Looks at the parts from the first to below the last.
#[tactic(auto, using(crate::proofs::Parts::looked_none, crate::proofs::Parts::looked_more, crate::proofs::Parts::looked_all))]
fn look_at_each(
    parts: &mut [Part],
    regions: &[Region],
    start: usize,
    stop: usize,
    first: usize,
    last: usize,
)
    requires { length parts.old ≤ 2 ^ 24 }
    ensures { Looked regions.now start stop first last parts.old parts.new }
{
    let end = last.min(parts.len());
    for place in first..end {
        parts[place] = look_at(regions, start, stop, place);
    }
}

fn look_at(regions: &[Region], start: usize, stop: usize, place: usize) -> Part
    requires { place < 2 ^ 24 }
    ensures { IsPart regions.now start stop place result }
{
    let at = place * PART;
    let read = is_in_one(regions, at as u32, PART, Right::Read);
    let write = is_in_one(regions, at as u32, PART, Right::Write);
    let has_no_code = at + PART <= start || stop <= at;
    Part {
        read,
        write: write && has_no_code,
    }
}
