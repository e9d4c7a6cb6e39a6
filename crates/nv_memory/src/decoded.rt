// Instructions that were decoded, so that most steps decode none.
ghost use Rattle.std.specs.Prelude.{◌≡◌, ◌≤◌, ◌%◌, ◌+◌, ◌*◌, ◌^◌, IfOk, IfSome, Some, is_some, length, replicate, slice_set, slice_index_or};
ghost use Rattle.nv_memory.specs.Code.{has_code, code_start};
ghost use Rattle.nv_memory.specs.inner.Decoded.{kept, place_of, Remain, ArePlaces, blank, shown};

use crate::region::Region;
use nv_isa::{Insn, Op};
use std::alloc::{AllocError, Global};

/// The instructions of the words from `start` on, each where it was decoded since its word was last written. Elsewhere an EBREAK stands,
/// which is never kept: so each has its own eight bytes, and a step that finds none is one more case of those that it tells apart.
#[derive(Debug, Drop)]
pub struct Decoded {
    /// A multiple of 4.
    pub start: u32,
    pub insns: Vec<Insn>,
}

impl Decoded {
    /// None yet, of those of the first region that may be executed.
    pub fn make(alloc: Global, regions: &[Region]) -> Result<Decoded, AllocError>
        ensures begins { IfOk result (λ d. d.start ≡ code_start regions.now) }
        ensures aligned { IfOk result (λ d. d.start % 4 ≡ 0) }
        ensures fits { IfOk result (λ d. d.start + 4 * length d.insns.items ≤ 2 ^ 32) }
        ensures none { IfOk result (λ d. d.insns.items ≡ replicate (length d.insns.items) blank) }
    {
        let (start, stop) = code_of(regions);
        let count = (stop.saturating_sub(start) / 4) as usize;
        let insns = vec![in alloc; blank(); count]?;
        Ok(Decoded { start, insns })
    }

    /// Where their words end.
    pub fn stop(&self) -> usize
        requires { self.now.start + 4 * length self.now.insns.items ≤ 2 ^ 32 }
        ensures { result ≡ self.now.start + 4 * length self.now.insns.items }
    {
        self.start as usize + 4 * self.insns.len()
    }

    /// The instruction at the address, if it is kept. It is lent: a copied one is a word of 64 bits, which would be taken apart by shifts.
    pub fn at(&self, address: u32) -> Option<&Insn>
        ensures found { is_some result ≡ is_some (kept self.now.start self.now.insns.items address) }
        ensures insn { IfSome result (λ insn. kept self.now.start self.now.insns.items address ≡ Some insn.now) }
    {
        let place = (address.wrapping_sub(self.start) / 4) as usize;
        if place < self.insns.len() {
            shown(&self.insns[place])
        } else {
            None
        }
    }

    /// What stands at the place, if it is one of these. An EBREAK isn't kept.
    #[inline(always)]
    pub fn at_place(&self, place: usize) -> Option<&Insn>
        ensures { IfSome result (λ insn. insn.now ≡ slice_index_or self.now.insns.items place blank) }
    {
        if place < self.insns.len() {
            Some(&self.insns[place])
        } else {
            None
        }
    }

    /// Keeps the instruction at the address, if its place is one of these.
    pub fn keep(&mut self, address: u32, insn: Insn)
        ensures start { self.new.start ≡ self.old.start }
        ensures insns { self.new.insns.items ≡ slice_set self.old.insns.items (place_of self.old.start address) insn }
    {
        let place = (address.wrapping_sub(self.start) / 4) as usize;
        if place < self.insns.len() {
            self.insns[place] = insn;
        }
    }

    /// Keeps none whose word meets the range.
    #[tactic(auto, using(crate::proofs::Decodings::range_cleared))]
    pub fn forget(&mut self, from: usize, to: usize)
        ensures start { self.new.start ≡ self.old.start }
        ensures length { length self.new.insns.items ≡ length self.old.insns.items }
        ensures remain { Remain self.old.start from to self.old.insns.items self.new.insns.items }
    {
        let start = self.start as usize;
        let first = from.saturating_sub(start) / 4;
        let last = to.saturating_sub(start).div_ceil(4);
        clear(&mut self.insns, first, last);
    }
}

fn blank() -> Insn
    ensures { result ≡ blank }
{
    Insn {
        op: Op::Ebreak,
        rd: 0,
        rs1: 0,
        rs2: 0,
        imm: 0,
    }
}

fn shown(insn: &Insn) -> Option<&Insn>
    ensures found { is_some result ≡ is_some (shown insn.now) }
    ensures insn { IfSome result (λ found. shown insn.now ≡ Some found.now) }
{
    match insn.op {
        Op::Ebreak => None,
        _ => Some(insn),
    }
}

// The addresses of the first region that may be executed and begins at a word.
#[tactic(auto, using(crate::proofs::Codes::code_here, crate::proofs::Codes::code_past, crate::proofs::Codes::code_ends))]
fn code_of(regions: &[Region]) -> (u32, u32)
    ensures begins { result.0 ≡ code_start regions.now }
    ensures aligned { result.0 % 4 ≡ 0 }
{
    for region in regions {
        if has_code(region) {
            return (region.start, region.end);
        }
    }
    (0, 0)
}

fn has_code(region: &Region) -> bool
    ensures { result ≡ has_code region.now }
{
    region.execute && region.start % 4 == 0
}

// Nothing is kept at these places.
#[tactic(auto, using(crate::proofs::Decodings::cleared_none, crate::proofs::Decodings::cleared_more, crate::proofs::Decodings::cleared_all))]
fn clear(insns: &mut [Insn], first: usize, last: usize)
    ensures { ArePlaces first last insns.old insns.new }
{
    let last = last.min(insns.len());
    for place in first..last {
        insns[place] = blank();
    }
}
