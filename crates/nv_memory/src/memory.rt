// The memory of a guest.
ghost use Rattle.std.specs.Prelude.{◌≡◌, ◌≢◌, ℕ, ◌+◌, ◌<◌, ◌≤◌, length, Ok, Err, IfOk, IfErr, IfSome, is_ok, IsTrue, replicate, Some, ◌%◌};
ghost use Rattle.std.specs.List.{list_any};
ghost use Rattle.nv_memory.specs.Bytes.{bytes_at, put, little_bytes, byte_count};
ghost use Rattle.nv_memory.specs.Region.{holds, AreRegions, lies_in, set_end, region_start, end_of};
ghost use Rattle.nv_memory.specs.Image.{value_at, allowed, stored, copied, cut};
ghost use Rattle.nv_memory.specs.Cells.{memory_byte};
ghost use Rattle.nv_memory.specs.Code.{code_start, code_address};
ghost use Rattle.nv_memory.specs.Insns.{insn_at};
ghost use Rattle.nv_isa.specs.Spelling.{HasSmallRegisters};

use crate::bytes::{count, cut, part, read, read_all, write, write_all};
use crate::decoded::Decoded;
use crate::ranges::{end_at, has_address, is_held, move_end, region_at};
use crate::region::{Access, Region, Right, Width};
use crate::rights::Rights;
use nv_isa::{Insn, Op, decode};
use std::alloc::{AllocError, Global};
use std::marker::Model;

/// The bytes of a guest from address 0 on, and the regions in which they may be used.
#[derive(Debug, Drop)]
pub struct Memory {
    bytes: Vec<u8>,
    regions: Vec<Region>,
    // instructions of words that were executed, so that most steps decode none
    decoded: Decoded,
    // what may be done with the memory's parts, so that most loads and stores don't ask the regions
    rights: Rights,
}

impl Model for Memory {
    ghost use Rattle.std.specs.Prelude.{length, ◌+◌, ◌*◌};
    ghost use Rattle.nv_memory.specs.Region.{AreRegions};
    ghost use Rattle.nv_memory.specs.Image.{Image};
    ghost use Rattle.nv_memory.specs.inner.Decoded.{AreDecoded};
    ghost use Rattle.nv_memory.specs.inner.Rights.{AreParts};

    ghost Value = { Image };

    ghost view = { λ m. record { bytes = m.bytes.items; regions = m.regions.items } };

    ghost invariant = { λ m. AreRegions (length m.bytes.items) m.regions.items × AreDecoded m.decoded.start m.decoded.insns.items m.bytes.items m.regions.items × AreParts m.regions.items m.decoded.start (m.decoded.start + 4 * length m.decoded.insns.items) m.rights.parts.items };
}

impl Memory {
    /// A memory of `size` bytes, all of which are 0. No other call takes memory.
    pub fn make(alloc: Global, size: u32, regions: Vec<Region>) -> Result<Memory, AllocError>
        requires { AreRegions size regions.items }
        ensures { IfOk result (λ m. m ≡ record { bytes = replicate size 0; regions = regions.items }) }
    {
        let bytes = vec![in alloc; 0; size as usize]?;
        let decoded = Decoded::make(alloc, &regions)?;
        let mut rights = Rights::make(alloc, size)?;
        rights.look(
            &regions,
            decoded.start as usize,
            decoded.stop(),
            0,
            size as usize,
        );
        Ok(Memory {
            bytes,
            regions,
            decoded,
            rights,
        })
    }

    /// Whether the range is empty or lies in one region with the right.
    pub fn holds(&self, address: u32, length: u32, right: Right) -> bool
        ensures { result ≡ holds self.now.regions address length right }
    {
        is_held(&self.regions, address, length as usize, right)
    }

    /// The byte at the address, where a region has it, whatever the region's rights are.
    #[tactic(auto, using(crate::proofs::Bounds::range_is_inside))]
    pub fn byte(&self, address: u32) -> Option<u8>
        ensures { result ≡ memory_byte self.now address }
    {
        if has_address(&self.regions, address) {
            Some(self.bytes[address as usize])
        } else {
            None
        }
    }

    /// The number at the address, in little-endian order and with zeros above.
    #[inline(always)]
    #[tactic(auto, using(crate::proofs::Bounds::held_is_inside))]
    pub fn load(&self, address: u32, width: Width) -> Result<u32, Access>
        ensures { result ≡ value_at self.now address width Right.Read }
    {
        if self.may_read(address, count(width)) {
            Ok(read(&self.bytes, address as usize, width))
        } else {
            Err(Access(address))
        }
    }

    #[inline(always)]
    #[tactic(auto, using(crate::proofs::Parts::read_held))]
    fn may_read(&self, address: u32, length: usize) -> bool
        ensures { result ≡ holds self.now.regions address length Right.Read }
    {
        self.rights.reads(address, length) || self.asks_regions(address, length)
    }

    // Out of line, since few loads come here and the machine's loop has no registers for a search.
    #[inline(never)]
    fn asks_regions(&self, address: u32, length: usize) -> bool
        ensures { result ≡ holds self.now.regions address length Right.Read }
    {
        is_held(&self.regions, address, length, Right::Read)
    }

    /// The four bytes of an instruction, in little-endian order.
    pub fn fetch(&self, address: u32) -> Result<u32, Access>
        ensures { result ≡ value_at self.now address Width.Four Right.Execute }
    {
        self.read_with(address, Width::Four, Right::Execute)
    }

    /// The instruction at the address, where its word was executed since it was last written.
    pub fn known(&self, address: u32) -> Option<&Insn>
        requires { address % 4 ≡ 0 }
        ensures insn { IfSome result (λ insn. insn_at self.now address ≡ Ok (Some insn.now)) }
        ensures registers { IfSome result (λ insn. HasSmallRegisters insn.now) }
    {
        self.decoded.at(address)
    }

    /// Where the code begins, whose words are counted from there on.
    pub fn code_start(&self) -> u32
        ensures begins { result ≡ code_start self.now.regions }
        ensures aligned { result % 4 ≡ 0 }
    {
        self.decoded.start
    }

    /// The instruction at this place of the code, where its word was executed since it was last written; elsewhere an EBREAK, or none.
    #[inline(always)]
    pub fn known_at(&self, place: usize) -> Option<&Insn>
        ensures insn { IfSome result (λ insn. insn.now.op ≢ Op.Ebreak → insn_at self.now (code_address (code_start self.now.regions) place) ≡ Ok (Some insn.now)) }
        ensures registers { IfSome result (λ insn. HasSmallRegisters insn.now) }
    {
        self.decoded.at_place(place)
    }

    /// The instruction at the address, which is known from then on.
    pub fn insn(&mut self, address: u32) -> Result<Option<Insn>, Access>
        requires { address % 4 ≡ 0 }
        ensures insn { result ≡ insn_at self.old address }
        ensures registers { IfOk result (λ found. IfSome found HasSmallRegisters) }
        ensures same { self.new ≡ self.old }
    {
        let found = decode(self.fetch(address)?);
        if let Some(insn) = found {
            self.decoded.keep(address, insn);
        }
        Ok(found)
    }

    #[tactic(auto, using(crate::proofs::Bounds::held_is_inside))]
    fn read_with(&self, address: u32, width: Width, right: Right) -> Result<u32, Access>
        ensures { result ≡ value_at self.now address width right }
    {
        if is_held(&self.regions, address, count(width), right) {
            Ok(read(&self.bytes, address as usize, width))
        } else {
            Err(Access(address))
        }
    }

    /// Writes the low bytes of the number at the address, in little-endian order.
    #[inline(always)]
    #[tactic(auto, using(crate::proofs::Bounds::held_is_inside, crate::proofs::Parts::write_held))]
    pub fn store(&mut self, address: u32, width: Width, value: u32) -> Result<(), Access>
        ensures answer { result ≡ allowed self.old address (byte_count width) Right.Write }
        ensures after { self.new ≡ stored self.old address (little_bytes (byte_count width) value) }
    {
        if self.rights.writes(address, count(width)) {
            write(&mut self.bytes, address as usize, width, value);
            Ok(())
        } else {
            self.store_by_regions(address, width, value)
        }
    }

    // Out of line, as `asks_regions`. Code that is written is decoded anew.
    #[inline(never)]
    #[tactic(auto, using(crate::proofs::Bounds::held_is_inside))]
    fn store_by_regions(&mut self, address: u32, width: Width, value: u32) -> Result<(), Access>
        ensures answer { result ≡ allowed self.old address (byte_count width) Right.Write }
        ensures after { self.new ≡ stored self.old address (little_bytes (byte_count width) value) }
    {
        if is_held(&self.regions, address, count(width), Right::Write) {
            write(&mut self.bytes, address as usize, width, value);
            self.decoded
                .forget(address as usize, address as usize + count(width));
            Ok(())
        } else {
            Err(Access(address))
        }
    }

    /// Lends the bytes at the address.
    #[tactic(auto, using(crate::proofs::Bounds::held_is_inside, crate::proofs::Loops::part_is_bytes))]
    pub fn bytes(&self, address: u32, length: u32) -> Result<&[u8], Access>
        ensures held { is_ok result ≡ holds self.now.regions address length Right.Read }
        ensures ok { IfOk result (λ bytes. bytes.now ≡ bytes_at self.now.bytes address length) }
        ensures err { IfErr result (λ refusal. refusal ≡ record { 0 = address }) }
    {
        if !is_held(&self.regions, address, length as usize, Right::Read) {
            return Err(Access(address));
        }
        if length == 0 {
            return Ok(&[]);
        }
        Ok(part(&self.bytes, address as usize, length as usize))
    }

    /// Copies the bytes at the address.
    #[tactic(auto, using(crate::proofs::Bounds::held_is_inside))]
    pub fn copy_in(&self, address: u32, out: &mut [u8]) -> Result<(), Access>
        ensures answer { result ≡ allowed self.now address (length out.old) Right.Read }
        ensures after { out.new ≡ copied self.now address out.old }
    {
        if is_held(&self.regions, address, out.len(), Right::Read) {
            if out.len() > 0 {
                read_all(&self.bytes, address as usize, out);
            }
            Ok(())
        } else {
            Err(Access(address))
        }
    }

    /// Writes the bytes at the address.
    #[tactic(auto, using(crate::proofs::Bounds::held_is_inside))]
    pub fn copy_out(&mut self, address: u32, bytes: &[u8]) -> Result<(), Access>
        ensures answer { result ≡ allowed self.old address (length bytes.now) Right.Write }
        ensures after { self.new ≡ stored self.old address bytes.now }
    {
        if is_held(&self.regions, address, bytes.len(), Right::Write) {
            if bytes.len() > 0 {
                write_all(&mut self.bytes, address as usize, bytes);
                self.decoded
                    .forget(address as usize, address as usize + bytes.len());
            }
            Ok(())
        } else {
            Err(Access(address))
        }
    }

    /// Writes the bytes at the address, whatever the region's rights are.
    #[tactic(auto, using(crate::proofs::Bounds::range_is_inside))]
    pub fn fill(&mut self, address: u32, bytes: &[u8])
        requires { IsTrue (list_any (lies_in address (length bytes.now)) self.old.regions) }
        ensures { self.new ≡ record self.old { bytes = put self.old.bytes address bytes.now } }
    {
        write_all(&mut self.bytes, address as usize, bytes);
        self.decoded
            .forget(address as usize, address as usize + bytes.len());
    }

    /// Moves the end of the region at this place of the list. Bytes that leave it become 0.
    #[tactic(auto, using(crate::proofs::Ends::end_is_inside, crate::proofs::BytesLaws::length_put))]
    pub fn resize(&mut self, region: usize, end: u32)
        requires known { region < length self.old.regions }
        requires ordered { region_start self.old.regions region ≤ end }
        requires fits { AreRegions (length self.old.bytes) (set_end self.old.regions region end) }
        ensures bytes { self.new.bytes ≡ cut self.old.bytes (end_of self.old.regions region) end }
        ensures regions { self.new.regions ≡ set_end self.old.regions region end }
    {
        let before = end_at(&self.regions, region);
        cut(&mut self.bytes, before as usize, end as usize);
        move_end(&mut self.regions, region, end);
        let (low, high) = (before.min(end) as usize, before.max(end) as usize);
        self.decoded.forget(low, high);
        let (start, stop) = (self.decoded.start as usize, self.decoded.stop());
        let moved = region_at(&self.regions, region);
        self.rights.look(&[moved], start, stop, low, high);
    }
}
