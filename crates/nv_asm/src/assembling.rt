// The assembler.
ghost use Rattle.std.specs.Prelude.{◌≡◌, ◌^◌, ◌∷◌, true, not, ◌≢◌, ◌≤◌, ◌<◌, ◌+◌, ◌++◌, ◌%◌, Some, Ok, Err, IsTrue, IfOk, IfErr, OnOk, vec_len, length};
ghost use Rattle.nv_bytes.specs.Lines.{lines};
ghost use Rattle.nv_bytes.specs.Names.{defined};
ghost use Rattle.nv_elf.specs.Elf.{segment_range, executable_of};
ghost use Rattle.nv_elf.specs.Written.{is_program, range_bytes};
ghost use Rattle.nv_asm.specs.declared.place.Section.TheVariants as section;
ghost use Rattle.nv_asm.specs.Places.{placed, placed_line, nothing_reached};
ghost use Rattle.nv_asm.specs.Assembled.{laid, laid_in, first_cause, section_bytes, entry_address, text_base, text_range, data_ranges, assembled};
ghost use Rattle.nv_asm.specs.inner.Known.{known, IsWithin};
ghost use Rattle.nv_asm.specs.Programs.{program_view};
ghost use Rattle.nv_asm.specs.inner.Programs.{fault_found, IsLaidText, AddsLine, IsEntryAt};

use crate::fault::{AsmCause, AsmFault};
use crate::labels::{START, labels};
use crate::laying::{TEXT_BASE, data_base, entry_past, laid};
use crate::place::{Label, Reached, Section};
use crate::placed::placed_line;
use nv_bytes::{Lines, Names, line_number};
use nv_elf::{Program, Segment};
use std::alloc::{AllocError, Global};

// The sections' bytes, and the address to begin at.
#[derive(Drop)]
struct Laid {
    text: Vec<u8>,
    data: Vec<u8>,
    entry: u128,
}

impl Laid {
    fn append(&mut self, into: Section, bytes: &[u8]) -> Result<(), AllocError>
        ensures text { OnOk result (self.new.text.items ≡ self.old.text.items ++ laid_in section.Text into bytes.now) }
        ensures contents { OnOk result (self.new.data.items ≡ self.old.data.items ++ laid_in section.Data into bytes.now) }
        ensures entry { self.new.entry ≡ self.old.entry }
    {
        match into {
            Section::Text => self.text.extend_from_slice(bytes),
            Section::Data => self.data.extend_from_slice(bytes),
        }
    }
}

// Adds the bytes of a line, and tells how far the text has come after it; or the first cause that it is faulty.
fn lay_line(
    alloc: Global,
    names: &Names<Label>,
    text_len: u128,
    line: usize,
    reached: Reached,
    text: &[u8],
    out: &mut Laid,
) -> Result<Result<Reached, AsmCause>, AllocError>
    requires within { IsWithin names.now text_len }
    requires short { reached.text_len + reached.data_len ≤ 1048576 }
    ensures ok { IfOk result (λ found. IfOk found (λ after. AddsLine (known names.now text_len) (placed_line line reached text.now) reached out.old.text.items out.new.text.items out.old.data.items out.new.data.items out.old.entry out.new.entry after)) }
    ensures err { IfOk result (λ found. IfErr found (λ cause. laid (known names.now text_len) (placed_line line reached text.now) ≡ Err cause)) }
{
    let placed = placed_line(alloc, line, reached, text)?;
    match laid(alloc, names, text_len, &placed)? {
        Err(cause) => Ok(Err(cause)),
        Ok(bytes) => {
            out.append(reached.section, &bytes)?;
            out.entry = entry_past(names, text_len, out.entry, &placed);
            Ok(Ok(placed.after()))
        }
    }
}

// The second pass: the bytes of a text's lines, or its first fault.
fn lay(alloc: Global, names: &Names<Label>, text_len: u128, text: &[u8]) -> Result<Laid, AsmFault>
    requires { IsWithin names.now text_len }
    ensures laid { IfOk result (λ l. IsLaidText (known names.now text_len) (placed 0 nothing_reached (lines text.now)) l.text.items l.data.items l.entry) }
    ensures fault { IfErr result (λ fault. fault ≢ AsmFault.Memory → fault_found (first_cause (known names.now text_len) (placed 0 nothing_reached (lines text.now))) ≡ Some fault) }
{
    let mut out = Laid {
        text: Vec::new(alloc),
        data: Vec::new(alloc),
        entry: u128::from(TEXT_BASE),
    };
    let mut reached = START;
    for (line, content) in Lines::of(text) {
        reached = match lay_line(alloc, names, text_len, line, reached, content, &mut out)? {
            Ok(after) => after,
            Err(cause) => return Err(AsmFault::Line(line_number(line), cause)),
        };
    }
    Ok(out)
}

fn segment(address: u32, write: bool, bytes: Vec<u8>) -> Segment
    requires low { address < 2 ^ 31 }
    requires short { length bytes.items ≤ 1048576 }
    ensures { segment_range result ≡ record { address = address; size = length bytes.items; read = true; write = write; execute = not write; bytes = bytes.items } }
{
    Segment {
        address,
        size: bytes.len() as u32,
        read: true,
        write,
        execute: !write,
        bytes,
    }
}

fn program(alloc: Global, text_len: u128, laid: Laid) -> Result<Program, AllocError>
    requires entry { IsEntryAt text_len laid.entry }
    requires text_len { length laid.text.items ≡ text_len }
    requires short { length laid.text.items + length laid.data.items ≤ 1048576 }
    ensures { IfOk result (λ program. executable_of program ≡ record { entry = laid.entry; ranges = text_range laid.text.items ∷ data_ranges text_len laid.data.items }) }
{
    let Laid {
        text: code,
        data: contents,
        entry,
    } = laid;
    let mut segments = Vec::new(alloc);
    segments.push(segment(TEXT_BASE, false, code))?;
    if !contents.is_empty() {
        segments.push(segment(data_base(text_len) as u32, true, contents))?;
    }
    Ok(Program {
        entry: entry as u32,
        segments,
    })
}

/// Assembles a text.
pub fn assemble(alloc: Global, text: &[u8]) -> Result<Program, AsmFault>
    // want of memory is the one free answer
    ensures program { result ≢ Err AsmFault.Memory → program_view result ≡ assembled text.now }
    // so `nv_elf::write` takes it
    ensures sound { IfOk result (λ program. IsTrue (is_program (executable_of program))) }
    ensures small { IfOk result (λ program. range_bytes (executable_of program).ranges ≤ 1048576) }
{
    let (names, text_len) = labels(alloc, text)?;
    let laid = lay(alloc, &names, text_len, text)?;
    if text_len < 4 {
        return Err(AsmFault::Line(1, AsmCause::Range));
    }
    let program = program(alloc, text_len, laid)?;
    Ok(program)
}
