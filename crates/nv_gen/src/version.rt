// The file of a version.
ghost use Rattle.std.specs.Prelude.{◌≡◌, ◌≤◌, ◌<◌, ◌++◌, OnOk, IfOk, length, vec_len};
ghost use Rattle.nv_elf.specs.Elf.{elf_of, executable_of, segment_range, Accepted};
ghost use Rattle.nv_gen.specs.Made.{course};
ghost use Rattle.nv_gen.specs.Measures.{numbers_in};
ghost use Rattle.nv_gen.specs.Programs.{program, segment_bytes, course_range, block};

use crate::code::push_code;
use crate::measures::Measures;
use nv_elf::{Program, Segment};
use std::alloc::{AllocError, Global};

// Where the bytes to write stand, and the code after them.
const BASE: u32 = 0x10000;

const ENTRY: u32 = 0x10040;

#[tactic(auto, unfolding(crate::specs::Programs::block))]
fn block(alloc: Global, byte: u8) -> Result<Vec<u8>, AllocError>
    ensures bytes { IfOk result (λ bytes. bytes.items ≡ block byte) }
    ensures len { IfOk result (λ bytes. vec_len bytes ≡ 64) }
{
    vec![in alloc; byte; 64]
}

fn segment(alloc: Global, measures: &Measures, version: u32) -> Result<Segment, AllocError>
    requires { version < measures.now.versions }
    ensures range { IfOk result (λ segment. segment_range segment ≡ course_range (numbers_in measures.now) (course (numbers_in measures.now) version)) }
    ensures short { IfOk result (λ segment. vec_len segment.bytes ≤ 300_000) }
    ensures long { IfOk result (λ segment. 68 ≤ vec_len segment.bytes) }
{
    let mut bytes = block(alloc, measures.byte)?;
    push_code(&mut bytes, measures, version)?;
    Ok(Segment {
        address: BASE,
        size: bytes.len() as u32,
        read: true,
        write: false,
        execute: true,
        bytes,
    })
}

#[tactic(auto, unfolding(crate::specs::Programs::program))]
fn program(alloc: Global, measures: &Measures, version: u32) -> Result<Program, AllocError>
    requires { version < measures.now.versions }
    ensures image { IfOk result (λ made. executable_of made ≡ program (numbers_in measures.now) (course (numbers_in measures.now) version)) }
    ensures short { OnOk result (length (segment_bytes (numbers_in measures.now) (course (numbers_in measures.now) version)) ≤ 300_000) }
    ensures long { OnOk result (68 ≤ length (segment_bytes (numbers_in measures.now) (course (numbers_in measures.now) version))) }
{
    let mut segments = Vec::new(alloc);
    segments.push(segment(alloc, measures, version)?)?;
    Ok(Program {
        entry: ENTRY,
        segments,
    })
}

/// The file of a version: an executable for RISC-V.
pub fn version(alloc: Global, measures: &Measures, version: u32) -> Result<Vec<u8>, AllocError>
    requires { version < measures.now.versions }
    ensures program { IfOk result (λ file. elf_of file.items ≡ Accepted (program (numbers_in measures.now) (course (numbers_in measures.now) version))) }
    ensures short { IfOk result (λ file. length file.items ≤ 4_194_304) }
{
    let program = program(alloc, measures, version)?;
    let file = nv_elf::write(alloc, &program)?;
    Ok(file)
}
