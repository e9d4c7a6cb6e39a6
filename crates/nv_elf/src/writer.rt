// The writer of version files.
ghost use Rattle.std.specs.Prelude.{◌≡◌, ◌<◌, ◌≤◌, ◌+◌, ◌++◌, ◌^◌, IsTrue, IfOk, OnOk, length, map, replicate};
ghost use Rattle.byteorder.specs.Endian.{little_bytes};
ghost use Rattle.nv_elf.specs.Elf.{elf_of, segment_range, executable_of, Accepted};
ghost use Rattle.nv_elf.specs.Written.{is_program, range_bytes, file_header, flags_of, program_header, padding, contents_at, end_from, table_from, contents_from, elf_bytes};

use crate::header::{FILE_HEADER_LENGTH, PROGRAM_HEADER_LENGTH};
use crate::{Program, Segment};
use std::alloc::{AllocError, Global};

const IDENT: [u8; 16] = [0x7f, b'E', b'L', b'F', 1, 1, 1, 0, 0, 0, 0, 0, 0, 0, 0, 0];

const ALIGNMENT: usize = 4;

fn push_half(out: &mut Vec<u8>, value: u16) -> Result<(), AllocError>
    ensures { OnOk result (out.new.items ≡ out.old.items ++ little_bytes 2 value) }
{
    out.extend_from_slice(&value.to_le_bytes())
}

fn push_word(out: &mut Vec<u8>, value: u32) -> Result<(), AllocError>
    ensures { OnOk result (out.new.items ≡ out.old.items ++ little_bytes 4 value) }
{
    out.extend_from_slice(&value.to_le_bytes())
}

fn push_file_header(out: &mut Vec<u8>, entry: u32, count: u16) -> Result<(), AllocError>
    ensures { OnOk result (out.new.items ≡ out.old.items ++ file_header entry count) }
{
    out.extend_from_slice(&IDENT)?;
    push_half(out, 2)?;
    push_half(out, 243)?;
    push_word(out, 1)?;
    push_word(out, entry)?;
    push_word(out, 52)?;
    push_word(out, 0)?;
    push_word(out, 0)?;
    push_half(out, 52)?;
    push_half(out, 32)?;
    push_half(out, count)?;
    push_half(out, 0)?;
    push_half(out, 0)?;
    push_half(out, 0)?;
    Ok(())
}

fn flags(segment: &Segment) -> u32
    ensures { result ≡ flags_of (segment_range segment.now) }
{
    (if segment.read { 4 } else { 0 })
        + (if segment.write { 2 } else { 0 })
        + (if segment.execute { 1 } else { 0 })
}

fn push_program_header(out: &mut Vec<u8>, segment: &Segment, offset: u32) -> Result<(), AllocError>
    ensures { OnOk result (out.new.items ≡ out.old.items ++ program_header offset (segment_range segment.now)) }
{
    push_word(out, 1)?;
    push_word(out, offset)?;
    push_word(out, segment.address)?;
    push_word(out, segment.address)?;
    push_word(out, segment.bytes.len() as u32)?;
    push_word(out, segment.size)?;
    push_word(out, flags(segment))?;
    push_word(out, 4)?;
    Ok(())
}

fn padding(place: usize) -> usize
    ensures value { result ≡ padding place }
    ensures below { result < 4 }
{
    (ALIGNMENT - place % ALIGNMENT) % ALIGNMENT
}

// Bytes from the next multiple of 4 on.
fn push_bytes(out: &mut Vec<u8>, bytes: &[u8]) -> Result<(), AllocError>
    ensures { OnOk result (out.new.items ≡ out.old.items ++ (replicate (padding (length out.old.items)) 0 ++ bytes.now)) }
{
    let zeros = [0; ALIGNMENT];
    let count = padding(out.len());
    out.extend_from_slice(&zeros[..count])?;
    out.extend_from_slice(bytes)
}

fn push_table(out: &mut Vec<u8>, segments: &[Segment], place: usize) -> Result<(), AllocError>
    requires { end_from place (map segment_range segments.now) < 2 ^ 32 }
    ensures { OnOk result (out.new.items ≡ out.old.items ++ table_from place (map segment_range segments.now)) }
{
    let mut place = place;
    for segment in segments {
        place += padding(place);
        push_program_header(out, segment, place as u32)?;
        place += segment.bytes.len();
    }
    Ok(())
}

fn push_contents(out: &mut Vec<u8>, segments: &[Segment]) -> Result<(), AllocError>
    ensures { OnOk result (out.new.items ≡ out.old.items ++ contents_from (length out.old.items) (map segment_range segments.now)) }
{
    for segment in segments {
        push_bytes(out, &segment.bytes)?;
    }
    Ok(())
}

/// Writes a program as a version file.
pub fn write(alloc: Global, program: &Program) -> Result<Vec<u8>, AllocError>
    requires sound { IsTrue (is_program (executable_of program.now)) }
    requires small { range_bytes (executable_of program.now).ranges ≤ 1_073_741_824 }

    ensures file { IfOk result (λ file. file.items ≡ elf_bytes (executable_of program.now)) }

    ensures read_back { IfOk result (λ file. elf_of file.items ≡ Accepted (executable_of program.now)) }
{
    let mut out = Vec::new(alloc);
    let count = program.segments.len();
    push_file_header(&mut out, program.entry, count as u16)?;
    push_table(
        &mut out,
        &program.segments,
        FILE_HEADER_LENGTH + PROGRAM_HEADER_LENGTH * count,
    )?;
    push_contents(&mut out, &program.segments)?;
    Ok(out)
}
