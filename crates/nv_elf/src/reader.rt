// The reader of version files.
ghost use Rattle.std.specs.Prelude.{◌≡◌, ◌≤◌, ◌<◌, ◌+◌, ◌*◌, ◌⊎◌, Some, None, IsTrue, IfSome, IfOk, IfErr, OnOk, MatchResult, All, length, filter, map, false, vec_len};
ghost use Rattle.std.specs.List.{list_any, position_from};
ghost use Rattle.nv_elf.specs.Elf.{file_fault, table_fault, loadables_fault, has_magic, has_class, has_versions, has_table, headers_from, headers_of, is_loadable, is_interpreted, is_outside, extent_of, shares, holds_entry, overlap_from, can_be_entry, range_in, segment_range, elf_of, executable_of, Accepted, Refused};
ghost use Rattle.nv_elf.specs.Written.{is_program};
ghost use Rattle.nv_elf.specs.declared.program.ElfFault.TheVariants.{Memory};

use crate::header::{FILE_HEADER_LENGTH, PROGRAM_HEADER_LENGTH, ProgramHeader};
use crate::{ElfFault, Program, Segment};
use nv_bytes::{u16_at, u32_at};
use std::alloc::{AllocError, Global};

const EXECUTABLE: u16 = 2;

const RISC_V: u16 = 243;

const REFUSED_FLAGS: u32 = 0xf;

const MOST_HEADERS: usize = 64;

const MOST_LOADABLES: usize = 16;

fn has_table(bytes: &[u8]) -> bool
    requires { 52 ≤ length bytes.now }
    ensures { result ≡ has_table bytes.now }
{
    let start = u32_at(bytes, 28) as usize;
    let count = usize::from(u16_at(bytes, 44));
    let size = usize::from(u16_at(bytes, 42));
    count <= MOST_HEADERS
        && (count == 0
            || (size == PROGRAM_HEADER_LENGTH
                && start + PROGRAM_HEADER_LENGTH * count <= bytes.len()))
}

fn has_magic(bytes: &[u8]) -> bool
    requires { 52 ≤ length bytes.now }
    ensures { result ≡ has_magic bytes.now }
{
    matches!(bytes, [0x7f, b'E', b'L', b'F', ..])
}

fn has_class(bytes: &[u8]) -> bool
    requires { 52 ≤ length bytes.now }
    ensures { result ≡ has_class bytes.now }
{
    bytes[4] == 1 && bytes[5] == 1
}

fn has_versions(bytes: &[u8]) -> bool
    requires { 52 ≤ length bytes.now }
    ensures { result ≡ has_versions bytes.now }
{
    bytes[6] == 1 && u32_at(bytes, 20) == 1
}

// The file header's own fields.
#[tactic(auto, unfolding(crate::specs::Elf::file_fault))]
fn check_file(bytes: &[u8]) -> Result<(), ElfFault>
    ensures fault { MatchResult result (λ _. file_fault bytes.now ≡ None) (λ fault. file_fault bytes.now ≡ Some fault) }
    ensures long { OnOk result (52 ≤ length bytes.now) }
    ensures table { OnOk result (IsTrue (has_table bytes.now)) }
{
    if bytes.len() < FILE_HEADER_LENGTH {
        return Err(ElfFault::Short);
    }
    if !has_magic(bytes) {
        return Err(ElfFault::Magic);
    }
    if !has_class(bytes) {
        return Err(ElfFault::Class);
    }
    if u16_at(bytes, 16) != EXECUTABLE {
        return Err(ElfFault::Kind);
    }
    if u16_at(bytes, 18) != RISC_V {
        return Err(ElfFault::Machine);
    }
    if u32_at(bytes, 36) & REFUSED_FLAGS != 0 {
        return Err(ElfFault::Flags);
    }
    if !has_versions(bytes) || !has_table(bytes) {
        return Err(ElfFault::Header);
    }
    Ok(())
}

// The program headers from a place on, this many.
fn headers(
    alloc: Global,
    bytes: &[u8],
    start: usize,
    count: usize,
) -> Result<Vec<ProgramHeader>, AllocError>
    requires { start + 32 * count ≤ length bytes.now }
    ensures { IfOk result (λ headers. headers.items ≡ headers_from bytes.now start count) }
{
    let mut headers = Vec::new(alloc);
    for i in 0..count {
        headers.push(ProgramHeader::at(bytes, start + PROGRAM_HEADER_LENGTH * i))?;
    }
    Ok(headers)
}

fn program_headers(alloc: Global, bytes: &[u8]) -> Result<Vec<ProgramHeader>, AllocError>
    requires long { 52 ≤ length bytes.now }
    requires table { IsTrue (has_table bytes.now) }
    ensures { IfOk result (λ headers. headers.items ≡ headers_of bytes.now) }
{
    let count = usize::from(u16_at(bytes, 44));
    let start = if count == 0 {
        0
    } else {
        u32_at(bytes, 28) as usize
    };
    headers(alloc, bytes, start, count)
}

fn loadables(alloc: Global, headers: &[ProgramHeader]) -> Result<Vec<ProgramHeader>, AllocError>
    ensures { IfOk result (λ loadables. loadables.items ≡ filter is_loadable headers.now) }
{
    headers
        .iter()
        .copied()
        .filter(|header| header.is_loadable())
        .collect(alloc)
}

fn has_interpreted(headers: &[ProgramHeader]) -> bool
    ensures { result ≡ list_any is_interpreted headers.now }
{
    headers.iter().any(|header| header.is_interpreted())
}

// The table as a whole.
#[tactic(auto, unfolding(crate::specs::Elf::table_fault))]
fn check_table(headers: &[ProgramHeader], loadables: &[ProgramHeader]) -> Result<(), ElfFault>
    ensures fault { MatchResult result (λ _. table_fault headers.now loadables.now ≡ None) (λ fault. table_fault headers.now loadables.now ≡ Some fault) }
    ensures few { OnOk result (length loadables.now ≤ 16) }
{
    if loadables.len() > MOST_LOADABLES {
        return Err(ElfFault::Header);
    }
    if has_interpreted(headers) {
        return Err(ElfFault::Interpreted);
    }
    Ok(())
}

fn first_sharing(header: &ProgramHeader, later: &[ProgramHeader]) -> Option<usize>
    ensures place { result ≡ position_from (λ other. shares (extent_of header.now) (extent_of other)) 0 later.now }
    ensures inside { IfSome result (λ place. place < length later.now) }
{
    later.iter().position(|other| header.shares(other))
}

// The first header that shares an address with a later one, and the first such later one.
fn first_overlap(loadables: &[ProgramHeader]) -> Option<(usize, usize)>
    ensures places { result ≡ overlap_from extent_of 0 loadables.now }
    ensures inside { IfSome result (λ places. (places.0 < length loadables.now) × (places.1 < length loadables.now)) }
{
    for (lower, header) in loadables.iter().enumerate() {
        if let Some(distance) = first_sharing(header, &loadables[lower + 1..]) {
            return Some((lower, lower + 1 + distance));
        }
    }
    None
}

fn is_held(loadables: &[ProgramHeader], entry: u32) -> bool
    ensures { result ≡ list_any (λ header. holds_entry entry (extent_of header)) loadables.now }
{
    loadables.iter().any(|header| header.holds_entry(entry))
}

fn can_be_entry(loadables: &[ProgramHeader], entry: u32) -> bool
    ensures { result ≡ can_be_entry extent_of entry loadables.now }
{
    entry % 4 == 0 && is_held(loadables, entry)
}

fn first_outside(loadables: &[ProgramHeader], len: usize) -> Option<usize>
    ensures place { result ≡ position_from (is_outside len) 0 loadables.now }
    ensures inside { IfSome result (λ place. place < length loadables.now) }
{
    loadables.iter().position(|header| header.is_outside(len))
}

// Where the loadable headers lie.
#[tactic(auto, unfolding(crate::specs::Elf::loadables_fault))]
fn check_loadables(loadables: &[ProgramHeader], len: usize, entry: u32) -> Result<(), ElfFault>
    requires { length loadables.now ≤ 16 }
    ensures fault { MatchResult result (λ _. loadables_fault len entry loadables.now ≡ None) (λ fault. loadables_fault len entry loadables.now ≡ Some fault) }
    ensures inside { OnOk result (All (λ header. is_outside len header ≡ false) loadables.now) }
{
    if let Some(index) = first_outside(loadables, len) {
        return Err(ElfFault::Outside(index as u32));
    }
    if let Some((lower, higher)) = first_overlap(loadables) {
        return Err(ElfFault::Overlap(lower as u32, higher as u32));
    }
    if !can_be_entry(loadables, entry) {
        return Err(ElfFault::Entry);
    }
    Ok(())
}

fn segments(
    alloc: Global,
    bytes: &[u8],
    loadables: &[ProgramHeader],
) -> Result<Vec<Segment>, AllocError>
    requires { All (λ header. is_outside (length bytes.now) header ≡ false) loadables.now }
    ensures { IfOk result (λ segments. map segment_range segments.items ≡ map (range_in bytes.now) loadables.now) }
{
    let mut segments = Vec::new(alloc);
    for header in loadables {
        segments.push(header.segment(alloc, bytes)?)?;
    }
    Ok(segments)
}

/// Reads a version file.
pub fn read(alloc: Global, bytes: &[u8]) -> Result<Program, ElfFault>
    ensures program { IfOk result (λ program. elf_of bytes.now ≡ Accepted (executable_of program)) }

    ensures few { IfOk result (λ program. vec_len program.segments ≤ 16) }

    ensures sound { IfOk result (λ program. IsTrue (is_program (executable_of program))) }

    // want of memory is the one free answer
    ensures fault { IfErr result (λ fault. (fault ≡ Memory) ⊎ (elf_of bytes.now ≡ Refused fault)) }
{
    check_file(bytes)?;
    let headers = program_headers(alloc, bytes)?;
    let loadables = loadables(alloc, &headers)?;
    check_table(&headers, &loadables)?;
    let entry = u32_at(bytes, 24);
    check_loadables(&loadables, bytes.len(), entry)?;
    let segments = segments(alloc, bytes, &loadables)?;
    Ok(Program { entry, segments })
}
