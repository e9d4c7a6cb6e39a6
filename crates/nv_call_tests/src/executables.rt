// Files from outside, damaged ones, and a program written and read back.
ghost use Rattle.std.specs.Prelude.{◌≤◌, ◌↔◌, IsTrue};
ghost use Rattle.nv_elf.specs.Elf.{executable_of};
ghost use Rattle.nv_elf.specs.Written.{range_bytes};

use nv_bytes::{put_u32, unhex};
use nv_elf::{ElfFault, Program, Segment, read, write};
use std::alloc::Global;
use std::process::Abort;
use std::test::Fail;

// A file of one segment at 0x10000 that writes `hi` and ends.
const HELLO: [&[u8]; 3] = [
    b"7f454c460101010000000000000000000200f30001000000000001003400000000000000000000003400200001000000",
    b"000000000100000054000000000001000000010027000000270000000500000004000000b70501009385450213051000",
    b"130630009308000473000000130500009308e0057300000068690a",
];

// What GNU as and ld 2.40 make of a text of five instructions, a word of data and 24 bytes of .bss, linked with
// `-m elf32lriscv -z max-page-size=16 -s`.
const LINKED: [&[u8]; 11] = [
    b"7f454c460101010000000000000000000200f300010000009400010034000000fc000000000000003400200003002800",
    b"0600050003000070b400000000000000000000001a000000000000000400000001000000010000000000000000000100",
    b"00000100a8000000a8000000050000001000000001000000b0000000b0000100b0000100040000001c00000006000000",
    b"10000000170500001305c501832505009308e00573000000000000000000000007000000411900000072697363760001",
    b"0f00000005727633326932703100002e7368737472746162002e74657874002e64617461002e627373002e7269736376",
    b"2e6174747269627574657300000000000000000000000000000000000000000000000000000000000000000000000000",
    b"000000000b00000001000000060000009400010094000000140000000000000000000000040000000000000011000000",
    b"0100000003000000b0000100b00000000400000000000000000000000100000000000000170000000800000003000000",
    b"b4000100b400000018000000000000000000000001000000000000001c000000030000700000000000000000b4000000",
    b"1a0000000000000000000000010000000000000001000000030000000000000000000000ce0000002e00000000000000",
    b"000000000100000000000000",
];

// What each byte of HELLO's headers makes of the file, once it is 00 or FF. `.` is an accepted file, O is Outside(0).
const ZEROED: &[u8; 84] =
    b"MMMMCCH.........K.A.H.....E.E.............H.E.......E.........E.........E...E.......";

const FILLED: &[u8; 84] =
    b"MMMMCCH.........KKAAHHHHEEEEHHHH....F.....HHHH......EEEEOOOOEEEE....OOOO............";

fn file_of(alloc: Global, lines: &[&[u8]]) -> Result<Vec<u8>, Fail> {
    let mut file = Vec::new(alloc);
    for line in lines {
        let bytes = unhex(alloc, line)?.ok_or("hexadecimal")?;
        file.extend_from_slice(&bytes)?;
    }
    Ok(file)
}

// The letter of a fault.
fn answer(alloc: Global, file: &[u8]) -> u8 {
    match read(alloc, file) {
        Ok(_) => b'.',
        Err(ElfFault::Short) => b'S',
        Err(ElfFault::Magic) => b'M',
        Err(ElfFault::Class) => b'C',
        Err(ElfFault::Kind) => b'K',
        Err(ElfFault::Machine) => b'A',
        Err(ElfFault::Flags) => b'F',
        Err(ElfFault::Header) => b'H',
        Err(ElfFault::Interpreted) => b'I',
        Err(ElfFault::Outside(0)) => b'O',
        Err(ElfFault::Overlap(0, 1)) => b'V',
        Err(ElfFault::Entry) => b'E',
        Err(_) => b'?',
    }
}

#[test]
fn cut_files(rt: HostRuntime) -> Result<(), Fail> {
    let alloc = rt.alloc();
    let file = file_of(alloc, &HELLO)?;
    for (end, _) in file.iter().enumerate() {
        let want = if end < 52 {
            b'S'
        } else if end < 84 {
            b'H'
        } else {
            b'O'
        };
        assert!(rt; answer(alloc, &file[..end]) == want, "cut to {end} bytes");
    }
    Ok(())
}

// What one byte of the file makes of it.
fn damaged(rt: &impl Abort, alloc: Global, place: usize, byte: u8) -> Result<u8, Fail> {
    let mut file = file_of(alloc, &HELLO)?;
    let len = file.len();
    assert!(rt; place < len);
    file[place] = byte;
    Ok(answer(alloc, &file))
}

#[test]
fn damaged_headers(rt: HostRuntime) -> Result<(), Fail> {
    let alloc = rt.alloc();
    for (place, want) in ZEROED.iter().enumerate() {
        assert!(rt;
            damaged(&rt, alloc, place, 0)? == *want,
            "byte {place} made 00"
        );
    }
    for (place, want) in FILLED.iter().enumerate() {
        assert!(rt;
            damaged(&rt, alloc, place, 0xff)? == *want,
            "byte {place} made FF"
        );
    }
    Ok(())
}

// What a changed field of four bytes makes of the file.
fn changed_fault(
    rt: &impl Abort,
    alloc: Global,
    place: usize,
    value: u32,
) -> Result<Option<ElfFault>, Fail> {
    let mut file = file_of(alloc, &HELLO)?;
    let len = file.len();
    assert!(rt; place < 84 && len == 123);
    put_u32(&mut file, place, value);
    Ok(read(alloc, &file).err())
}

#[test]
fn damaged_fields(rt: HostRuntime) -> Result<(), Fail> {
    let alloc = rt.alloc();
    // type and machine, flags, offset, end of the addresses, size, rights, entry, header types, version
    let table = [
        (16, 62 * 0x1_0000 + 2, Some(ElfFault::Machine)),
        (36, 1, Some(ElfFault::Flags)),
        (36, 8, Some(ElfFault::Flags)),
        (36, 0xffff_fff0, None),
        (56, 85, Some(ElfFault::Outside(0))),
        (60, 0xffff_ffd9, Some(ElfFault::Outside(0))),
        (72, 0x26, Some(ElfFault::Outside(0))),
        (72, 0xfffe_ffff, None),
        (76, 6, Some(ElfFault::Entry)),
        (24, 0x1_0002, Some(ElfFault::Entry)),
        (24, 0x1_0020, None),
        (24, 0x1_0024, Some(ElfFault::Entry)),
        (52, 2, Some(ElfFault::Interpreted)),
        (52, 3, Some(ElfFault::Interpreted)),
        (20, 2, Some(ElfFault::Header)),
    ];
    for (place, value, want) in table {
        assert!(rt;
            changed_fault(&rt, alloc, place, value)? == want,
            "{value} at {place}"
        );
    }
    Ok(())
}

fn has_extent(segment: &Segment, address: u32, size: u32) -> bool {
    segment.address == address && segment.size == size
}

fn has_rights(segment: &Segment, read: bool, write: bool, execute: bool) -> bool {
    segment.read == read && segment.write == write && segment.execute == execute
}

#[test]
fn linker_made_file(rt: HostRuntime) -> Result<(), Fail> {
    let alloc = rt.alloc();
    let file = file_of(alloc, &LINKED)?;
    let program = read(alloc, &file).ok().ok_or("read")?;
    let [text, data] = program.segments.as_slice() else {
        return Err(Fail::from("two segments"));
    };
    assert_eq!(rt; program.entry, 0x1_0094);
    assert!(rt; has_extent(text, 0x1_0000, 0xa8) && has_rights(text, true, false, true));
    assert!(rt; file.get(..0xa8) == Some(text.bytes.as_slice()));
    assert!(rt; has_extent(data, 0x1_00b0, 0x1c) && has_rights(data, true, true, false));
    assert!(rt; data.bytes.as_slice() == [7, 0, 0, 0].as_slice());
    Ok(())
}

// A file whose loadable segments have these addresses and sizes, no bytes, and all rights; the entry is 0x10000.
fn tabled(alloc: Global, extents: &[(u32, u32)]) -> Result<Vec<u8>, Fail> {
    let mut file = file_of(alloc, &HELLO)?;
    let count = u16::try_from(extents.len()).ok().ok_or("too many")?;
    file.truncate(44);
    file.extend_from_slice(&count.to_le_bytes())?;
    file.extend_from_slice(&[0; 6])?;
    for (address, size) in extents {
        for field in [1, 0, *address, *address, 0, *size, 7, 4] {
            file.extend_from_slice(&u32::to_le_bytes(field))?;
        }
    }
    Ok(file)
}

fn tabled_fault(alloc: Global, extents: &[(u32, u32)]) -> Result<Option<ElfFault>, Fail> {
    let file = tabled(alloc, extents)?;
    Ok(read(alloc, &file).err())
}

#[test]
fn tables_of_segments(rt: HostRuntime) -> Result<(), Fail> {
    let alloc = rt.alloc();
    let apart = [(0x1_0008, 8), (0x1_0000, 8), (0x1_0010, 1)];
    assert!(rt; tabled_fault(alloc, &apart)?.is_none());
    let overlapping = [(0x1_0000, 8), (0x2_0000, 8), (0x2_0004, 1), (0x1_0007, 9)];
    assert!(rt; tabled_fault(alloc, &overlapping)? == Some(ElfFault::Overlap(0, 3)));
    let inside = [(0x3_0000, 1), (0x1_0004, 4), (0x1_0005, 1), (0x1_0000, 8)];
    assert!(rt; tabled_fault(alloc, &inside)? == Some(ElfFault::Overlap(1, 2)));
    let outside = [(0x1_0000, 8), (0x1_0000, 8), (0xffff_ffff, 1)];
    assert!(rt; tabled_fault(alloc, &outside)? == Some(ElfFault::Outside(2)));
    Ok(())
}

#[test]
fn sixteen_segments(rt: HostRuntime) -> Result<(), Fail> {
    let alloc = rt.alloc();
    let mut many = vec![in alloc; (0x9_0000, 0)]?;
    for i in 0..16 {
        many.push((0x1_0000 + 4 * i, 4))?;
    }
    assert!(rt; tabled_fault(alloc, &many)?.is_none());
    many.push((0x9_0000, 1))?;
    assert!(rt; tabled_fault(alloc, &many)? == Some(ElfFault::Header));
    Ok(())
}

// The bytes of its segments are no more than a written file has room for.
fn is_small(program: &Program) -> bool
    ensures { IsTrue result ↔ (range_bytes (executable_of program.now).ranges ≤ 1_073_741_824) }
{
    let mut left = 1_073_741_824;
    for segment in &program.segments {
        let len = segment.bytes.len();
        if len > left {
            return false;
        }
        left -= len;
    }
    true
}

#[test]
fn written_files(rt: HostRuntime) -> Result<(), Fail> {
    let alloc = rt.alloc();
    let file = file_of(alloc, &HELLO)?;
    let program = read(alloc, &file).ok().ok_or("read")?;
    assert!(rt; is_small(&program));
    let written = write(alloc, &program)?;
    assert_eq!(rt; written.as_slice(), file.as_slice());
    Ok(())
}
