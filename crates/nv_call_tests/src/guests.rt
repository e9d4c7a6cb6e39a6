// A guest's threads, memory, calls and heap.
ghost use Rattle.std.specs.Prelude.{◌≡◌};
ghost use Rattle.nv_guest.specs.Guest.{machine_of, one_thread};

use nv_guest::{Guest, GuestFault};
use nv_machine::Stepped;
use nv_memory::{Right, Width};
use std::alloc::{AllocError, Global};
use std::test::Fail;

// An ELF file with one segment at 0x10000, which may be read and executed: `li a7, 94` and `ecall` (GNU as).
static FILE: [u8; 96] = [
    0x7f, 0x45, 0x4c, 0x46, 0x01, 0x01, 0x01, 0x00, 0x00, 0x00, 0x00, 0x00, 0x00, 0x00, 0x00, 0x00,
    0x02, 0x00, 0xf3, 0x00, 0x01, 0x00, 0x00, 0x00, 0x00, 0x00, 0x01, 0x00, 0x34, 0x00, 0x00, 0x00,
    0x00, 0x00, 0x00, 0x00, 0x00, 0x00, 0x00, 0x00, 0x34, 0x00, 0x20, 0x00, 0x01, 0x00, 0x00, 0x00,
    0x00, 0x00, 0x00, 0x00, 0x01, 0x00, 0x00, 0x00, 0x54, 0x00, 0x00, 0x00, 0x00, 0x00, 0x01, 0x00,
    0x00, 0x00, 0x01, 0x00, 0x0c, 0x00, 0x00, 0x00, 0x0c, 0x00, 0x00, 0x00, 0x05, 0x00, 0x00, 0x00,
    0x04, 0x00, 0x00, 0x00, 0xb7, 0x08, 0x00, 0x00, 0x93, 0x88, 0xe8, 0x05, 0x73, 0x00, 0x00, 0x00,
];

fn zeros(alloc: Global, count: usize) -> Result<Vec<u8>, AllocError> {
    vec![in alloc; 0; count]
}

// Three arguments, their addresses, and behind a 0 the environment and the auxiliary vector, which are empty; then the strings.
const BLOCK: &[u8; 48] =
    b"\x03\0\0\0\xf5\xff\x03\0\xfb\xff\x03\0\xfe\xff\x03\0\0\0\0\0\0\0\0\0\0\0\0\0\0\0\0\0\0\0\0\0\0guest\0ab\0c\0";

// The words and strings of the argument block, in a memory that ends at 0x40000.
#[test]
fn argument_block(rt: HostRuntime) -> Result<(), Fail> {
    let alloc = rt.alloc();
    let program = nv_elf::read(alloc, &FILE)?;
    let arguments = vec![in alloc;
        Vec::from_slice(alloc, b"ab")?,
        Vec::from_slice(alloc, b"c")?,
    ]?;
    let guest = Guest::make(alloc, &program, &arguments, 0x40000)?;
    for (n, value) in [(2, 0x3ffd0), (17, 0)] {
        assert_eq!(rt; guest.regs(100).get(n), value);
    }
    let mut block = [0; 48];
    assert_eq!(rt; guest.memory().copy_in(0x3ffd0, &mut block), Ok(()));
    assert_eq!(rt; block.as_slice(), BLOCK.as_slice());
    Ok(())
}

// The code may be executed and not written, and the stack is below the end of memory.
#[test]
fn regions_of_a_guest(rt: HostRuntime) -> Result<(), Fail> {
    let alloc = rt.alloc();
    let program = nv_elf::read(alloc, &FILE)?;
    let guest = Guest::make(alloc, &program, &[], 0x40000)?;
    assert_eq!(rt; guest.pc(100), 0x10000);
    assert_eq!(rt; guest.memory().load(0x10008, Width::Four), Ok(0x73));
    for (start, len, may_write) in [
        (0x10000, 1, false),
        (0x30000, 0x10000, true),
        (0x2fffc, 8, false),
    ] {
        assert_eq!(rt; guest.memory().holds(start, len, Right::Write), may_write);
    }
    Ok(())
}

#[test]
fn programs_without_room(rt: HostRuntime) -> Result<(), Fail> {
    let alloc = rt.alloc();
    let program = nv_elf::read(alloc, &FILE)?;
    let low = Guest::make(alloc, &program, &[], 0x20000).err();
    assert_eq!(rt; low, Some(GuestFault::NoRoom(0)));
    let long = vec![in alloc; zeros(alloc, 65536)?]?;
    let many = Guest::make(alloc, &program, &long, 0x40000).err();
    assert_eq!(rt; many, Some(GuestFault::Arguments));
    Ok(())
}

// Thread 101 is made, and runs an instruction: the places of both, and how it ended.
fn run_child(guest: &mut Guest) -> (u32, u32, Stepped)
    requires { guest.old ≡ one_thread (machine_of guest.old) }
{
    guest.clone_thread(100, 101);
    let stepped = guest.step(101);
    (guest.pc(100), guest.pc(101), stepped)
}

// Thread 101 is made, and lives on alone: its place.
fn leave_child(guest: &mut Guest) -> u32
    requires { guest.old ≡ one_thread (machine_of guest.old) }
{
    guest.clone_thread(100, 101);
    guest.end_thread(100);
    guest.pc(101)
}

#[test]
fn two_threads(rt: HostRuntime) -> Result<(), Fail> {
    let alloc = rt.alloc();
    let program = nv_elf::read(alloc, &FILE)?;
    let mut guest = Guest::make(alloc, &program, &[], 0x40000)?;
    assert_eq!(rt; run_child(&mut guest), (0x10000, 0x10008, Stepped::On));
    let mut guest = Guest::make(alloc, &program, &[], 0x40000)?;
    assert_eq!(rt; leave_child(&mut guest), 0x10004);
    Ok(())
}

// The heap of FILE starts at 0x11000, and the stack at 0x30000.
#[test]
fn breaks(rt: HostRuntime) -> Result<(), Fail> {
    let alloc = rt.alloc();
    let program = nv_elf::read(alloc, &FILE)?;
    let mut guest = Guest::make(alloc, &program, &[], 0x40000)?;
    for (address, end) in [
        (0, 0x11000),
        (0x10fff, 0x11000),
        (0x11001, 0x11001),
        (0x11000, 0x11000),
        (0x30001, 0x11000),
        (0x30000, 0x30000),
        (0xffff_ffff, 0x30000),
        (0x12000, 0x12000),
    ] {
        assert_eq!(rt; guest.move_break(address), end, "{address}");
    }
    assert!(rt; guest.memory().holds(0x11000, 0x1000, Right::Write));
    assert!(rt; !guest.memory().holds(0x11fff, 2, Right::Read));
    Ok(())
}

// FILE with another program: `lui a0, 0x11`, `addi a1, x0, 85` and `sw a1, 0(a0)`.
fn storing_file(alloc: Global) -> Result<Vec<u8>, AllocError> {
    let mut file = Vec::from_slice(alloc, &FILE)?;
    let code = b"\x37\x15\x01\0\x93\x05\x50\x05\x23\x20\xb5\0";
    for (i, byte) in code.iter().enumerate() {
        if let Some(place) = file.get_mut(84 + i) {
            *place = *byte;
        }
    }
    Ok(file)
}

// Bytes that leave the heap are 0 when it comes back.
#[test]
fn heap_forgets(rt: HostRuntime) -> Result<(), Fail> {
    let alloc = rt.alloc();
    let program = nv_elf::read(alloc, &storing_file(alloc)?)?;
    let mut guest = Guest::make(alloc, &program, &[], 0x40000)?;
    assert_eq!(rt; guest.move_break(0x11004), 0x11004);
    assert_eq!(rt; guest.run(100, 3), (3, Stepped::On));
    for (end, word) in [(0x11004, 85), (0x11002, 85), (0x11000, 0)] {
        assert_eq!(rt; guest.move_break(end), end);
        assert_eq!(rt; guest.move_break(0x11004), 0x11004);
        assert_eq!(rt; guest.memory().load(0x11000, Width::Four), Ok(word));
    }
    Ok(())
}
