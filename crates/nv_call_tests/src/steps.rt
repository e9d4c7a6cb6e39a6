ghost use Rattle.std.specs.Prelude.{◌≡◌, true};

use nv_machine::{FaultKind, Regs, Stepped, step};
use nv_memory::{Memory, Region, Width};
use std::test::Fail;

// What GNU as and ld (binutils 2.40 for riscv64-unknown-elf) wrote at 0x8000.
static PROGRAM: [u8; 72] = [
    0xb7, 0x02, 0x01, 0x00, // lui x5, 0x10
    0x13, 0x03, 0x40, 0x00, // addi x6, x0, 4
    0xef, 0x00, 0x00, 0x02, // jal x1, sum
    0x13, 0x05, 0x85, 0xc1, // addi x10, x10, -1000
    0x93, 0x55, 0x15, 0x40, // srai x11, x10, 1
    0x13, 0x56, 0xc5, 0x01, // srli x12, x10, 28
    0x23, 0x91, 0xa2, 0x00, // sh x10, 2(x5)
    0x83, 0x96, 0x22, 0x00, // lh x13, 2(x5)
    0x03, 0xd7, 0x22, 0x00, // lhu x14, 2(x5)
    0x73, 0x00, 0x00, 0x00, // ecall
    0x13, 0x05, 0x00, 0x00, // sum: addi x10, x0, 0
    0x83, 0xc3, 0x02, 0x00, // more: lbu x7, 0(x5)
    0x33, 0x05, 0x75, 0x00, // add x10, x10, x7
    0x93, 0x82, 0x12, 0x00, // addi x5, x5, 1
    0x13, 0x03, 0xf3, 0xff, // addi x6, x6, -1
    0xe3, 0x18, 0x03, 0xfe, // bne x6, x0, more
    0x93, 0x82, 0xc2, 0xff, // addi x5, x5, -4
    0x67, 0x80, 0x00, 0x00, // jalr x0, 0(x1)
];

fn region(start: u32, end: u32) -> Region
    ensures { result ≡ record { start = start; end = end; read = true; write = true; execute = true } }
{
    Region {
        start,
        end,
        read: true,
        write: true,
        execute: true,
    }
}

// A sum of four bytes by a function, with a load and a store of the result.
#[test]
fn assembled_program(rt: HostRuntime) -> Result<(), Fail> {
    let regions = vec![in rt.alloc(); region(0x8000, 0x8048), region(0x10000, 0x10004)]?;
    let mut memory = Memory::make(rt.alloc(), 0x20000, regions)?;
    assert_eq!(rt; memory.copy_out(0x8000, &PROGRAM), Ok(()));
    assert_eq!(rt; memory.copy_out(0x10000, &[10, 20, 30, 40]), Ok(()));
    let mut regs = Regs::new(0x8000);
    for done in 0..100 {
        if step(&mut regs, &mut memory) != Stepped::On {
            assert_eq!(rt; done, 32);
            break;
        }
    }
    assert_eq!(rt; regs.pc, 0x8024);
    for (n, value) in [
        (0, 0),
        (1, 0x800c),
        (5, 0x10000),
        (6, 0),
        (10, 0xffff_fc7c),
        (11, 0xffff_fe3e),
        (12, 15),
        (13, 0xffff_fc7c),
        (14, 0xfc7c),
    ] {
        assert_eq!(rt; regs.get(n), value);
    }
    Ok(())
}

// One word, in memory that may not be read or written at 0.
#[test]
fn single_words(rt: HostRuntime) -> Result<(), Fail> {
    for (word, want) in [
        (0x0000_0013, Stepped::On), // addi x0, x0, 0
        (0x0ff0_000f, Stepped::On), // fence
        (0x0000_0073, Stepped::Call), // ecall
        (0x0010_0073, Stepped::Fault(FaultKind::Breakpoint)), // ebreak
        (0x0020_006f, Stepped::Fault(FaultKind::Misaligned)), // jal x0, . + 2
        (0x0000_0163, Stepped::Fault(FaultKind::Misaligned)), // beq x0, x0, . + 2
        (0x0000_1163, Stepped::On), // bne x0, x0, . + 2
        (0x0000_2003, Stepped::Fault(FaultKind::Load)), // lw x0, 0(x0)
        (0x0000_2023, Stepped::Fault(FaultKind::Store)), // sw x0, 0(x0)
        (0x1000_202f, Stepped::Fault(FaultKind::Load)), // lr.w x0, (x0)
        (0x1800_202f, Stepped::Fault(FaultKind::Store)), // sc.w x0, x0, (x0)
        (0x0000_202f, Stepped::Fault(FaultKind::Store)), // amoadd.w x0, x0, (x0)
        (0x0000_0000, Stepped::Fault(FaultKind::Illegal)),
    ] {
        let regions = vec![in rt.alloc(); region(0x8000, 0x8004)]?;
        let mut memory = Memory::make(rt.alloc(), 0x20000, regions)?;
        assert_eq!(rt; memory.store(0x8000, Width::Four, word), Ok(()));
        let mut regs = Regs::new(0x8000);
        assert_eq!(rt; step(&mut regs, &mut memory), want);
        regs.pc = 0x8004;
        assert_eq!(rt;
            step(&mut regs, &mut memory),
            Stepped::Fault(FaultKind::Fetch)
        );
    }
    Ok(())
}

// The address of the instruction, and that of the eight bytes that it may load and store.
const CODE: u32 = 0x8000;

const DATA: u32 = 0x1_0000;

// The rights of the word at an address, and how the three kinds of atomic instruction end there: lr.w, sc.w and amoadd.w
// of x0 at x5.
#[test]
fn atomic_faults(rt: HostRuntime) -> Result<(), Fail> {
    for (read, write, at, reserves, stores, combines) in [
        (true, true, DATA, true, true, true),
        (true, true, DATA + 1, false, false, false),
        (true, true, DATA + 2, false, false, false),
        (true, true, DATA + 8, false, false, false),
        (true, false, DATA, true, false, false),
        (false, true, DATA, false, true, false),
        (false, false, DATA, false, false, false),
    ] {
        for (word, goes, kind) in [
            (0x1002_a02f, reserves, FaultKind::Load),
            (0x1802_a02f, stores, FaultKind::Store),
            (0x0002_a02f, combines, FaultKind::Store),
        ] {
            let mut data = region(DATA, DATA + 8);
            data.read = read;
            data.write = write;
            let regions = vec![in rt.alloc(); region(CODE, CODE + 4), data]?;
            let mut memory = Memory::make(rt.alloc(), 0x20000, regions)?;
            assert_eq!(rt; memory.store(CODE, Width::Four, word), Ok(()));
            let mut regs = Regs::new(CODE);
            regs.set(5, at);
            let want = if goes {
                Stepped::On
            } else {
                Stepped::Fault(kind)
            };
            assert_eq!(rt; step(&mut regs, &mut memory), want);
        }
    }
    Ok(())
}

// The word is written at CODE and executed there, with this address in x5.
fn execute(regs: &mut Regs, memory: &mut Memory, word: u32, at: u32) -> Option<Stepped> {
    memory.store(CODE, Width::Four, word).ok()?;
    regs.pc = CODE;
    regs.set(5, at);
    Some(step(regs, memory))
}

// A fault leaves the reservation, and `release` ends it.
#[test]
fn reservation(rt: HostRuntime) -> Result<(), Fail> {
    let regions = vec![in rt.alloc(); region(CODE, CODE + 4), region(DATA, DATA + 8)]?;
    let mut memory = Memory::make(rt.alloc(), 0x20000, regions)?;
    let mut regs = Regs::new(CODE);
    assert_eq!(rt; regs.reserved(), None);
    for (word, at, want) in [
        (0x1002_a02f, DATA, Stepped::On), // lr.w x0, (x5)
        (0x1802_a02f, DATA + 1, Stepped::Fault(FaultKind::Store)), // sc.w x0, x0, (x5)
    ] {
        assert_eq!(rt; execute(&mut regs, &mut memory, word, at), Some(want));
        assert_eq!(rt; regs.reserved(), Some(DATA));
        assert_eq!(rt; regs.copy().reserved(), Some(DATA));
    }
    regs.release();
    assert_eq!(rt; regs.reserved(), None);
    Ok(())
}
