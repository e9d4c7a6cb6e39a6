//! Runs one of three guests for a number of instructions, and prints where it came; bench/machine_loops.py takes the time.
ghost use Rattle.std.specs.Prelude.{◌≡◌, true};

use anyhow::{Result, bail};
use nv_bytes::number;
use nv_machine::{Regs, Stepped, step};
use nv_memory::{Memory, Region, Width};
use std::alloc::{AllocError, Global};
use std::io::Print;

/// Where each guest begins.
const CODE: u32 = 0x8000;

/// The first word that the guest `memory` loads.
const TABLE: u32 = 0x10000;

// Counts down from 2^30.
static COUNT: [u32; 4] = [
    0x4000_02b7, // lui x5, 0x40000
    0xfff2_8293, // more: addi x5, x5, -1
    0xfe02_9ee3, // bne x5, x0, more
    0x0000_0073, // ecall
];

// Adds 1 to each word of 64 KiB, again and again.
static MEMORY: [u32; 8] = [
    0x0002_0437, // lui x8, 0x20
    0x0001_03b7, // again: lui x7, 0x10
    0x0003_a303, // more: lw x6, 0(x7)
    0x0013_0313, // addi x6, x6, 1
    0x0063_a023, // sw x6, 0(x7)
    0x0043_8393, // addi x7, x7, 4
    0xfe83_98e3, // bne x7, x8, more
    0xfe9f_f06f, // jal x0, again
];

// Calls a function that keeps its return address on the stack.
static CALLS: [u32; 10] = [
    0x0004_0137, // lui x2, 0x40
    0x00c0_00ef, // more: jal x1, leaf
    0x0012_8293, // addi x5, x5, 1
    0xff9f_f06f, // jal x0, more
    0xff01_0113, // leaf: addi x2, x2, -16
    0x0011_2623, // sw x1, 12(x2)
    0x0035_0513, // addi x10, x10, 3
    0x00c1_2083, // lw x1, 12(x2)
    0x0101_0113, // addi x2, x2, 16
    0x0000_8067, // jalr x0, 0(x1)
];

fn words_of(name: &str) -> Option<&'static [u32]> {
    match name {
        "count" => Some(&COUNT),
        "memory" => Some(&MEMORY),
        "calls" => Some(&CALLS),
        _ => None,
    }
}

fn region(start: u32, end: u32, execute: bool) -> Region
    ensures { result ≡ record { start = start; end = end; read = true; write = true; execute = execute } }
{
    Region {
        start,
        end,
        read: true,
        write: true,
        execute,
    }
}

// Code, 64 KiB of data, the stack and an empty heap.
fn guest_memory(alloc: Global) -> Result<Memory, AllocError> {
    let regions = vec![in alloc;
        region(CODE, 0x9000, true),
        region(TABLE, 0x20000, false),
        region(0x30000, 0x40000, false),
        region(0x20000, 0x20000, false),
    ]?;
    Memory::make(alloc, 0x40000, regions)
}

// The number of instructions that were carried out.
fn run(regs: &mut Regs, memory: &mut Memory, count: u32) -> u32 {
    for done in 0..count {
        if step(regs, memory) != Stepped::On {
            return done;
        }
    }
    count
}

/// Takes a guest's name and a number of instructions.
pub fn run_words<R: Print + AllocGlobal>(rt: &R, words: &[String]) -> Result<()> {
    let [name, count] = words else {
        bail!("a guest and a number of instructions");
    };
    let Some(count) = number(count.as_bytes()) else {
        bail!("a number of instructions");
    };
    run_guest(rt, name, count)
}

/// Runs the guest of this name, and prints where it came.
pub fn run_guest<R: Print + AllocGlobal>(rt: &R, name: &str, count: u32) -> Result<()> {
    let Some(words) = words_of(name) else {
        bail!("count, memory or calls");
    };
    let mut memory = guest_memory(rt.alloc())?;
    let mut at = CODE;
    for word in words {
        let _stored = memory.store(at, Width::Four, *word);
        at = at.wrapping_add(4);
    }
    let mut regs = Regs::new(CODE);
    let done = run(&mut regs, &mut memory, count);
    let (five, ten) = (regs.get(5), regs.get(10));
    let first = memory.load(TABLE, Width::Four).unwrap_or(0);
    println!(rt;
        "{name}: {done} steps, pc {:08x}, x5 {five:08x}, x10 {ten:08x}, first word {first:08x}",
        regs.pc
    )?;
    Ok(())
}
