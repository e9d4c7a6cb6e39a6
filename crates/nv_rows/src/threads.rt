//! Runs a guest of one or of eight threads, or one that reads, for a number of instructions, and prints where it came; or the guest of a
//! file, which reads another file. bench/thread_loops.py takes the time.
ghost use Rattle.std.specs.Prelude.{◌≡◌, ◌≤◌, None, IfOk};
ghost use Rattle.nv_threads.specs.Threads.{threads};
ghost use Rattle.nv_rows.specs.Firsts.{firsts};
ghost use Rattle.nv_guest.specs.Load.{IsMemorySize};

use anyhow::{Result, bail};
use nv_bytes::number;
use nv_calls::{CLONE, FIRST_THREAD, MOST_THREADS};
use nv_guest::Guest;
use nv_threads::{Came, Process, Want};
use std::alloc::Global;
use std::fs;
use std::io::Print;
use std::rt::Files;

// Counts down from 2^30.
static ONE: [u8; 140] = [
    0x7f, 0x45, 0x4c, 0x46, 0x01, 0x01, 0x01, 0x00, 0x00, 0x00, 0x00, 0x00, 0x00, 0x00, 0x00, 0x00,
    0x02, 0x00, 0xf3, 0x00, 0x01, 0x00, 0x00, 0x00, 0x00, 0x00, 0x01, 0x00, 0x34, 0x00, 0x00, 0x00,
    0x00, 0x00, 0x00, 0x00, 0x00, 0x00, 0x00, 0x00, 0x34, 0x00, 0x20, 0x00, 0x01, 0x00, 0x00, 0x00,
    0x00, 0x00, 0x00, 0x00, 0x01, 0x00, 0x00, 0x00, 0x54, 0x00, 0x00, 0x00, 0x00, 0x00, 0x01, 0x00,
    0x00, 0x00, 0x01, 0x00, 0x38, 0x00, 0x00, 0x00, 0x38, 0x00, 0x00, 0x00, 0x05, 0x00, 0x00, 0x00,
    0x04, 0x00, 0x00, 0x00, 0x13, 0x04, 0x00, 0x00, 0x63, 0x02, 0x04, 0x02, 0x37, 0x15, 0x01, 0x00,
    0x13, 0x05, 0x05, 0xf0, 0x93, 0x05, 0x00, 0x00, 0x93, 0x08, 0xc0, 0x0d, 0x73, 0x00, 0x00, 0x00,
    0x63, 0x06, 0x05, 0x00, 0x13, 0x04, 0xf4, 0xff, 0x6f, 0xf0, 0x1f, 0xfe, 0xb7, 0x02, 0x00, 0x40,
    0x93, 0x82, 0xf2, 0xff, 0xe3, 0x9e, 0x02, 0xfe, 0x73, 0x00, 0x00, 0x00,
];

// Makes seven threads, and counts down from 2^30 in each.
static EIGHT: [u8; 140] = [
    0x7f, 0x45, 0x4c, 0x46, 0x01, 0x01, 0x01, 0x00, 0x00, 0x00, 0x00, 0x00, 0x00, 0x00, 0x00, 0x00,
    0x02, 0x00, 0xf3, 0x00, 0x01, 0x00, 0x00, 0x00, 0x00, 0x00, 0x01, 0x00, 0x34, 0x00, 0x00, 0x00,
    0x00, 0x00, 0x00, 0x00, 0x00, 0x00, 0x00, 0x00, 0x34, 0x00, 0x20, 0x00, 0x01, 0x00, 0x00, 0x00,
    0x00, 0x00, 0x00, 0x00, 0x01, 0x00, 0x00, 0x00, 0x54, 0x00, 0x00, 0x00, 0x00, 0x00, 0x01, 0x00,
    0x00, 0x00, 0x01, 0x00, 0x38, 0x00, 0x00, 0x00, 0x38, 0x00, 0x00, 0x00, 0x05, 0x00, 0x00, 0x00,
    0x04, 0x00, 0x00, 0x00, 0x13, 0x04, 0x70, 0x00, 0x63, 0x02, 0x04, 0x02, 0x37, 0x15, 0x01, 0x00,
    0x13, 0x05, 0x05, 0xf0, 0x93, 0x05, 0x00, 0x00, 0x93, 0x08, 0xc0, 0x0d, 0x73, 0x00, 0x00, 0x00,
    0x63, 0x06, 0x05, 0x00, 0x13, 0x04, 0xf4, 0xff, 0x6f, 0xf0, 0x1f, 0xfe, 0xb7, 0x02, 0x00, 0x40,
    0x93, 0x82, 0xf2, 0xff, 0xe3, 0x9e, 0x02, 0xfe, 0x73, 0x00, 0x00, 0x00,
];

// Reads 4,096 bytes to below the stack pointer, again and again.
static READS: [u8; 108] = [
    0x7f, 0x45, 0x4c, 0x46, 0x01, 0x01, 0x01, 0x00, 0x00, 0x00, 0x00, 0x00, 0x00, 0x00, 0x00, 0x00,
    0x02, 0x00, 0xf3, 0x00, 0x01, 0x00, 0x00, 0x00, 0x00, 0x00, 0x01, 0x00, 0x34, 0x00, 0x00, 0x00,
    0x00, 0x00, 0x00, 0x00, 0x00, 0x00, 0x00, 0x00, 0x34, 0x00, 0x20, 0x00, 0x01, 0x00, 0x00, 0x00,
    0x00, 0x00, 0x00, 0x00, 0x01, 0x00, 0x00, 0x00, 0x54, 0x00, 0x00, 0x00, 0x00, 0x00, 0x01, 0x00,
    0x00, 0x00, 0x01, 0x00, 0x18, 0x00, 0x00, 0x00, 0x18, 0x00, 0x00, 0x00, 0x05, 0x00, 0x00, 0x00,
    0x04, 0x00, 0x00, 0x00, 0x37, 0x16, 0x00, 0x00, 0xb3, 0x05, 0xc1, 0x40, 0x13, 0x05, 0x00, 0x00,
    0x93, 0x08, 0xf0, 0x03, 0x73, 0x00, 0x00, 0x00, 0x6f, 0xf0, 0x5f, 0xff,
];

/// The number of the call read.
const READ: u32 = 63;

/// The number of the call write.
const WRITE: u32 = 64;

fn file_of(name: &str) -> Option<&'static [u8]> {
    match name {
        "one" => Some(&ONE),
        "eight" => Some(&EIGHT),
        "answers" => Some(&READS),
        _ => None,
    }
}

/// Answers the calls to clone.
fn start(process: &mut Process)
    requires { threads.live process.old ≡ firsts 1 }
{
    for i in 1..MOST_THREADS as u32 {
        let Came::Asked(tid) = process.advance(Want::Any) else {
            return;
        };
        if process.pending(tid).nr != CLONE {
            return;
        }
        process.answer(tid, (FIRST_THREAD + i) as i32, &[]);
    }
}

/// Answers the next call, if it is a read, with these bytes.
fn answer_read(process: &mut Process, bytes: &[u8]) -> bool {
    if process.ended().is_some() {
        return false;
    }
    let Came::Asked(tid) = process.advance(Want::Any) else {
        return false;
    };
    if process.pending(tid).nr != READ {
        return false;
    }
    process.answer(tid, 4096, bytes);
    true
}

/// How many reads of the process were answered, before it ran out of its instructions.
fn answer_reads(process: &mut Process) -> u32 {
    let bytes = [0x5a; 4096];
    for done in 0..u32::MAX {
        if !answer_read(process, &bytes) {
            return done;
        }
    }
    u32::MAX
}

/// Answers the next call: a read gets the next bytes of the input, and what is written is let go.
fn answer_next(process: &mut Process, input: &[u8], at: &mut usize) -> bool {
    if process.ended().is_some() {
        return false;
    }
    let Came::Asked(tid) = process.advance(Want::Any) else {
        return false;
    };
    let call = process.pending(tid);
    let (nr, size) = (call.nr, call.args[2]);
    if nr == READ {
        let rest = input.get(*at..).unwrap_or(&[]);
        let count = rest.len().min(size as usize).min(4096);
        *at = at.saturating_add(count);
        process.answer(tid, count as i32, &rest[..count]);
        return true;
    }
    if nr == WRITE {
        process.answer(tid, size.cast_signed(), &[]);
        return true;
    }
    process.answer(tid, -38, &[]);
    true
}

/// Runs the process until it ends or faults, and gives how many of its calls were answered.
fn answer_all(process: &mut Process, input: &[u8]) -> u32 {
    let mut at = 0;
    for done in 0..u32::MAX {
        if !answer_next(process, input, &mut at) {
            return done;
        }
    }
    u32::MAX
}

/// The bytes of a memory of 1, 4 or 16 MiB.
fn memory_size(mib: u32) -> u32
    ensures { IsMemorySize result }
{
    match mib {
        1 => 0x10_0000,
        4 => 0x40_0000,
        _ => 0x100_0000,
    }
}

/// How many instructions a word asks for.
fn instructions(word: &str) -> Result<u32>
    ensures { IfOk result (λ count. count ≤ 1000000000) }
{
    match number(word.as_bytes()) {
        Some(count) if count <= 1_000_000_000 => Ok(count),
        _ => bail!("a number of instructions, at most 1000000000"),
    }
}

/// A process of this file's program.
fn process(alloc: Global, file: &[u8], memory: u32, count: u32) -> Result<Process>
    requires memory { IsMemorySize memory }
    requires count { count ≤ 1000000000 }
    ensures { IfOk result (λ process. threads.live process ≡ firsts 1) }
{
    let Ok(program) = nv_elf::read(alloc, file) else {
        bail!("the file is refused");
    };
    let Ok(guest) = Guest::make(alloc, &program, &[], memory) else {
        bail!("the program is refused");
    };
    Ok(Process::make(alloc, guest, count, false, false)?)
}

/// Runs the guest of a file on the bytes of another, and prints how many instructions it took.
fn run_file<R: Files + Print + AllocGlobal>(
    rt: &R,
    name: &str,
    mib: u32,
    count: u32,
    input: &str,
) -> Result<()>
    requires { count ≤ 1000000000 }
{
    let file = fs::read(rt, name)?;
    let input = fs::read(rt, input)?;
    let mut process = process(rt.alloc(), &file, memory_size(mib), count)?;
    let calls = answer_all(&mut process, &input);
    let (instructions, status) = (process.count(), process.ended());
    println!(rt; "{calls} calls, {instructions} instructions, status {status:?}")?;
    Ok(())
}

/// Runs the guest of this name, and prints where it came.
pub fn run_guest<R: Print + AllocGlobal>(rt: &R, name: &str, count: u32) -> Result<()>
    requires { count ≤ 1000000000 }
{
    let Some(file) = file_of(name) else {
        bail!("one, eight or answers");
    };
    let mut process = process(rt.alloc(), file, 0x40000, count)?;
    match name {
        "answers" => {
            let answers = answer_reads(&mut process);
            println!(rt; "{name}: {answers}")?;
            return Ok(());
        }
        "eight" => start(&mut process),
        _ => {}
    }
    if process.ended().is_none() {
        let came = process.advance(Want::Any);
        println!(rt; "{name}: {came:?}")?;
    }
    Ok(())
}

/// Takes a guest's name and a number of instructions; or a file, its MiB of memory, a number of instructions, and a file that it reads.
pub fn run_words<R: Files + Print + AllocGlobal>(rt: &R, words: &[String]) -> Result<()> {
    match words {
        [name, count] => run_guest(rt, name, instructions(count)?),
        [name, mib, count, input] => {
            let Some(mib) = number(mib.as_bytes()) else {
                bail!("1, 4 or 16 MiB");
            };
            run_file(rt, name, mib, instructions(count)?, input)
        }
        _ => bail!(
            "a guest and a number of instructions; or a file, its MiB, a number of instructions, and a file that it reads"
        ),
    }
}
