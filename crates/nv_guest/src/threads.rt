// One thread among the others.
ghost use Rattle.std.specs.Prelude.{◌≡◌, ◌≢◌, ◌↔◌, ◌-◌, ◌%◌, ◌<◌, ◌≤◌, length, Contains, IsTrue};
ghost use Rattle.nv_memory.specs.Code.{code_address};
ghost use Rattle.nv_machine.specs.Effects.{sum};
ghost use Rattle.nv_machine.specs.Guest.{register, guest_step};
ghost use Rattle.nv_machine.specs.Went.{ended};
ghost use Rattle.nv_guest.specs.Guest.{machine_with};
ghost use Rattle.nv_guest.specs.Calls.{with_answer, past_call};
ghost use Rattle.nv_guest.specs.Threads.{tids, thread_place, run, more, child_regs, with_stack, with_pointer, unreserved_each};

use crate::calls::{NUMBER, copy_out};
use crate::guest::Thread;
use nv_calls::Syscall;
use nv_machine::{Regs, Stepped, Went, execute, step};
use nv_memory::Memory;

/// The register of the stack pointer.
const SP: u8 = 2;

/// The register of the thread's pointer.
const TP: u8 = 4;

/// A new thread's pointer is given with it (CLONE_SETTLS of clone(2)).
const SET_POINTER: u32 = 0x80000;

/// Where the thread stands.
pub(crate) fn place(threads: &[Thread], tid: u32) -> usize
    requires { Contains (tids threads.now) tid }
    ensures place { result ≡ thread_place threads.now tid }
    ensures inside { result < length threads.now }
{
    for (i, thread) in threads.iter().enumerate() {
        if thread.tid == tid {
            return i;
        }
    }
    unreachable!()
}

/// Runs at most so many instructions, up to the first that ends in a call or a fault, and gives how many were run
/// and how the last one ended.
pub(crate) fn run_on(regs: &mut Regs, memory: &mut Memory, most: u32) -> (u32, Stepped)
    ensures few { result.0 ≤ most }
    ensures ran { run most (machine_with regs.old memory.old) ≡ (result.0, result.1, machine_with regs.new memory.new) }
{
    let count = run_through(regs, memory, most);
    if count == most {
        return (most, Stepped::On);
    }
    (count + 1, step(regs, memory))
}

// The instructions before the first that ends in a call or a fault, and how many these are. Since that one changes nothing, its end can be
// asked for once more.
#[inline(never)]
fn run_through(regs: &mut Regs, memory: &mut Memory, most: u32) -> u32
    ensures few { result ≤ most }
    ensures ran { run most (machine_with regs.old memory.old) ≡ more result (run (most - result) (machine_with regs.new memory.new)) }
    ensures stops { result < most → (guest_step (machine_with regs.new memory.new)).0 ≢ Stepped.On }
{
    let mut count = 0;
    while count < most {
        count += run_known(regs, memory, most - count);
        if count == most {
            return most;
        }
        match step(regs, memory) {
            Stepped::On => count += 1,
            _ => return count,
        }
    }
    most
}

// The instructions that are known, up to the first that isn't or that ends in a call or a fault, and how many these are. The place of the
// next one stands apart from the registers, whose own address is written at the end. A function of its own for the compiler: the machine's
// registers are for its loop alone.
#[inline(never)]
fn run_known(regs: &mut Regs, memory: &mut Memory, most: u32) -> u32
    ensures few { result ≤ most }
    ensures ran { run most (machine_with regs.old memory.old) ≡ more result (run (most - result) (machine_with regs.new memory.new)) }
{
    let start = memory.code_start();
    let mut at = place_of(start, regs.pc);
    for count in 0..most {
        let mut pc = address_of(start, at);
        let Some(insn) = memory.known_at(at) else {
            regs.pc = pc;
            return count;
        };
        let (op, rd, rs1, rs2, imm) = (insn.op, insn.rd, insn.rs1, insn.rs2, insn.imm);
        let went = execute(regs, memory, &mut pc, op, rd, rs1, rs2, imm);
        if !goes_on(went) {
            regs.pc = pc;
            return count;
        }
        at = next_place(went, start, at, pc);
    }
    regs.pc = address_of(start, at);
    most
}

// The place of the address, where the code begins at another.
fn place_of(start: u32, address: u32) -> usize
    requires start { start % 4 ≡ 0 }
    requires address { address % 4 ≡ 0 }
    ensures { code_address start result ≡ address }
{
    (address.wrapping_sub(start) / 4) as usize
}

fn address_of(start: u32, place: usize) -> u32
    ensures { result ≡ code_address start place }
{
    start.wrapping_add((place.wrapping_mul(4) % 0x1_0000_0000) as u32)
}

fn goes_on(went: Went) -> bool
    ensures { IsTrue result ↔ (ended went ≡ Stepped.On) }
{
    match went {
        Went::Past | Went::To => true,
        Went::Call | Went::Fault(_) => false,
    }
}

// The place of the instruction after one that went on.
fn next_place(went: Went, start: u32, at: usize, pc: u32) -> usize
    requires start { start % 4 ≡ 0 }
    requires aligned { pc % 4 ≡ 0 }
    requires past { went ≡ Went.Past → pc ≡ sum (code_address start at) 4 }
    ensures { code_address start result ≡ pc }
{
    match went {
        Went::Past => at.wrapping_add(1),
        _ => place_of(start, pc),
    }
}

/// Stores the bytes of the answer, puts the result into a0 and goes past the call.
pub(crate) fn answer_to(regs: &mut Regs, memory: &mut Memory, ret: i32, payload: &[u8])
    ensures { machine_with regs.new memory.new ≡ with_answer (machine_with regs.old memory.old) ret payload.now }
{
    let syscall = Syscall::of(regs.get(NUMBER));
    copy_out(regs, memory, syscall, payload);
    go_past(regs, ret.cast_unsigned());
}

// Puts the result into a0 and goes past the call.
fn go_past(regs: &mut Regs, value: u32)
    ensures { regs.new ≡ past_call regs.old value }
{
    regs.set(10, value);
    regs.pc = regs.pc.wrapping_add(4);
}

/// Ends the reservation of each thread.
pub(crate) fn release_each(threads: &mut [Thread])
    ensures { threads.new ≡ unreserved_each threads.old }
{
    for thread in threads.iter_mut() {
        thread.regs.release();
    }
}

/// The registers of a new thread, by those of its parent at clone.
#[tactic(auto, unfolding(crate::specs::Threads::child_regs))]
pub(crate) fn start_child(parent: &Regs) -> Regs
    ensures { result ≡ child_regs parent.now }
{
    let mut child = parent.copy();
    child.release();
    go_past(&mut child, 0);
    let stack = parent.get(11);
    if stack != 0 {
        child.set(SP, stack);
    }
    if (parent.get(10) / SET_POINTER) % 2 == 1 {
        child.set(TP, parent.get(13));
    }
    child
}
