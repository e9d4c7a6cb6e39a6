// The instructions of a version.
ghost use Rattle.std.specs.Prelude.{◌≡◌, ◌≤◌, ◌<◌, ◌+◌, ◌*◌, ◌++◌, ◌==◌, OnOk, [], ◌∷◌, length, vec_len};
ghost use Rattle.nv_isa.specs.Spelling.{HasWord};
ghost use Rattle.nv_gen.specs.Made.{calls_at, calls_to, course};
ghost use Rattle.nv_gen.specs.Measures.{numbers_in};
ghost use Rattle.nv_gen.specs.Programs.{sets, points, ecall, ebreak, insn_bytes, code_of, write_insns, getuid_insns, exit_insns, insns, calls_code};

use crate::measures::Measures;
use nv_calls::EXIT_GROUP;
use nv_isa::{Insn, Op, encode};
use std::alloc::AllocError;

const A0: u8 = 10;

const A1: u8 = 11;

const A2: u8 = 12;

const A7: u8 = 17;

const CONSOLE: u8 = 1;

const WRITE: u8 = 64;

const GETUID: u8 = 174;

// The address of the bytes to write.
const TEXT: i32 = 0x10000;

// Before every so manieth write the later versions ask for their user.
const ASKS_EVERY: u32 = 16;

fn set(rd: u8, value: u8) -> Insn
    requires { rd < 32 }
    ensures insn { result ≡ sets rd value }
    ensures fits { HasWord result }
{
    Insn {
        op: Op::Addi,
        rd,
        rs1: 0,
        rs2: 0,
        imm: i32::from(value),
    }
}

fn point(rd: u8) -> Insn
    requires { rd < 32 }
    ensures insn { result ≡ points rd }
    ensures fits { HasWord result }
{
    Insn {
        op: Op::Lui,
        rd,
        rs1: 0,
        rs2: 0,
        imm: TEXT,
    }
}

#[tactic(auto, using(crate::proofs::Fitting::fitting))]
fn call() -> Insn
    ensures insn { result ≡ ecall }
    ensures fits { HasWord result }
{
    Insn {
        op: Op::Ecall,
        rd: 0,
        rs1: 0,
        rs2: 0,
        imm: 0,
    }
}

#[tactic(auto, using(crate::proofs::Fitting::fitting))]
fn breakpoint() -> Insn
    ensures insn { result ≡ ebreak }
    ensures fits { HasWord result }
{
    Insn {
        op: Op::Ebreak,
        rd: 0,
        rs1: 0,
        rs2: 0,
        imm: 0,
    }
}

#[tactic(auto, unfolding(crate::specs::Programs::insn_bytes))]
fn push(code: &mut Vec<u8>, insn: &Insn) -> Result<(), AllocError>
    requires { HasWord insn.now }
    ensures word { OnOk result (code.new.items ≡ code.old.items ++ insn_bytes insn.now) }
    ensures len { OnOk result (vec_len code.new ≡ vec_len code.old + 4) }
{
    code.extend_from_slice(&encode(insn).to_le_bytes())
}

// write(2) of the first bytes at the address.
fn push_write(code: &mut Vec<u8>, size: u8) -> Result<(), AllocError>
    ensures code { OnOk result (code.new.items ≡ code.old.items ++ code_of (write_insns size)) }
    ensures len { OnOk result (vec_len code.new ≡ vec_len code.old + 20) }
{
    push(code, &set(A0, CONSOLE))?;
    push(code, &point(A1))?;
    push(code, &set(A2, size))?;
    push(code, &set(A7, WRITE))?;
    push(code, &call())
}

// getuid(2).
fn push_getuid(code: &mut Vec<u8>) -> Result<(), AllocError>
    ensures code { OnOk result (code.new.items ≡ code.old.items ++ code_of getuid_insns) }
    ensures len { OnOk result (vec_len code.new ≡ vec_len code.old + 8) }
{
    push(code, &set(A7, GETUID))?;
    push(code, &call())
}

// exit_group(2).
fn push_exit(code: &mut Vec<u8>, status: u8) -> Result<(), AllocError>
    ensures code { OnOk result (code.new.items ≡ code.old.items ++ code_of (exit_insns status)) }
    ensures len { OnOk result (vec_len code.new ≡ vec_len code.old + 12) }
{
    push(code, &set(A0, status))?;
    push(code, &set(A7, EXIT_GROUP as u8))?;
    push(code, &call())
}

// Write number `write` of a version, from 1.
fn push_turn(
    code: &mut Vec<u8>,
    measures: &Measures,
    version: u32,
    write: u32,
) -> Result<(), AllocError>
    ensures code { OnOk result (code.new.items ≡ code.old.items ++ calls_code (calls_at (numbers_in measures.now) version write)) }
    ensures least { OnOk result (vec_len code.old ≤ vec_len code.new) }
    ensures most { OnOk result (vec_len code.new ≤ vec_len code.old + 28) }
{
    if version >= 1 && write % ASKS_EVERY == 0 {
        push_getuid(code)?;
    }
    push_write(code, measures.size)
}

// The first writes of a version.
fn push_writes(
    code: &mut Vec<u8>,
    measures: &Measures,
    version: u32,
    writes: u32,
) -> Result<(), AllocError>
    requires few { writes < 10000 }
    requires short { vec_len code.old ≤ 64 }
    ensures code { OnOk result (code.new.items ≡ code.old.items ++ calls_code (calls_to (numbers_in measures.now) version writes)) }
    ensures least { OnOk result (vec_len code.old ≤ vec_len code.new) }
    ensures most { OnOk result (vec_len code.new ≤ vec_len code.old + 28 * writes) }
{
    for made in 0..writes {
        push_turn(code, measures, version, made + 1)?;
    }
    Ok(())
}

/// The code of a version, after the bytes that it writes.
#[tactic(auto, unfolding(crate::specs::Made::course))]
pub fn push_code(code: &mut Vec<u8>, measures: &Measures, version: u32) -> Result<(), AllocError>
    requires version { version < measures.now.versions }
    requires short { vec_len code.old ≤ 64 }
    ensures code { OnOk result (code.new.items ≡ code.old.items ++ code_of (insns (course (numbers_in measures.now) version))) }
    ensures least { OnOk result (vec_len code.old + 4 ≤ vec_len code.new) }
    ensures most { OnOk result (vec_len code.new ≤ 300_000) }
{
    if version + 1 == measures.versions {
        push_writes(code, measures, version, measures.writes)?;
        push_exit(code, 0)
    } else {
        let writes = measures.writes * (version + 1) / measures.versions;
        push_writes(code, measures, version, writes)?;
        push(code, &breakpoint())
    }
}
