// One instruction: fetched, decoded and carried out, in the order of its faults.
ghost use Rattle.std.specs.Prelude.{◌≡◌, pos, ◌≢◌, ℕ, ◌+◌, ◌*◌, ◌/◌, ◌%◌, ◌^◌, ◌<◌};
ghost use Rattle.nv_machine.specs.Effects.{sum, sign_extended};
ghost use Rattle.nv_machine.specs.Guest.{gets, next_address, jumps, loads, stores, with_immediate, between_registers, compares, load_reserved, store_conditional, combines, effect, guest_step, width_of, extended, Machine};
ghost use Rattle.nv_machine.specs.Went.{ended, at_pc};

use crate::alu::{combine, compute, takes};
use crate::outcome::{FaultKind, Stepped, Went};
use crate::regs::Regs;
use nv_isa::Op;
use nv_memory::{Memory, Right, Width};

/// Carries out one instruction. After a call and after a fault nothing has changed. It is inlined into each loop over it.
#[inline(always)]
pub fn step(regs: &mut Regs, memory: &mut Memory) -> Stepped
    ensures step { (result, record { regs = regs.new; memory = memory.new }) ≡ guest_step (record { regs = regs.old; memory = memory.old }) }
    ensures registers_rest { result ≢ Stepped.On → regs.new ≡ regs.old }
    ensures memory_rests { result ≢ Stepped.On → memory.new ≡ memory.old }
{
    match memory.known(regs.pc) {
        Some(insn) => {
            let (op, rd, rs1, rs2, imm) = (insn.op, insn.rd, insn.rs1, insn.rs2, insn.imm);
            carry_out(regs, memory, op, rd, rs1, rs2, imm)
        }
        None => step_anew(regs, memory),
    }
}

// A step whose instruction isn't known yet. A function of its own for the compiler, since few steps come here.
#[inline(never)]
fn step_anew(regs: &mut Regs, memory: &mut Memory) -> Stepped
    ensures { (result, record { regs = regs.new; memory = memory.new }) ≡ guest_step (record { regs = regs.old; memory = memory.old }) }
{
    match memory.insn(regs.pc) {
        Ok(Some(insn)) => carry_out(regs, memory, insn.op, insn.rd, insn.rs1, insn.rs2, insn.imm),
        Ok(None) => Stepped::Fault(FaultKind::Illegal),
        Err(_) => Stepped::Fault(FaultKind::Fetch),
    }
}

// Carries out the instruction at the registers' own address.
#[inline(always)]
fn carry_out(
    regs: &mut Regs,
    memory: &mut Memory,
    op: Op,
    rd: u8,
    rs1: u8,
    rs2: u8,
    imm: i32,
) -> Stepped
    requires rd { rd < 32 }
    requires rs1 { rs1 < 32 }
    requires rs2 { rs2 < 32 }
    ensures { (result, record { regs = regs.new; memory = memory.new }) ≡ effect op (record { op = op; rd = rd; rs1 = rs1; rs2 = rs2; imm = imm }) (record { regs = regs.old; memory = memory.old }) }
{
    let mut pc = regs.pc;
    let went = execute(regs, memory, &mut pc, op, rd, rs1, rs2, imm);
    regs.pc = pc;
    stepped(went)
}

fn stepped(went: Went) -> Stepped
    ensures { result ≡ ended went }
{
    match went {
        Went::Past | Went::To => Stepped::On,
        Went::Call => Stepped::Call,
        Went::Fault(kind) => Stepped::Fault(kind),
    }
}

fn width(op: Op) -> Width
    ensures { result ≡ width_of op }
{
    match op {
        Op::Lb | Op::Lbu | Op::Sb => Width::One,
        Op::Lh | Op::Lhu | Op::Sh => Width::Two,
        _ => Width::Four,
    }
}

fn extend(op: Op, value: u32) -> u32
    ensures { result ≡ extended op value }
{
    match op {
        Op::Lb if value >= 128 => value.wrapping_add(0xffff_ff00),
        Op::Lh if value >= 32768 => value.wrapping_add(0xffff_0000),
        _ => value,
    }
}

fn advance(regs: &mut Regs, rd: u8, value: u32) -> Stepped
    requires { rd < 32 }
    ensures { (result, regs.new) ≡ gets rd value (next_address regs.old) regs.old }
{
    regs.set(rd, value);
    regs.pc = regs.pc.wrapping_add(4);
    Stepped::On
}

fn past(pc: &mut u32) -> Went
    requires { pc.old % 4 ≡ 0 }
    ensures past { result ≡ Went.Past }
    ensures next { pc.new ≡ sum pc.old 4 }
    ensures aligned { pc.new % 4 ≡ 0 }
{
    *pc = pc.wrapping_add(4);
    Went::Past
}

fn proceed(regs: &mut Regs, pc: &mut u32, rd: u8, value: u32) -> Went
    requires small { rd < 32 }
    requires aligned { pc.old % 4 ≡ 0 }
    ensures effect { (ended result, at_pc regs.new pc.new) ≡ gets rd value (sum pc.old 4) (at_pc regs.old pc.old) }
    ensures past { result ≡ Went.Past → pc.new ≡ sum pc.old 4 }
    ensures aligned { pc.new % 4 ≡ 0 }
{
    regs.set(rd, value);
    past(pc)
}

fn jump(regs: &mut Regs, pc: &mut u32, rd: u8, to: u32) -> Went
    requires small { rd < 32 }
    requires aligned { pc.old % 4 ≡ 0 }
    ensures effect { (ended result, at_pc regs.new pc.new) ≡ jumps rd to (at_pc regs.old pc.old) }
    ensures past { result ≡ Went.Past → pc.new ≡ sum pc.old 4 }
    ensures aligned { pc.new % 4 ≡ 0 }
{
    if to % 4 != 0 {
        return Went::Fault(FaultKind::Misaligned);
    }
    let link = pc.wrapping_add(4);
    regs.set(rd, link);
    *pc = to;
    Went::To
}

#[inline(always)]
fn compare(regs: &Regs, pc: &mut u32, op: Op, rs1: u8, rs2: u8, imm: i32) -> Went
    requires rs1 { rs1 < 32 }
    requires rs2 { rs2 < 32 }
    requires aligned { pc.old % 4 ≡ 0 }
    ensures effect { (ended result, at_pc regs.now pc.new) ≡ compares op (record { op = op; rd = 0; rs1 = rs1; rs2 = rs2; imm = imm }) (at_pc regs.now pc.old) }
    ensures past { result ≡ Went.Past → pc.new ≡ sum pc.old 4 }
    ensures aligned { pc.new % 4 ≡ 0 }
{
    if !takes(op, regs.get(rs1), regs.get(rs2)) {
        return past(pc);
    }
    let to = pc.wrapping_add_signed(imm);
    if to % 4 != 0 {
        return Went::Fault(FaultKind::Misaligned);
    }
    *pc = to;
    Went::To
}

#[inline(always)]
fn with_immediate(regs: &mut Regs, pc: &mut u32, op: Op, rd: u8, rs1: u8, imm: i32) -> Went
    requires rd { rd < 32 }
    requires rs1 { rs1 < 32 }
    requires aligned { pc.old % 4 ≡ 0 }
    ensures effect { (ended result, at_pc regs.new pc.new) ≡ with_immediate op (record { op = op; rd = rd; rs1 = rs1; rs2 = 0; imm = imm }) (at_pc regs.old pc.old) }
    ensures past { result ≡ Went.Past → pc.new ≡ sum pc.old 4 }
    ensures aligned { pc.new % 4 ≡ 0 }
{
    let by = imm.cast_unsigned();
    let value = compute(op, regs.get(rs1), by);
    proceed(regs, pc, rd, value)
}

#[inline(always)]
fn between_registers(regs: &mut Regs, pc: &mut u32, op: Op, rd: u8, rs1: u8, rs2: u8) -> Went
    requires rd { rd < 32 }
    requires rs1 { rs1 < 32 }
    requires rs2 { rs2 < 32 }
    requires aligned { pc.old % 4 ≡ 0 }
    ensures effect { (ended result, at_pc regs.new pc.new) ≡ between_registers op (record { op = op; rd = rd; rs1 = rs1; rs2 = rs2; imm = pos 0 }) (at_pc regs.old pc.old) }
    ensures past { result ≡ Went.Past → pc.new ≡ sum pc.old 4 }
    ensures aligned { pc.new % 4 ≡ 0 }
{
    let value = compute(op, regs.get(rs1), regs.get(rs2));
    proceed(regs, pc, rd, value)
}

#[inline(always)]
fn load(regs: &mut Regs, memory: &Memory, pc: &mut u32, op: Op, rd: u8, rs1: u8, imm: i32) -> Went
    requires rd { rd < 32 }
    requires rs1 { rs1 < 32 }
    requires aligned { pc.old % 4 ≡ 0 }
    ensures effect { (ended result, at_pc regs.new pc.new) ≡ loads op (record { op = op; rd = rd; rs1 = rs1; rs2 = 0; imm = imm }) (at_pc regs.old pc.old) memory.now }
    ensures past { result ≡ Went.Past → pc.new ≡ sum pc.old 4 }
    ensures aligned { pc.new % 4 ≡ 0 }
{
    let address = regs.get(rs1).wrapping_add_signed(imm);
    match memory.load(address, width(op)) {
        Ok(value) => proceed(regs, pc, rd, extend(op, value)),
        Err(_) => Went::Fault(FaultKind::Load),
    }
}

#[inline(always)]
fn store(regs: &Regs, memory: &mut Memory, pc: &mut u32, op: Op, rs1: u8, rs2: u8, imm: i32) -> Went
    requires rs1 { rs1 < 32 }
    requires rs2 { rs2 < 32 }
    requires aligned { pc.old % 4 ≡ 0 }
    ensures effect { (ended result, record { regs = at_pc regs.now pc.new; memory = memory.new }) ≡ stores op (record { op = op; rd = 0; rs1 = rs1; rs2 = rs2; imm = imm }) (record { regs = at_pc regs.now pc.old; memory = memory.old }) }
    ensures past { result ≡ Went.Past → pc.new ≡ sum pc.old 4 }
    ensures aligned { pc.new % 4 ≡ 0 }
{
    let address = regs.get(rs1).wrapping_add_signed(imm);
    let value = regs.get(rs2);
    match memory.store(address, width(op), value) {
        Ok(()) => past(pc),
        Err(_) => Went::Fault(FaultKind::Store),
    }
}

#[inline(never)]
fn reserve(regs: &mut Regs, memory: &Memory, rd: u8, rs1: u8) -> Stepped
    requires rd { rd < 32 }
    requires rs1 { rs1 < 32 }
    ensures { (result, regs.new) ≡ load_reserved (record { op = Op.LoadReserved; rd = rd; rs1 = rs1; rs2 = 0; imm = pos 0 }) regs.old memory.now }
{
    let address = regs.get(rs1);
    if address % 4 != 0 {
        return Stepped::Fault(FaultKind::Load);
    }
    let Ok(value) = memory.load(address, Width::Four) else {
        return Stepped::Fault(FaultKind::Load);
    };
    regs.reserve(address);
    advance(regs, rd, value)
}

#[inline(never)]
fn store_reserved(regs: &mut Regs, memory: &mut Memory, rd: u8, rs1: u8, rs2: u8) -> Stepped
    requires rd { rd < 32 }
    requires rs1 { rs1 < 32 }
    requires rs2 { rs2 < 32 }
    ensures { (result, record { regs = regs.new; memory = memory.new }) ≡ store_conditional (record { op = Op.StoreConditional; rd = rd; rs1 = rs1; rs2 = rs2; imm = pos 0 }) (record { regs = regs.old; memory = memory.old }) }
{
    let address = regs.get(rs1);
    if address % 4 != 0 || !memory.holds(address, 4, Right::Write) {
        return Stepped::Fault(FaultKind::Store);
    }
    let value = regs.get(rs2);
    let succeeds = match regs.reserved() {
        Some(reserved) => reserved == address,
        None => false,
    };
    regs.release();
    if succeeds {
        let _ = memory.store(address, Width::Four, value);
        return advance(regs, rd, 0);
    }
    advance(regs, rd, 1)
}

#[inline(never)]
fn combine_word(regs: &mut Regs, memory: &mut Memory, op: Op, rd: u8, rs1: u8, rs2: u8) -> Stepped
    requires rd { rd < 32 }
    requires rs1 { rs1 < 32 }
    requires rs2 { rs2 < 32 }
    ensures { (result, record { regs = regs.new; memory = memory.new }) ≡ combines op (record { op = op; rd = rd; rs1 = rs1; rs2 = rs2; imm = pos 0 }) (record { regs = regs.old; memory = memory.old }) }
{
    let address = regs.get(rs1);
    if address % 4 != 0 || !memory.holds(address, 4, Right::Write) {
        return Stepped::Fault(FaultKind::Store);
    }
    let value = regs.get(rs2);
    match memory.load(address, Width::Four) {
        Ok(old) => {
            let _ = memory.store(address, Width::Four, combine(op, old, value));
            advance(regs, rd, old)
        }
        Err(_) => Stepped::Fault(FaultKind::Store),
    }
}

// Where the machine goes on by the registers' own address, after what isn't inlined.
fn went(regs: &Regs, pc: &mut u32, stepped: Stepped) -> Went
    ensures went { ended result ≡ stepped }
    ensures jumps { result ≢ Went.Past }
    ensures next { pc.new ≡ regs.now.pc }
    ensures aligned { pc.new % 4 ≡ 0 }
{
    *pc = regs.pc;
    match stepped {
        Stepped::On => Went::To,
        Stepped::Call => Went::Call,
        Stepped::Fault(kind) => Went::Fault(kind),
    }
}

/// Carries out an instruction at an address that stands apart from the registers, whose own address means nothing meanwhile.
/// Each operation has an arm of its own, and what it calls is inlined there, so that nothing asks for the operation again.
#[inline(always)]
pub fn execute(
    regs: &mut Regs,
    memory: &mut Memory,
    pc: &mut u32,
    op: Op,
    rd: u8,
    rs1: u8,
    rs2: u8,
    imm: i32,
) -> Went
    requires rd { rd < 32 }
    requires rs1 { rs1 < 32 }
    requires rs2 { rs2 < 32 }
    requires aligned { pc.old % 4 ≡ 0 }
    ensures effect { (ended result, record { regs = at_pc regs.new pc.new; memory = memory.new }) ≡ effect op (record { op = op; rd = rd; rs1 = rs1; rs2 = rs2; imm = imm }) (record { regs = at_pc regs.old pc.old; memory = memory.old }) }
    ensures past { result ≡ Went.Past → pc.new ≡ sum pc.old 4 }
    ensures aligned { pc.new % 4 ≡ 0 }
{
    match op {
        Op::Lui => {
            let value = imm.cast_unsigned();
            proceed(regs, pc, rd, value)
        }
        Op::Auipc => {
            let value = pc.wrapping_add_signed(imm);
            proceed(regs, pc, rd, value)
        }
        Op::Jal => {
            let to = pc.wrapping_add_signed(imm);
            jump(regs, pc, rd, to)
        }
        Op::Jalr => {
            let to = regs.get(rs1).wrapping_add_signed(imm);
            jump(regs, pc, rd, to / 2 * 2)
        }
        Op::Beq => compare(regs, pc, Op::Beq, rs1, rs2, imm),
        Op::Bne => compare(regs, pc, Op::Bne, rs1, rs2, imm),
        Op::Blt => compare(regs, pc, Op::Blt, rs1, rs2, imm),
        Op::Bge => compare(regs, pc, Op::Bge, rs1, rs2, imm),
        Op::Bltu => compare(regs, pc, Op::Bltu, rs1, rs2, imm),
        Op::Bgeu => compare(regs, pc, Op::Bgeu, rs1, rs2, imm),
        Op::Lb => load(regs, memory, pc, Op::Lb, rd, rs1, imm),
        Op::Lh => load(regs, memory, pc, Op::Lh, rd, rs1, imm),
        Op::Lw => load(regs, memory, pc, Op::Lw, rd, rs1, imm),
        Op::Lbu => load(regs, memory, pc, Op::Lbu, rd, rs1, imm),
        Op::Lhu => load(regs, memory, pc, Op::Lhu, rd, rs1, imm),
        Op::Sb => store(regs, memory, pc, Op::Sb, rs1, rs2, imm),
        Op::Sh => store(regs, memory, pc, Op::Sh, rs1, rs2, imm),
        Op::Sw => store(regs, memory, pc, Op::Sw, rs1, rs2, imm),
        Op::Addi => with_immediate(regs, pc, Op::Addi, rd, rs1, imm),
        Op::Slti => with_immediate(regs, pc, Op::Slti, rd, rs1, imm),
        Op::Sltiu => with_immediate(regs, pc, Op::Sltiu, rd, rs1, imm),
        Op::Xori => with_immediate(regs, pc, Op::Xori, rd, rs1, imm),
        Op::Ori => with_immediate(regs, pc, Op::Ori, rd, rs1, imm),
        Op::Andi => with_immediate(regs, pc, Op::Andi, rd, rs1, imm),
        Op::Slli => with_immediate(regs, pc, Op::Slli, rd, rs1, imm),
        Op::Srli => with_immediate(regs, pc, Op::Srli, rd, rs1, imm),
        Op::Srai => with_immediate(regs, pc, Op::Srai, rd, rs1, imm),
        Op::Add => between_registers(regs, pc, Op::Add, rd, rs1, rs2),
        Op::Sub => between_registers(regs, pc, Op::Sub, rd, rs1, rs2),
        Op::Sll => between_registers(regs, pc, Op::Sll, rd, rs1, rs2),
        Op::Slt => between_registers(regs, pc, Op::Slt, rd, rs1, rs2),
        Op::Sltu => between_registers(regs, pc, Op::Sltu, rd, rs1, rs2),
        Op::Xor => between_registers(regs, pc, Op::Xor, rd, rs1, rs2),
        Op::Srl => between_registers(regs, pc, Op::Srl, rd, rs1, rs2),
        Op::Sra => between_registers(regs, pc, Op::Sra, rd, rs1, rs2),
        Op::Or => between_registers(regs, pc, Op::Or, rd, rs1, rs2),
        Op::And => between_registers(regs, pc, Op::And, rd, rs1, rs2),
        Op::Mul => between_registers(regs, pc, Op::Mul, rd, rs1, rs2),
        Op::Mulh => between_registers(regs, pc, Op::Mulh, rd, rs1, rs2),
        Op::Mulhsu => between_registers(regs, pc, Op::Mulhsu, rd, rs1, rs2),
        Op::Mulhu => between_registers(regs, pc, Op::Mulhu, rd, rs1, rs2),
        Op::Div => between_registers(regs, pc, Op::Div, rd, rs1, rs2),
        Op::Divu => between_registers(regs, pc, Op::Divu, rd, rs1, rs2),
        Op::Rem => between_registers(regs, pc, Op::Rem, rd, rs1, rs2),
        Op::Remu => between_registers(regs, pc, Op::Remu, rd, rs1, rs2),
        Op::Fence => past(pc),
        Op::Ecall => Went::Call,
        Op::Ebreak => Went::Fault(FaultKind::Breakpoint),
        Op::LoadReserved => {
            regs.pc = *pc;
            let stepped = reserve(regs, memory, rd, rs1);
            went(regs, pc, stepped)
        }
        Op::StoreConditional => {
            regs.pc = *pc;
            let stepped = store_reserved(regs, memory, rd, rs1, rs2);
            went(regs, pc, stepped)
        }
        Op::AmoSwap
        | Op::AmoAdd
        | Op::AmoXor
        | Op::AmoAnd
        | Op::AmoOr
        | Op::AmoMin
        | Op::AmoMax
        | Op::AmoMinu
        | Op::AmoMaxu => {
            regs.pc = *pc;
            let stepped = combine_word(regs, memory, op, rd, rs1, rs2);
            went(regs, pc, stepped)
        }
    }
}
