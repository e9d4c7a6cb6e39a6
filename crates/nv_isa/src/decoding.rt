// Reads a word as an instruction: the operation by opcode, funct3 and funct7, then the fields by the form.
ghost use Rattle.std.specs.Prelude.{◌≡◌, ℕ, ◌/◌, ◌%◌, ◌^◌, ◌<◌, ◌*◌, ◌+◌, ℤ, IfSome};
ghost use Rattle.std.specs.Option.{option_map};
ghost use Rattle.nv_isa.specs.Table.{decoded, insn_of, encoding, row_of};
ghost use Rattle.nv_isa.specs.inner.Fields.{encoding_named, key_of};
ghost use Rattle.nv_isa.specs.Spelling.{HasWord, FitsForm, HasSmallRegisters};

use crate::fields::{immediate, rd, rs1, rs2};
use crate::op::{Form, Insn, Op};

/// The instruction that the word spells. `None`: it belongs to no row of the table.
pub fn decode(word: u32) -> Option<Insn>
    ensures row { result ≡ decoded word }
    ensures fits { IfSome result HasWord }
    ensures registers { IfSome result HasSmallRegisters }
{
    let (op, form) = key(word & 127, word >> 12 & 7, word >> 25, word)?;
    Some(insn(op, form, word))
}

/// The operation of the instruction that the word spells: with it the fields can be read one by one, from where its form has
/// them. `None`: the word belongs to no row of the table.
pub fn operation(word: u32) -> Option<Op>
    ensures { decoded word ≡ option_map (λ op. insn_of op (encoding op).form word) result }
{
    let (op, _) = key(word & 127, word >> 12 & 7, word >> 25, word)?;
    Some(op)
}

#[tactic(auto, unfolding(crate::specs::inner::Fields::encoding_named, crate::specs::Table::encodings, crate::specs::Table::encoding))]
fn branch(funct3: u32) -> Option<(Op, Form)>
    ensures { (funct7 word : ℕ) → option_map key_of (encoding_named 0x63 funct3 funct7 word) ≡ result }
{
    match funct3 {
        0 => Some((Op::Beq, Form::Branch)),
        1 => Some((Op::Bne, Form::Branch)),
        4 => Some((Op::Blt, Form::Branch)),
        5 => Some((Op::Bge, Form::Branch)),
        6 => Some((Op::Bltu, Form::Branch)),
        7 => Some((Op::Bgeu, Form::Branch)),
        _ => None,
    }
}

#[tactic(auto, unfolding(crate::specs::inner::Fields::encoding_named, crate::specs::Table::encodings, crate::specs::Table::encoding))]
fn load(funct3: u32) -> Option<(Op, Form)>
    ensures { (funct7 word : ℕ) → option_map key_of (encoding_named 0x03 funct3 funct7 word) ≡ result }
{
    match funct3 {
        0 => Some((Op::Lb, Form::Immediate)),
        1 => Some((Op::Lh, Form::Immediate)),
        2 => Some((Op::Lw, Form::Immediate)),
        4 => Some((Op::Lbu, Form::Immediate)),
        5 => Some((Op::Lhu, Form::Immediate)),
        _ => None,
    }
}

#[tactic(auto, unfolding(crate::specs::inner::Fields::encoding_named, crate::specs::Table::encodings, crate::specs::Table::encoding))]
fn store(funct3: u32) -> Option<(Op, Form)>
    ensures { (funct7 word : ℕ) → option_map key_of (encoding_named 0x23 funct3 funct7 word) ≡ result }
{
    match funct3 {
        0 => Some((Op::Sb, Form::Store)),
        1 => Some((Op::Sh, Form::Store)),
        2 => Some((Op::Sw, Form::Store)),
        _ => None,
    }
}

#[tactic(auto, unfolding(crate::specs::inner::Fields::encoding_named, crate::specs::Table::encodings, crate::specs::Table::encoding))]
fn with_immediate(funct3: u32, funct7: u32) -> Option<(Op, Form)>
    ensures { (word : ℕ) → option_map key_of (encoding_named 0x13 funct3 funct7 word) ≡ result }
{
    match (funct3, funct7) {
        (0, _) => Some((Op::Addi, Form::Immediate)),
        (1, 0) => Some((Op::Slli, Form::Shift)),
        (2, _) => Some((Op::Slti, Form::Immediate)),
        (3, _) => Some((Op::Sltiu, Form::Immediate)),
        (4, _) => Some((Op::Xori, Form::Immediate)),
        (5, 0) => Some((Op::Srli, Form::Shift)),
        (5, 32) => Some((Op::Srai, Form::Shift)),
        (6, _) => Some((Op::Ori, Form::Immediate)),
        (7, _) => Some((Op::Andi, Form::Immediate)),
        _ => None,
    }
}

#[tactic(auto, unfolding(crate::specs::inner::Fields::encoding_named, crate::specs::Table::encodings, crate::specs::Table::encoding))]
fn between_registers(funct3: u32, funct7: u32) -> Option<(Op, Form)>
    ensures { (word : ℕ) → option_map key_of (encoding_named 0x33 funct3 funct7 word) ≡ result }
{
    match (funct3, funct7) {
        (0, 0) => Some((Op::Add, Form::Register)),
        (0, 32) => Some((Op::Sub, Form::Register)),
        (1, 0) => Some((Op::Sll, Form::Register)),
        (2, 0) => Some((Op::Slt, Form::Register)),
        (3, 0) => Some((Op::Sltu, Form::Register)),
        (4, 0) => Some((Op::Xor, Form::Register)),
        (5, 0) => Some((Op::Srl, Form::Register)),
        (5, 32) => Some((Op::Sra, Form::Register)),
        (6, 0) => Some((Op::Or, Form::Register)),
        (7, 0) => Some((Op::And, Form::Register)),
        (0, 1) => Some((Op::Mul, Form::Register)),
        (1, 1) => Some((Op::Mulh, Form::Register)),
        (2, 1) => Some((Op::Mulhsu, Form::Register)),
        (3, 1) => Some((Op::Mulhu, Form::Register)),
        (4, 1) => Some((Op::Div, Form::Register)),
        (5, 1) => Some((Op::Divu, Form::Register)),
        (6, 1) => Some((Op::Rem, Form::Register)),
        (7, 1) => Some((Op::Remu, Form::Register)),
        _ => None,
    }
}

#[tactic(auto, unfolding(crate::specs::inner::Fields::encoding_named, crate::specs::Table::encodings, crate::specs::Table::encoding))]
fn atomic(funct3: u32, funct7: u32, word: u32) -> Option<(Op, Form)>
    ensures { option_map key_of (encoding_named 0x2f funct3 funct7 word) ≡ result }
{
    match (funct3, funct7 / 4) {
        (2, 2) if word >> 20 & 31 == 0 => Some((Op::LoadReserved, Form::Reserve)),
        (2, 3) => Some((Op::StoreConditional, Form::Atomic)),
        (2, 1) => Some((Op::AmoSwap, Form::Atomic)),
        (2, 0) => Some((Op::AmoAdd, Form::Atomic)),
        (2, 4) => Some((Op::AmoXor, Form::Atomic)),
        (2, 12) => Some((Op::AmoAnd, Form::Atomic)),
        (2, 8) => Some((Op::AmoOr, Form::Atomic)),
        (2, 16) => Some((Op::AmoMin, Form::Atomic)),
        (2, 20) => Some((Op::AmoMax, Form::Atomic)),
        (2, 24) => Some((Op::AmoMinu, Form::Atomic)),
        (2, 28) => Some((Op::AmoMaxu, Form::Atomic)),
        _ => None,
    }
}

#[tactic(auto, unfolding(crate::specs::inner::Fields::encoding_named, crate::specs::Table::encodings, crate::specs::Table::encoding))]
fn system(word: u32) -> Option<(Op, Form)>
    ensures { (funct3 funct7 : ℕ) → option_map key_of (encoding_named 0x73 funct3 funct7 word) ≡ result }
{
    match word {
        0x0000_0073 => Some((Op::Ecall, Form::Whole)),
        0x0010_0073 => Some((Op::Ebreak, Form::Whole)),
        _ => None,
    }
}

#[tactic(auto, unfolding(crate::specs::inner::Fields::encoding_named, crate::specs::Table::encodings, crate::specs::Table::encoding))]
fn key(opcode: u32, funct3: u32, funct7: u32, word: u32) -> Option<(Op, Form)>
    ensures { option_map key_of (encoding_named opcode funct3 funct7 word) ≡ result }
{
    match opcode {
        0x37 => Some((Op::Lui, Form::Upper)),
        0x17 => Some((Op::Auipc, Form::Upper)),
        0x6f => Some((Op::Jal, Form::Jump)),
        0x67 if funct3 == 0 => Some((Op::Jalr, Form::Immediate)),
        0x63 => branch(funct3),
        0x03 => load(funct3),
        0x23 => store(funct3),
        0x13 => with_immediate(funct3, funct7),
        0x33 => between_registers(funct3, funct7),
        0x0f if funct3 == 0 => Some((Op::Fence, Form::Immediate)),
        0x2f => atomic(funct3, funct7, word),
        0x73 => system(word),
        _ => None,
    }
}

#[tactic(auto, unfolding(crate::specs::Table::insn_of))]
fn insn(op: Op, form: Form, word: u32) -> Insn
    ensures fields { result ≡ insn_of op form word }
    ensures registers { HasSmallRegisters result }
{
    let imm = immediate(form, word);
    let rd = rd(word);
    let rs1 = rs1(word);
    let rs2 = rs2(word);
    match form {
        Form::Register | Form::Atomic => Insn {
            op,
            rd,
            rs1,
            rs2,
            imm,
        },
        Form::Immediate | Form::Shift | Form::Reserve => Insn {
            op,
            rd,
            rs1,
            rs2: 0,
            imm,
        },
        Form::Store | Form::Branch => Insn {
            op,
            rd: 0,
            rs1,
            rs2,
            imm,
        },
        Form::Upper | Form::Jump => Insn {
            op,
            rd,
            rs1: 0,
            rs2: 0,
            imm,
        },
        Form::Whole => Insn {
            op,
            rd: 0,
            rs1: 0,
            rs2: 0,
            imm,
        },
    }
}
