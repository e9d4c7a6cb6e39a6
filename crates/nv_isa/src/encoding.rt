// Writes an instruction as a word.
ghost use Rattle.std.specs.Prelude.{◌≡◌, ℕ, ◌/◌, ◌%◌, ◌^◌, ◌<◌, ◌*◌, ◌+◌, ℤ, Some};
ghost use Rattle.nv_isa.specs.Table.{encoding, decoded};
ghost use Rattle.nv_isa.specs.Spelling.{HasWord, FitsForm, spelled, encoded};

use crate::op::{Form, Insn, Op};

/// The one word that spells the instruction.
pub fn encode(insn: &Insn) -> u32
    requires { HasWord insn.now }
    ensures word { result ≡ encoded insn.now }
    ensures read { decoded result ≡ Some insn.now }
    ensures only { (word : ℕ) → word < 2 ^ 32 → decoded word ≡ Some insn.now → result ≡ word }
{
    let (value, form) = fixed(insn.op);
    value + fields(form, insn)
}

// The bits that are the same in each word of the operation, and the form of the others.
#[tactic(auto, unfolding(crate::specs::Table::encoding))]
fn fixed(op: Op) -> (u32, Form)
    ensures value { result.0 ≡ (encoding op).value }
    ensures form { result.1 ≡ (encoding op).form }
{
    match op {
        Op::Lui => (0x37, Form::Upper),
        Op::Auipc => (0x17, Form::Upper),
        Op::Jal => (0x6f, Form::Jump),
        Op::Jalr => (0x67, Form::Immediate),
        Op::Beq => (0x63, Form::Branch),
        Op::Bne => (0x1063, Form::Branch),
        Op::Blt => (0x4063, Form::Branch),
        Op::Bge => (0x5063, Form::Branch),
        Op::Bltu => (0x6063, Form::Branch),
        Op::Bgeu => (0x7063, Form::Branch),
        Op::Lb => (0x3, Form::Immediate),
        Op::Lh => (0x1003, Form::Immediate),
        Op::Lw => (0x2003, Form::Immediate),
        Op::Lbu => (0x4003, Form::Immediate),
        Op::Lhu => (0x5003, Form::Immediate),
        Op::Sb => (0x23, Form::Store),
        Op::Sh => (0x1023, Form::Store),
        Op::Sw => (0x2023, Form::Store),
        Op::Addi => (0x13, Form::Immediate),
        Op::Slti => (0x2013, Form::Immediate),
        Op::Sltiu => (0x3013, Form::Immediate),
        Op::Xori => (0x4013, Form::Immediate),
        Op::Ori => (0x6013, Form::Immediate),
        Op::Andi => (0x7013, Form::Immediate),
        Op::Slli => (0x1013, Form::Shift),
        Op::Srli => (0x5013, Form::Shift),
        Op::Srai => (0x40005013, Form::Shift),
        Op::Add => (0x33, Form::Register),
        Op::Sub => (0x40000033, Form::Register),
        Op::Sll => (0x1033, Form::Register),
        Op::Slt => (0x2033, Form::Register),
        Op::Sltu => (0x3033, Form::Register),
        Op::Xor => (0x4033, Form::Register),
        Op::Srl => (0x5033, Form::Register),
        Op::Sra => (0x40005033, Form::Register),
        Op::Or => (0x6033, Form::Register),
        Op::And => (0x7033, Form::Register),
        Op::Fence => (0xf, Form::Immediate),
        Op::Ecall => (0x73, Form::Whole),
        Op::Ebreak => (0x100073, Form::Whole),
        Op::Mul => (0x2000033, Form::Register),
        Op::Mulh => (0x2001033, Form::Register),
        Op::Mulhsu => (0x2002033, Form::Register),
        Op::Mulhu => (0x2003033, Form::Register),
        Op::Div => (0x2004033, Form::Register),
        Op::Divu => (0x2005033, Form::Register),
        Op::Rem => (0x2006033, Form::Register),
        Op::Remu => (0x2007033, Form::Register),
        Op::LoadReserved => (0x1000202f, Form::Reserve),
        Op::StoreConditional => (0x1800202f, Form::Atomic),
        Op::AmoSwap => (0x800202f, Form::Atomic),
        Op::AmoAdd => (0x202f, Form::Atomic),
        Op::AmoXor => (0x2000202f, Form::Atomic),
        Op::AmoAnd => (0x6000202f, Form::Atomic),
        Op::AmoOr => (0x4000202f, Form::Atomic),
        Op::AmoMin => (0x8000202f, Form::Atomic),
        Op::AmoMax => (0xa000202f, Form::Atomic),
        Op::AmoMinu => (0xc000202f, Form::Atomic),
        Op::AmoMaxu => (0xe000202f, Form::Atomic),
    }
}

fn fields(form: Form, insn: &Insn) -> u32
    requires { FitsForm form insn.now }
    ensures { result ≡ spelled form insn.now }
{
    let rd = (insn.rd as u32) << 7;
    let rs1 = (insn.rs1 as u32) << 15;
    let rs2 = (insn.rs2 as u32) << 20;
    let imm = insn.imm.cast_unsigned();
    match form {
        Form::Register => rd + rs1 + rs2,
        Form::Immediate => rd + rs1 + (imm % 4096) * 1_048_576,
        Form::Shift => rd + rs1 + (imm % 32) * 1_048_576,
        Form::Store => imm % 32 * 128 + rs1 + rs2 + (imm % 4096 / 32) * 33_554_432,
        Form::Branch => {
            let m = imm % 8192;
            let low = m / 2048 % 2 * 128 + m / 2 % 16 * 256;
            low + rs1 + rs2 + m / 32 % 64 * 33_554_432 + m / 4096 * 2_147_483_648
        }
        Form::Upper => rd + imm / 4096 * 4096,
        Form::Jump => {
            let m = imm % 2_097_152;
            let low = rd + m / 4096 % 256 * 4096 + m / 2048 % 2 * 1_048_576;
            low + m / 2 % 1024 * 2_097_152 + m / 1_048_576 * 2_147_483_648
        }
        Form::Whole => 0,
        Form::Atomic => rd + rs1 + rs2 + (imm % 4) * 33_554_432,
        Form::Reserve => rd + rs1 + (imm % 4) * 33_554_432,
    }
}
