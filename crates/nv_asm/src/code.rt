// What statements are read as.
ghost use Rattle.std.specs.Prelude.{◌<◌, IsTrue};
ghost use Rattle.nv_isa.specs.declared.op.Form.TheVariants as form;
ghost use Rattle.nv_asm.specs.Forms.{has_form};

use crate::numbers::Register;
use nv_isa::Op;

/// The words of one or two instructions.
#[derive(Clone, Copy, Debug, PartialEq, Eq)]
pub enum Insns {
    One(u32),
    Two(u32, u32),
}

/// A branch: its operation, the registers that it compares, and the label that it goes to.
#[derive(Clone, Copy)]
pub struct Branch<'a> {
    pub op: Op,
    pub rs1: u8,
    pub rs2: u8,
    pub target: &'a [u8],
    ghost is_branch: { IsTrue (has_form form.Branch op) },
    ghost rs1_small: { rs1 < 32 },
    ghost rs2_small: { rs2 < 32 },
}

/// Instructions, with the labels that they need.
#[derive(Clone, Copy)]
pub enum Code<'a> {
    /// Words that stand by themselves.
    Fixed(Insns),
    Branch(Branch<'a>),
    /// `jal` to a label, with the register that gets the return address.
    Jump(Register, &'a [u8]),
    /// The address of a label into a register.
    Load(Register, &'a [u8]),
}

/// A word of data.
#[derive(Clone, Copy)]
pub enum Word<'a> {
    Value(u32),
    /// The address of a label.
    Address(&'a [u8]),
}

/// The statement of a line.
#[derive(Drop)]
pub enum Statement<'a> {
    Blank,
    Text,
    Data,
    Bytes(Vec<u8>),
    Zero(u32),
    /// The operands of `.word`.
    Words(Vec<&'a [u8]>),
    Entry(&'a [u8]),
    Instruction(Code<'a>),
    /// An instruction with a number off its range.
    OffInstruction,
    /// A directive with a number off its range.
    OffData,
    /// The operands of `.word`, a number off its range among them.
    OffWords(Vec<&'a [u8]>),
}
