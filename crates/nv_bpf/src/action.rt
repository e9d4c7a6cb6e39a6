// What the instructions of a filter do.
ghost use Rattle.std.specs.Prelude.{◌≡◌};
ghost use Rattle.nv_bpf.specs.Actions.{action_of};

/// A register of the filter machine.
#[derive(Clone, Copy, Debug, PartialEq, Eq)]
pub enum Register {
    /// A, on which the arithmetic works.
    Accumulator,
    /// X.
    Index,
}

/// The second operand of an instruction.
#[derive(Clone, Copy, Debug, PartialEq, Eq)]
pub enum Operand {
    /// The instruction's k.
    Constant,
    /// The register X.
    Index,
}

#[derive(Clone, Copy, Debug, PartialEq, Eq)]
pub enum Arithmetic {
    Add,
    Subtract,
    Multiply,
    Divide,
    Or,
    And,
    ShiftLeft,
    ShiftRight,
}

/// A comparison of A with an operand, both unsigned.
#[derive(Clone, Copy, Debug, PartialEq, Eq)]
pub enum Comparison {
    Equal,
    Greater,
    AtLeast,
    CommonBit,
}

/// What an instruction does (McCanne and Jacobson 1993, section 3).
#[derive(Clone, Copy, Debug, PartialEq, Eq)]
pub enum Action {
    /// A becomes the word at the offset k of the packet.
    LoadWord,
    /// The register becomes k.
    Load(Register),
    /// The register becomes the word k of the scratch memory.
    LoadScratch(Register),
    /// The register becomes the packet's length.
    LoadLength(Register),
    /// The word k of the scratch memory becomes the register.
    Store(Register),
    /// A becomes the result of A and the operand.
    Compute(Arithmetic, Operand),
    /// A becomes its negative.
    Negate,
    /// Goes forward by k.
    Jump,
    /// Goes forward by jt where the comparison of A with the operand holds, else by jf.
    Branch(Comparison, Operand),
    /// Ends with k.
    ReturnConstant,
    /// Ends with A.
    ReturnAccumulator,
    /// The register becomes the other one.
    Copy(Register),
}

/// What an instruction with this code does, where a filter may have it.
#[tactic(auto, unfolding(crate::specs::Actions::action_of, crate::specs::Actions::actions))]
#[inline(always)]
pub fn decode(code: u16) -> Option<Action>
    ensures { result ≡ action_of code }
{
    use Arithmetic::{Add, And, Divide, Multiply, Or, ShiftLeft, ShiftRight, Subtract};
    use Comparison::{AtLeast, CommonBit, Equal, Greater};
    match code {
        0x20 => Some(Action::LoadWord),
        0x00 => Some(Action::Load(Register::Accumulator)),
        0x01 => Some(Action::Load(Register::Index)),
        0x60 => Some(Action::LoadScratch(Register::Accumulator)),
        0x61 => Some(Action::LoadScratch(Register::Index)),
        0x80 => Some(Action::LoadLength(Register::Accumulator)),
        0x81 => Some(Action::LoadLength(Register::Index)),
        0x02 => Some(Action::Store(Register::Accumulator)),
        0x03 => Some(Action::Store(Register::Index)),
        0x04 => Some(Action::Compute(Add, Operand::Constant)),
        0x0c => Some(Action::Compute(Add, Operand::Index)),
        0x14 => Some(Action::Compute(Subtract, Operand::Constant)),
        0x1c => Some(Action::Compute(Subtract, Operand::Index)),
        0x24 => Some(Action::Compute(Multiply, Operand::Constant)),
        0x2c => Some(Action::Compute(Multiply, Operand::Index)),
        0x34 => Some(Action::Compute(Divide, Operand::Constant)),
        0x3c => Some(Action::Compute(Divide, Operand::Index)),
        0x44 => Some(Action::Compute(Or, Operand::Constant)),
        0x4c => Some(Action::Compute(Or, Operand::Index)),
        0x54 => Some(Action::Compute(And, Operand::Constant)),
        0x5c => Some(Action::Compute(And, Operand::Index)),
        0x64 => Some(Action::Compute(ShiftLeft, Operand::Constant)),
        0x6c => Some(Action::Compute(ShiftLeft, Operand::Index)),
        0x74 => Some(Action::Compute(ShiftRight, Operand::Constant)),
        0x7c => Some(Action::Compute(ShiftRight, Operand::Index)),
        0x84 => Some(Action::Negate),
        0x05 => Some(Action::Jump),
        0x15 => Some(Action::Branch(Equal, Operand::Constant)),
        0x1d => Some(Action::Branch(Equal, Operand::Index)),
        0x25 => Some(Action::Branch(Greater, Operand::Constant)),
        0x2d => Some(Action::Branch(Greater, Operand::Index)),
        0x35 => Some(Action::Branch(AtLeast, Operand::Constant)),
        0x3d => Some(Action::Branch(AtLeast, Operand::Index)),
        0x45 => Some(Action::Branch(CommonBit, Operand::Constant)),
        0x4d => Some(Action::Branch(CommonBit, Operand::Index)),
        0x06 => Some(Action::ReturnConstant),
        0x16 => Some(Action::ReturnAccumulator),
        0x07 => Some(Action::Copy(Register::Index)),
        0x87 => Some(Action::Copy(Register::Accumulator)),
        _ => None,
    }
}
