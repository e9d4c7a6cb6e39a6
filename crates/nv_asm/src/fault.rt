// Why a text is no program.
ghost use Rattle.std.specs.Prelude.{◌≡◌, Some};
ghost use Rattle.nv_asm.specs.Faults.{asm_word, asm_text};
ghost use Rattle.nv_asm.specs.declared.fault.AsmFault.TheVariants.{Memory};

use std::alloc::{AllocError, AllocFailed};
use std::fmt;

/// Why a line is faulty. Of several causes the first in this order is told.
#[derive(Clone, Copy, Debug, PartialEq, Eq)]
pub enum AsmCause {
    /// A label that is defined on an earlier line.
    Twice,
    /// No such instruction or directive.
    Mnemonic,
    /// Operands of a wrong number or form, or an instruction among the data.
    Operand,
    /// A label that isn't defined, or an entry that isn't a whole instruction's place in the text section.
    Label,
    /// A number or a distance off its range, or more than 1,048,576 bytes up to this line.
    Range,
}

/// Why a text is no program.
#[derive(Clone, Copy, Debug, PartialEq, Eq)]
pub enum AsmFault {
    /// The first faulty line, counted from 1, and its first cause.
    Line(u32, AsmCause),
    /// Want of memory.
    Memory,
}

impl fmt::Display for AsmCause {
    ghost output = { λ cause. Some (asm_word cause) };

    fn fmt<W: fmt::Write>(&self, f: &mut fmt::Formatter<W>) -> fmt::Result {
        match self {
            AsmCause::Twice => f.write_str("twice"),
            AsmCause::Mnemonic => f.write_str("mnemonic"),
            AsmCause::Operand => f.write_str("operand"),
            AsmCause::Label => f.write_str("label"),
            AsmCause::Range => f.write_str("range"),
        }
    }
}

impl fmt::Display for AsmFault {
    ghost output = { λ fault. Some (asm_text fault) };

    fn fmt<W: fmt::Write>(&self, f: &mut fmt::Formatter<W>) -> fmt::Result {
        match self {
            AsmFault::Line(line, cause) => write!(f, "line {line} {cause}"),
            AsmFault::Memory => f.write_str("memory"),
        }
    }
}

impl From<AllocError> for AsmFault {
    ghost from_gives = { λ _ fault. fault ≡ Memory };

    fn from(_: AllocError) -> Self {
        AsmFault::Memory
    }
}

impl<T: Drop> From<AllocFailed<T>> for AsmFault {
    ghost from_gives = { λ _ fault. fault ≡ Memory };

    fn from(_: AllocFailed<T>) -> Self {
        AsmFault::Memory
    }
}
