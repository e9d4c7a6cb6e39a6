// Why a rule text is no filter.
ghost use Rattle.std.specs.Prelude.{◌≡◌, Some};
ghost use Rattle.nv_bpf_asm.specs.Faults.{rule_word, rules_text};
ghost use Rattle.nv_bpf_asm.specs.declared.fault.RuleFault.TheVariants.{Memory};

use nv_bpf::FilterFault;
use std::alloc::{AllocError, AllocFailed};
use std::fmt;

/// Why a line of a rule text has no instruction.
#[derive(Clone, Copy, Debug, PartialEq, Eq)]
pub enum RuleCause {
    /// A label that is defined on an earlier line.
    Twice,
    /// No such instruction.
    Word,
    /// Operands that the instruction doesn't take.
    Operand,
    /// A label that isn't defined.
    Label,
    /// A target that isn't after the jump, or is too far after it.
    Far,
}

/// Why a rule text is no filter.
#[derive(Clone, Copy, Debug, PartialEq, Eq)]
pub enum RuleFault {
    /// The first faulty line, counted from 1, and its first cause.
    Line(u32, RuleCause),
    /// The fault of the instructions.
    Filter(FilterFault),
    Memory,
}

impl fmt::Display for RuleCause {
    ghost output = { λ cause. Some (rule_word cause) };

    fn fmt<W: fmt::Write>(&self, f: &mut fmt::Formatter<W>) -> fmt::Result {
        match self {
            RuleCause::Twice => f.write_str("twice"),
            RuleCause::Word => f.write_str("word"),
            RuleCause::Operand => f.write_str("operand"),
            RuleCause::Label => f.write_str("label"),
            RuleCause::Far => f.write_str("far"),
        }
    }
}

impl fmt::Display for RuleFault {
    ghost output = { λ fault. Some (rules_text fault) };

    fn fmt<W: fmt::Write>(&self, f: &mut fmt::Formatter<W>) -> fmt::Result {
        match self {
            RuleFault::Line(line, cause) => write!(f, "line {line} {cause}"),
            RuleFault::Filter(fault) => write!(f, "{fault}"),
            RuleFault::Memory => f.write_str("memory"),
        }
    }
}

impl From<AllocError> for RuleFault {
    ghost from_gives = { λ _ fault. fault ≡ Memory };

    fn from(_: AllocError) -> Self {
        RuleFault::Memory
    }
}

impl<T: Drop> From<AllocFailed<T>> for RuleFault {
    ghost from_gives = { λ _ fault. fault ≡ Memory };

    fn from(_: AllocFailed<T>) -> Self {
        RuleFault::Memory
    }
}
