// One instruction, and why instructions are no filter.
ghost use Rattle.std.specs.Prelude.{◌≡◌, Some};
ghost use Rattle.nv_bpf.specs.Faults.{filter_text};
ghost use Rattle.nv_bpf.specs.declared.op.FilterFault.TheVariants.{Memory};

use std::alloc::{AllocError, AllocFailed};
use std::fmt;

/// The most instructions that a filter has.
pub const MOST_OPS: usize = 4096;

/// An instruction of classic BPF (McCanne and Jacobson 1993), in the fields that `tcpdump -ddd` prints.
#[derive(Clone, Copy, Debug, PartialEq, Eq)]
pub struct Op {
    pub code: u16,
    /// How far to go forward from the next instruction where a comparison holds.
    pub jt: u8,
    /// How far to go forward from the next instruction where it doesn't.
    pub jf: u8,
    pub k: u32,
}

/// Why a text or a list of instructions is no filter. Lines count from 1, instructions from 0.
#[derive(Clone, Copy, Debug, PartialEq, Eq)]
pub enum FilterFault {
    /// A line off its form.
    Line(u32),
    /// No instruction.
    Empty,
    /// More than 4,096 instructions.
    TooLong,
    /// Fewer lines than the count says, or more.
    Count,
    /// A code that a filter may not have.
    Code(u32),
    /// A jump past the last instruction.
    Jump(u32),
    /// A word past the scratch memory.
    Scratch(u32),
    /// A load that isn't one of the pair's words.
    Offset(u32),
    /// A division by the constant 0.
    Zero(u32),
    /// A shift by a constant above 31.
    Shift(u32),
    /// The last instruction isn't a return.
    NoReturn,
    Memory,
}

impl fmt::Display for FilterFault {
    ghost output = { λ fault. Some (filter_text fault) };

    fn fmt<W: fmt::Write>(&self, f: &mut fmt::Formatter<W>) -> fmt::Result {
        match self {
            FilterFault::Line(line) => write!(f, "line {line}"),
            FilterFault::Empty => f.write_str("empty"),
            FilterFault::TooLong => f.write_str("too long"),
            FilterFault::Count => f.write_str("count"),
            FilterFault::Code(index) => write!(f, "code {index}"),
            FilterFault::Jump(index) => write!(f, "jump {index}"),
            FilterFault::Scratch(index) => write!(f, "scratch {index}"),
            FilterFault::Offset(index) => write!(f, "offset {index}"),
            FilterFault::Zero(index) => write!(f, "zero {index}"),
            FilterFault::Shift(index) => write!(f, "shift {index}"),
            FilterFault::NoReturn => f.write_str("no return"),
            FilterFault::Memory => f.write_str("memory"),
        }
    }
}

impl From<AllocError> for FilterFault {
    ghost from_gives = { λ _ fault. fault ≡ Memory };

    fn from(_: AllocError) -> Self {
        FilterFault::Memory
    }
}

impl<T: Drop> From<AllocFailed<T>> for FilterFault {
    ghost from_gives = { λ _ fault. fault ≡ Memory };

    fn from(_: AllocFailed<T>) -> Self {
        FilterFault::Memory
    }
}
