// Why a script is refused.
ghost use Rattle.std.specs.Prelude.{◌≡◌, Some};
ghost use Rattle.nv_script.specs.Texts.{cause_word, script_fault_text};
ghost use Rattle.nv_script.specs.declared.fault.ScriptFault.TheVariants.{Memory};

use std::alloc::{AllocError, AllocFailed};
use std::fmt;

/// Why a line of a script is refused. Of several causes the first in this order is told.
#[derive(Clone, Copy, Debug, PartialEq, Eq)]
pub enum ScriptCause {
    /// The first line is none of `varan-script 1` to `varan-script 5`, or there is none.
    Form,
    /// The first word is none of a script's of this form.
    Word,
    /// Wrong fields, a byte off its range, or a number or a hexadecimal text that isn't one.
    Shape,
    /// A number off its limits, or a client that hasn't come.
    Range,
    /// A second clock or seed, a file's name or a length to hand over at that was used before, or what comes after its end.
    Twice,
    /// More than 256 arguments, 256 files, 8 lengths to hand over at, 64 connections, or more clients than 65,536, or 4,294,967,296 in the fifth form; more than
    /// 1,048,576 bytes in a file or over a connection, or more than 2,000 in an arrival.
    Long,
}

/// Why a script is refused.
#[derive(Clone, Copy, Debug, PartialEq, Eq)]
pub enum ScriptFault {
    /// The first faulty line, counted from 1, and its first cause.
    Line(u32, ScriptCause),
    Memory,
}

impl ScriptCause {
    /// The word that a refusal is told by.
    pub fn as_str(&self) -> &'static str
        ensures { result.now ≡ cause_word self.now }
    {
        match self {
            ScriptCause::Form => "form",
            ScriptCause::Word => "word",
            ScriptCause::Shape => "shape",
            ScriptCause::Range => "range",
            ScriptCause::Twice => "twice",
            ScriptCause::Long => "long",
        }
    }
}

impl fmt::Display for ScriptCause {
    ghost output = { λ cause. Some (cause_word cause) };

    fn fmt<W: fmt::Write>(&self, f: &mut fmt::Formatter<W>) -> fmt::Result {
        f.write_str(self.as_str())
    }
}

impl fmt::Display for ScriptFault {
    ghost output = { λ fault. Some (script_fault_text fault) };

    fn fmt<W: fmt::Write>(&self, f: &mut fmt::Formatter<W>) -> fmt::Result {
        match self {
            ScriptFault::Line(line, cause) => write!(f, "line {line} {cause}"),
            ScriptFault::Memory => f.write_str("memory"),
        }
    }
}

impl From<AllocError> for ScriptFault {
    ghost from_gives = { λ _ fault. fault ≡ Memory };

    fn from(_: AllocError) -> Self {
        ScriptFault::Memory
    }
}

impl<T: Drop> From<AllocFailed<T>> for ScriptFault {
    ghost from_gives = { λ _ fault. fault ≡ Memory };

    fn from(_: AllocFailed<T>) -> Self {
        ScriptFault::Memory
    }
}
