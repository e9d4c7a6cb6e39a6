// Why a run doesn't start.
ghost use Rattle.std.specs.Prelude.{◌≡◌, Some};
ghost use Rattle.nv_driver.specs.Causes.{cause_text};
ghost use Rattle.nv_driver.specs.Untraced.{IsByTrace, IsByCheck};
ghost use Rattle.nv_driver.specs.declared.refusal.Refusal.TheVariants.{Memory};

use nv_asm::AsmFault;
use nv_bpf::FilterFault;
use nv_bpf_asm::RuleFault;
use nv_elf::ElfFault;
use nv_guest::GuestFault;
use nv_script::ScriptFault;
use nv_trace::{CheckFault, TraceFault};
use std::alloc::{AllocError, AllocFailed};
use std::fmt;

/// A file of the reading order: the script, the rules, the trace, or the version with this number.
#[derive(Clone, Copy, Debug, PartialEq, Eq)]
pub enum Place {
    Script,
    Rules,
    Trace,
    Version(u32),
}

/// Why a file is refused.
#[derive(Clone, Copy, Debug, PartialEq, Eq)]
pub enum Cause {
    /// More than 4,194,304 bytes, of a trace more than 67,108,864, of a transcript more than 1,073,741,824.
    Long,
    /// A script that isn't one.
    Script(ScriptFault),
    /// A script that says what comes, where that is asked of standard input.
    Comes,
    /// A version that is no file of a program.
    Elf(ElfFault),
    /// A version whose program has no room in a guest.
    Guest(GuestFault),
    /// A rule file that is no filter.
    Filter(FilterFault),
    /// A rule text that is no filter.
    Rules(RuleFault),
    /// An assembler text that is no program.
    Asm(AsmFault),
    /// A trace that isn't one.
    Trace(TraceFault),
    /// A trace that the kernel of the script doesn't come to.
    Check(CheckFault),
}

impl fmt::Display for Cause {
    ghost output = { λ cause. Some (cause_text cause) };

    fn fmt<W: fmt::Write>(&self, f: &mut fmt::Formatter<W>) -> fmt::Result {
        match self {
            Cause::Long => f.write_str("long"),
            Cause::Script(fault) => write!(f, "{fault}"),
            Cause::Comes => f.write_str("comes"),
            Cause::Elf(fault) => write!(f, "{fault}"),
            Cause::Guest(fault) => write!(f, "{fault}"),
            Cause::Filter(fault) => write!(f, "{fault}"),
            Cause::Rules(fault) => write!(f, "{fault}"),
            Cause::Asm(fault) => write!(f, "{fault}"),
            Cause::Trace(fault) => write!(f, "{fault}"),
            Cause::Check(fault) => write!(f, "{fault}"),
        }
    }
}

/// Why a run doesn't start.
#[derive(Clone, Copy, Debug, PartialEq, Eq)]
pub enum Refusal {
    Memory,
    Unreadable(Place),
    Input(Place, Cause),
}

impl From<AllocError> for Refusal {
    ghost from_gives = { λ _ refusal. refusal ≡ Memory };

    fn from(_: AllocError) -> Self {
        Refusal::Memory
    }
}

impl<T: Drop> From<AllocFailed<T>> for Refusal {
    ghost from_gives = { λ _ refusal. refusal ≡ Memory };

    fn from(_: AllocFailed<T>) -> Self {
        Refusal::Memory
    }
}

impl From<TraceFault> for Refusal {
    ghost from_gives = { IsByTrace };

    fn from(fault: TraceFault) -> Self {
        match fault {
            TraceFault::Memory => Refusal::Memory,
            _ => Refusal::Input(Place::Trace, Cause::Trace(fault)),
        }
    }
}

impl From<CheckFault> for Refusal {
    ghost from_gives = { IsByCheck };

    fn from(fault: CheckFault) -> Self {
        match fault {
            CheckFault::Memory => Refusal::Memory,
            _ => Refusal::Input(Place::Trace, Cause::Check(fault)),
        }
    }
}
