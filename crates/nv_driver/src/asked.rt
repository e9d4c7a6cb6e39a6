// What a line asks for.
ghost use Rattle.std.specs.Prelude.{◌≡◌, ℕ, ◌≤◌, ◌+◌, ◌%◌, length};
ghost use Rattle.std.specs.Option.{ForSome};
ghost use Rattle.clap.specs.Values.{kind_of};
ghost use Rattle.nv_driver.specs.declared.asked.LineFault.TheVariants.{Memory};
ghost use Rattle.nv_driver.specs.declared.asked.Point.TheVariants.{Count};
ghost use Rattle.nv_driver.specs.Faults.{line_fault};

use crate::limits::Limits;
use crate::names::Name;
use clap::Error;
use clap::error::ErrorKind;
use std::alloc::{AllocError, AllocFailed};

/// The file that says what a run begins with.
#[derive(Clone, Copy)]
pub struct ScriptFile<'a> {
    pub name: &'a str,
    /// It is named as a transcript of a live run, and may be longer than a script.
    pub is_transcript: bool,
}

/// A run of versions.
#[derive(Drop)]
pub struct Run<'a> {
    pub script: ScriptFile<'a>,
    /// The file of a filter that judges followers, if one is named.
    pub rules: Option<&'a str>,
    /// One to eight names, in the order in which they were given.
    pub versions: Vec<&'a str>,
    pub limits: Limits,
    /// The report is written as JSON.
    pub json: bool,
    ghost few: { length versions.items ≤ 8 },
    ghost calls_fit: { limits.calls ≤ 131072 },
}

/// Versions whose input comes from outside while they run.
#[derive(Drop)]
pub struct Service<'a> {
    /// The script, if one is named.
    pub script: Option<&'a str>,
    /// The file of a filter that judges followers, if one is named.
    pub rules: Option<&'a str>,
    /// One to eight names, in the order in which they were given.
    pub versions: Vec<&'a str>,
    pub limits: Limits,
    /// Clients come and go by lines on standard input and output.
    pub clients: bool,
    /// Milliseconds for which the leader may have waited for a follower before that one is let go; none without the option.
    pub patience: Option<u32>,
    /// Each event is told on standard error.
    pub log: bool,
    ghost few: { length versions.items ≤ 8 },
}

/// What is done with the one file that a command names.
#[derive(Clone, Copy, Debug, PartialEq, Eq)]
pub enum Tool {
    /// `rules FILE`: the filter text is checked.
    CheckRules,
    /// `rules --asm FILE`: the rule text becomes a filter text.
    AssembleRules,
    /// `asm FILE`: the assembler text becomes an ELF file.
    Assemble,
}

/// A command over one file.
#[derive(Clone, Copy)]
pub struct Job<'a> {
    pub tool: Tool,
    pub file: &'a str,
}

/// A version that follows a trace.
#[derive(Clone, Copy)]
pub struct Trail<'a> {
    /// The script of the run that was recorded.
    pub script: ScriptFile<'a>,
    /// The file of a filter that judges the version, if one is named.
    pub rules: Option<&'a str>,
    pub trace: &'a str,
    pub version: &'a str,
    /// Bytes of the guest's memory.
    pub memory: u32,
    /// Instructions of the version.
    pub budget: u32,
    /// Their count begins anew at each answer.
    pub renews: bool,
    /// The version's index, as the filter sees it.
    pub index: u32,
    ghost memory_fits: { (131072 ≤ memory) × (memory ≤ 16777216) × (memory % 4096 ≡ 0) },
    ghost budget_fits: { (1 ≤ budget) × (budget ≤ 1000000000) },
    ghost index_fits: { index ≤ 7 },
}

/// A point of a trace.
#[derive(Clone, Copy, Debug, PartialEq, Eq)]
pub enum Point {
    /// Before the event with this place, or after the last.
    Stamp(u32),
    /// Before the first event of this number, or after the last.
    Call(u32),
    /// After so many instructions of the version, 1 to 1,000,000,000.
    Count(u32),
}

/// What is shown of a version that follows a trace.
#[derive(Clone, Copy)]
pub struct Look<'a> {
    pub trail: Trail<'a>,
    pub point: Point,
    /// The address and the length of the bytes of memory that are shown.
    pub dump: Option<(u32, u32)>,
    ghost count_fits: { (n : ℕ) → point ≡ Count n → (1 ≤ n) × (n ≤ 1000000000) },
    ghost dump_fits: { ForSome dump (λ range. (1 ≤ range.1) × (range.1 ≤ 4096) × (range.0 + range.1 ≤ 4294967295)) },
}

/// What a line asks for.
#[derive(Drop)]
pub enum Command<'a> {
    Run(Run<'a>),
    Serve(Service<'a>),
    Use(Job<'a>),
    /// `gen N`: the large run that is made from this number, 0 to 999,999.
    Generate(u32),
    /// `record`: the log of the run is written as a trace, and no report.
    Record(Run<'a>),
    Replay(Trail<'a>),
    Inspect(Look<'a>),
    /// `usage`: how this command is used, or each of them.
    Help(Option<Name>),
}

/// Why a line gives no command.
#[derive(Clone, Copy, Debug, PartialEq, Eq)]
pub enum LineFault {
    /// The words are refused.
    Usage,
    /// Memory was wanted while they were read.
    Memory,
}

impl From<AllocError> for LineFault {
    ghost from_gives = { λ _ fault. fault ≡ Memory };

    fn from(_: AllocError) -> Self {
        LineFault::Memory
    }
}

impl<T: Drop> From<AllocFailed<T>> for LineFault {
    ghost from_gives = { λ _ fault. fault ≡ Memory };

    fn from(_: AllocFailed<T>) -> Self {
        LineFault::Memory
    }
}

impl From<Error> for LineFault {
    ghost from_gives = { λ error fault. fault ≡ line_fault (kind_of error) };

    fn from(error: Error) -> Self {
        match error.kind() {
            ErrorKind::OutOfMemory => LineFault::Memory,
            _ => LineFault::Usage,
        }
    }
}
