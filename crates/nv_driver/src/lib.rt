//! The driver of the commands: their words, what each owes (specs/Due), its files read and refused, and the commands that need no other threads.
//! Words: `Command`, and its parts `Run`, `ScriptFile`, `Service`, `Job`, `Tool`, `Trail`, `Look`, `Point`, `Limits`; `Name`; `LineFault`; `clap` reads
//! the words of each command.
//! Types: `Task`, `Prepared`, `LivePrepared`, `Refusal`, `Place`, `Cause`, `Ending`, `Comment`, `Commented`; functions `answer_alone`, `put_comment`.
//! Proved: `read` gives the command that the words ask for, or that they are refused, as specs/Words defines; memory is
//! wanted only after a command's name. `help_text` gives what `usage` writes, as specs/Help has it.
//! The first file in order that can't be read or is refused is named; `asm`, `rules`, `replay`, `inspect`, `usage` and
//! refused words are answered as they are owed, without waiting; each ending says its text with its status; each comment on a live run is its line.
#![tactic(auto)]

mod answering;
mod asked;
mod asked_trail;
mod commented;
mod comments;
mod ending;
mod endings;
mod file_limits;
mod generating;
mod help;
mod inspecting;
mod limits;
mod live;
mod looks;
mod matching;
mod names;
mod numbers;
mod parts;
mod preparing;
mod reading;
mod refusal;
mod refusing;
mod replaying;
mod scripts;
mod simple;
mod task;
mod tools;
mod trails;

pub use answering::{answer_alone, refuse_words};
pub use asked::{Command, Job, LineFault, Look, Point, Run, ScriptFile, Service, Tool, Trail};
pub use commented::Commented;
pub use comments::{Comment, comment_line, put_comment};
pub use ending::{Ending, ending_status, how_ended};
pub use endings::{
    INPUT, MEMORY, READ_FAULT, USAGE, WRITE_FAULT, count_exited, ended, put_line, starved, status,
};
pub use generating::generate;
pub use help::help_text;
pub use limits::Limits;
pub use live::{LivePrepared, prepare_live};
pub use names::Name;
pub use preparing::{Prepared, prepare};
pub use reading::read;
pub use refusal::{Cause, Place, Refusal};
pub use refusing::{refuse, refuse_live};
pub use task::Task;
