// The commands that need no other threads.
ghost use Rattle.std.specs.Prelude.{◌≡◌, List, ℕ, Some, option_map};
ghost use Rattle.nv_driver.specs.Tables.{name_view};
ghost use Rattle.nv_driver.specs.Words.{Uses, command_of};
ghost use Rattle.nv_driver.specs.Due.{Answers, Says};
ghost use Rattle.nv_driver.specs.Outcome.{Helped, source_of, outcome_status, text_of};
ghost use Rattle.nv_driver.specs.Tasks.{IsTaskOf, fault_outcome};

use crate::asked::{LineFault, Tool};
use crate::endings::{MEMORY, USAGE, ended, put_line};
use crate::help::help_text;
use crate::inspecting::inspect;
use crate::names::Name;
use crate::refusing::{put_input, put_unread};
use crate::replaying::replay;
use crate::task::Task;
use crate::tools::{Unmade, make};
use nv_outside::{Files, Sink, put_pieces};
use std::alloc::Global;

// Does the command over one file, and says what it came to.
fn use_file<F: Files, S: Sink>(
    alloc: Global,
    files: &mut F,
    sink: &mut S,
    tool: Tool,
    file: &str,
) -> u8
    ensures { (words : List (List ℕ)) → command_of words ≡ Some (Uses (record { tool = tool; file = file.now }))
        → Answers words (source_of F.holds F.faults F.taken files.old files.new)
        (S.told sink.old) (S.faults sink.old) result (S.told sink.new) (S.faults sink.new) }
{
    match make(alloc, files, tool, file) {
        Ok(text) => put_line(sink, &text, 0),
        Err(Unmade::Memory) => put_line(sink, b"varan: memory\n", MEMORY),
        Err(Unmade::Unreadable) => put_unread(sink, file),
        Err(Unmade::Refused(cause)) => put_input(alloc, sink, file, cause),
    }
}

/// Says that the words are refused, or that memory was wanted while they were read.
pub fn refuse_words<S: Sink>(sink: &mut S, fault: LineFault) -> u8
    ensures { Says (text_of (fault_outcome fault)) (outcome_status (fault_outcome fault)) (S.told sink.old) (S.faults sink.old) result (S.told sink.new) (S.faults sink.new) }
{
    match fault {
        LineFault::Usage => put_line(sink, b"varan: usage\n", USAGE),
        LineFault::Memory => put_line(sink, b"varan: memory\n", MEMORY),
    }
}

// Says how a command is used, or each of them.
fn help<S: Sink>(sink: &mut S, topic: Option<Name>) -> u8
    ensures { Says (text_of (Helped (option_map name_view topic))) 0 (S.told sink.old) (S.faults sink.old) result (S.told sink.new) (S.faults sink.new) }
{
    let put = put_pieces(sink, help_text(topic));
    ended(put, 0)
}

/// Does what a line asks for, where that needs no other threads, and says what it came to. Refused words read no file.
pub fn answer_alone<F: Files, S: Sink>(
    alloc: Global,
    files: &mut F,
    sink: &mut S,
    task: Task<'_>,
) -> u8
    ensures { (words : List (List ℕ)) → IsTaskOf task.entry words
        → Answers words (source_of F.holds F.faults F.taken files.old files.new)
        (S.told sink.old) (S.faults sink.old) result (S.told sink.new) (S.faults sink.new) }
{
    match task {
        Task::Refuse(fault) => refuse_words(sink, fault),
        Task::Use(job) => use_file(alloc, files, sink, job.tool, job.file),
        Task::Replay(trail) => replay(alloc, files, sink, &trail),
        Task::Inspect(look) => inspect(alloc, files, sink, &look),
        Task::Help(topic) => help(sink, topic),
    }
}
