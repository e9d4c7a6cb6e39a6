//! Runs the rows of data/ through the top call (crates/nv_rows/data/README.md), and says which of them come out otherwise; or runs what scripts of bench/ time.
//! The first word names which: rows, machine, threads, rules, sequence or ring; without words it is the rows, and a small run of each of the others.
//! Types: `Entry` and `Field` (the lines of a file), `Reader` (makes rows of entries), `Row` with its `RowFile`, `Change`, `Kind` and `Wanted`, `RowFault` (why
//! an entry isn't read), `Outside` and `Answered` (what a call finds, and what comes of it), `Tally` (how many rows came out otherwise).
//! Modules that are timed: `machine` (instructions alone), `threads` (a process), `rules` (a filter's values), `sequence` with `output` (a version by the plain
//! monitor), `ring` with `room` and `queue` (events through a room, words through rtrb). Each says what it takes, and which script takes the time.
//! Proved: that nothing undefined is done; what is read is shown by the rows. The gate compares what it prints with the file `stdout`.
#![tactic(auto)]

mod call;
mod content;
mod draft;
mod entry;
mod fault;
mod machine;
mod meeting;
mod output;
mod queue;
mod reader;
mod ring;
mod room;
mod row;
mod rules;
mod run;
mod sequence;
mod shape;
mod tally;
mod texts;
mod threads;
mod timed;
mod versions;

use anyhow::Result;
use entry::entries;
use reader::Reader;
use row::Row;
use std::io::Print;
use std::rt::Files;
use std::sync::Wait;
use std::thread::Threads;
use std::{env, fs, io};
use tally::Tally;

// The files with rows, by what they are about. One may include the texts of those before it.
const SUBJECTS: [&str; 33] = [
    "common",
    "calls",
    "memory",
    "addresses",
    "flags",
    "numbers",
    "files",
    "files_in_turn",
    "scripts",
    "script_texts",
    "alone",
    "several",
    "taken",
    "ahead",
    "refusals",
    "command_lines",
    "tools",
    "rule_files",
    "rule_texts",
    "assembler_texts",
    "linux",
    "built_guests",
    "built",
    "atomics",
    "instructions",
    "written_code",
    "sockets",
    "reports",
    "traces",
    "trace_lines",
    "live",
    "arrivals",
    "polls",
];

fn main(rt: HostRuntime) -> Result<()> {
    let words: Vec<String> = env::args(&rt)?.collect(rt.alloc())?;
    match words.as_slice() {
        [_, name, words @ ..] => run_named(&rt, name, words),
        _ => run_each(&rt),
    }
}

fn run_named<R: Files + Print + AllocGlobal + Threads + Wait + Sync>(
    rt: &R,
    name: &str,
    words: &[String],
) -> Result<()> {
    if name == "rows" {
        run_subjects(rt)?;
        return Ok(());
    }
    timed::run_named(rt, name, words)
}

fn run_each<R: Files + Print + AllocGlobal + Threads + Wait + Sync>(rt: &R) -> Result<()> {
    run_subjects(rt)?;
    timed::run_each(rt)
}

fn run_subjects<R: Files + Print + AllocGlobal + Threads + Wait + Sync>(rt: &R) -> io::Result<()> {
    let mut reader = Reader::new(rt.alloc());
    let mut tally = Tally::new();
    for subject in SUBJECTS {
        run_subject(rt, subject, &mut reader, &mut tally)?;
    }
    println!(rt; "{tally}")
}

fn run_subject<R: Files + Print + AllocGlobal + Threads + Wait + Sync>(
    rt: &R,
    subject: &str,
    reader: &mut Reader,
    tally: &mut Tally,
) -> io::Result<()> {
    let text = fs::read(rt, subject)?;
    for entry in &entries(rt.alloc(), &text)? {
        match reader.rows(entry) {
            Ok(rows) => run_rows(rt, subject, &rows, tally)?,
            Err(fault) => tally.tell_fault(rt, subject, entry.head.rest, fault)?,
        }
    }
    Ok(())
}

fn run_rows<R: Print + AllocGlobal + Threads + Wait + Sync>(
    rt: &R,
    subject: &str,
    rows: &[Row],
    tally: &mut Tally,
) -> io::Result<()> {
    for row in rows {
        let wrong = run::first_wrong(rt, rt.alloc(), row)?;
        tally.note(rt, subject, row, wrong)?;
    }
    Ok(())
}
