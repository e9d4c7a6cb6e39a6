// The call of a row.
ghost use Rattle.std.specs.Prelude.{◌<◌};

use crate::call::{Answered, Outside, monitor, monitor_through};
use crate::meeting::monitor_meeting;
use crate::row::{Change, Kind, Row, RowFile};
use crate::versions::{assembled, image};
use nv_workers::OpenGate;
use std::alloc::{AllocError, Global};
use std::sync::Wait;
use std::thread::Threads;

/// The first answer of the row's calls that isn't what the row says.
pub fn first_wrong<R: Threads + Wait + Sync>(
    rt: &R,
    alloc: Global,
    row: &Row,
) -> Result<Option<Answered>, AllocError> {
    let words: Vec<&str> = row.words.iter().map(|word| word.as_str()).collect(alloc)?;
    let contents = contents(rt, alloc, &row.files)?;
    let mut files = Vec::new(alloc);
    for (file, content) in row.files.iter().zip(contents.iter()) {
        files.push((file.name.as_str(), content.as_slice()))?;
    }
    let input: Vec<&[u8]> = row.input.iter().map(|read| read.as_slice()).collect(alloc)?;
    let outside = outside_of(row, &files, &input);
    let answered = call(rt, alloc, row, &words, outside)?;
    if !is_wanted(row, &answered) {
        return Ok(Some(answered));
    }
    if row.each_write_fails {
        return first_wrong_write(rt, alloc, &words, outside, &answered.written);
    }
    Ok(None)
}

// Whether the answer is what the row says.
fn is_wanted(row: &Row, answered: &Answered) -> bool {
    answered.status == row.status
        && row.wanted.is(&answered.written)
        && row.wanted.is_of_live_run(&answered.said, &answered.noted)
}

// The files of a row as the call finds them.
fn contents<R: Threads + Wait + Sync>(
    rt: &R,
    alloc: Global,
    files: &[RowFile],
) -> Result<Vec<Vec<u8>>, AllocError> {
    let mut contents = Vec::new(alloc);
    for file in files {
        let mut content = content(rt, alloc, file)?;
        for change in &file.changes {
            apply(&mut content, change);
        }
        contents.push(content)?;
    }
    Ok(contents)
}

fn content<R: Threads + Wait + Sync>(
    rt: &R,
    alloc: Global,
    file: &RowFile,
) -> Result<Vec<u8>, AllocError> {
    match file.kind {
        Kind::Plain => file.content.clone(),
        Kind::Code => image(alloc, &[], &file.content),
        Kind::Assembler => assembled(rt, alloc, &file.content),
        Kind::Rules => filter_of(rt, alloc, &file.content),
    }
}

// The filter of a rule text.
fn filter_of<R: Threads + Wait + Sync>(
    rt: &R,
    alloc: Global,
    text: &[u8],
) -> Result<Vec<u8>, AllocError> {
    let files = [("r", text)];
    let words = ["varan", "rules", "--asm", "r"];
    let made = monitor(rt, alloc, &words, Outside::calm(&files))?;
    Ok(made.written)
}

fn apply(content: &mut Vec<u8>, change: &Change) {
    match change {
        Change::Set(place, bytes) => set_bytes(content, *place, bytes),
        Change::Cut(len) => content.truncate(*len),
    }
}

// Bytes that would stand after the end are left out.
fn set_bytes(content: &mut [u8], place: usize, bytes: &[u8]) {
    for (old, new) in content.iter_mut().skip(place).zip(bytes.iter()) {
        *old = *new;
    }
}

fn outside_of<'a>(
    row: &'a Row,
    files: &'a [(&'a str, &'a [u8])],
    input: &'a [&'a [u8]],
) -> Outside<'a>
    ensures { 0 < result.most }
{
    Outside {
        files,
        failing_reads: &row.failing_reads,
        most: row.takes.max(1),
        failing_writes: &row.failing_writes,
        input,
        failing_says: &row.failing_says,
        failing_notes: &row.failing_notes,
    }
}

fn call<R: Threads + Wait + Sync>(
    rt: &R,
    alloc: Global,
    row: &Row,
    words: &[&str],
    outside: Outside,
) -> Result<Answered, AllocError>
    requires { 0 < outside.most }
{
    if let Some(events) = row.meets {
        return monitor_meeting(rt, alloc, words, outside, events);
    }
    if row.is_once {
        return monitor_through(rt, alloc, words, outside, &OpenGate);
    }
    monitor(rt, alloc, words, outside)
}

// The first answer that isn't right where a sink takes a byte a write, and fails at the write of one of these bytes.
fn first_wrong_write<R: Threads + Wait + Sync>(
    rt: &R,
    alloc: Global,
    words: &[&str],
    outside: Outside,
    written: &[u8],
) -> Result<Option<Answered>, AllocError> {
    for place in 0..written.len() {
        let answered = cut_off(rt, alloc, words, outside, place)?;
        if answered.status != 6 || answered.written.as_slice() != &written[..place] {
            return Ok(Some(answered));
        }
    }
    Ok(None)
}

// The answer where a sink takes a byte a write, and fails at this one.
fn cut_off<R: Threads + Wait + Sync>(
    rt: &R,
    alloc: Global,
    words: &[&str],
    outside: Outside,
    place: usize,
) -> Result<Answered, AllocError> {
    let failing = [u32::try_from(place).unwrap_or(u32::MAX)];
    let failing_there = Outside {
        most: 1,
        failing_writes: &failing,
        ..outside
    };
    monitor_through(rt, alloc, words, failing_there, &OpenGate)
}
