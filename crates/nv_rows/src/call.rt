// Calls of the monitor over objects in memory.
ghost use Rattle.std.specs.Prelude.{◌<◌};

use nv_cli::{Left, exit_status, varan, varan_over};
use nv_live::{MemorySource, Streams};
use nv_outside::{File, MemoryFiles, MemorySink};
use nv_workers::{Gate, OpenGate};
use std::alloc::{AllocError, Global};
use std::sync::Wait;
use std::thread::Threads;

// The bytes that the sink can hold.
const CAPACITY: usize = 1 << 22;

// Options that change no byte of a report, each with its name.
const TIMING: [(&str, &str); 3] = [
    ("--threads", "--threads=1"),
    ("--threads", "--threads=8"),
    ("--ring", "--ring=2"),
];

// The input of a live run, beside what it says and its transcript.
type Input = MemorySource<MemorySink, MemorySink>;

/// What a call finds outside: named files, the reads that fail, and a sink that takes `most` bytes a call and fails at these;
/// and for a live run what each read of its input gives, and the writes of its output and of its transcript that fail.
#[derive(Clone, Copy)]
pub struct Outside<'a> {
    pub files: &'a [(&'a str, &'a [u8])],
    pub failing_reads: &'a [u32],
    pub most: usize,
    pub failing_writes: &'a [u32],
    pub input: &'a [&'a [u8]],
    pub failing_says: &'a [u32],
    pub failing_notes: &'a [u32],
}

impl<'a> Outside<'a> {
    /// These files, of which each can be read, a sink that never fails, and nothing that comes.
    pub fn calm(files: &'a [(&'a str, &'a [u8])]) -> Outside<'a>
        ensures { 0 < result.most }
    {
        Outside {
            files,
            failing_reads: &[],
            most: 4096,
            failing_writes: &[],
            input: &[],
            failing_says: &[],
            failing_notes: &[],
        }
    }
}

/// The status of the process, the bytes that were written, and of a live run what it said and its transcript.
#[derive(Drop)]
pub struct Answered {
    pub status: u8,
    pub written: Vec<u8>,
    pub said: Vec<u8>,
    pub noted: Vec<u8>,
}

impl Answered {
    fn is(&self, other: &Answered) -> bool {
        self.status == other.status
            && self.written.as_slice() == other.written.as_slice()
            && self.said.as_slice() == other.said.as_slice()
            && self.noted.as_slice() == other.noted.as_slice()
    }
}

fn words_of(alloc: Global, words: &[&str]) -> Result<Vec<String>, AllocError> {
    let mut owned = Vec::new(alloc);
    for word in words {
        owned.push(String::from_str(alloc, word)?)?;
    }
    Ok(owned)
}

fn files_of(alloc: Global, files: &[(&str, &[u8])]) -> Result<Vec<File>, AllocError> {
    let mut owned = Vec::new(alloc);
    for (name, content) in files {
        owned.push(File {
            name: String::from_str(alloc, name)?,
            content: content.to_vec(alloc)?,
        })?;
    }
    Ok(owned)
}

fn reads_of(alloc: Global, reads: &[&[u8]]) -> Result<Input, AllocError> {
    let mut owned = Vec::new(alloc);
    for bytes in reads {
        owned.push(bytes.to_vec(alloc)?)?;
    }
    Ok(MemorySource::make(owned))
}

// The streams of a live run.
fn streams_of(
    alloc: Global,
    outside: Outside,
) -> Result<Streams<Input, MemorySink, MemorySink>, AllocError>
    requires { 0 < outside.most }
{
    let says = outside.failing_says.to_vec(alloc)?;
    let notes = outside.failing_notes.to_vec(alloc)?;
    Ok(Streams {
        input: reads_of(alloc, outside.input)?,
        output: MemorySink::make(alloc, CAPACITY, outside.most, says)?,
        transcript: MemorySink::make(alloc, CAPACITY, outside.most, notes)?,
    })
}

// What stands in the output and in the transcript of a live run.
fn told_by(
    alloc: Global,
    left: &Left<Input, MemorySink, MemorySink>,
) -> Result<(Vec<u8>, Vec<u8>), AllocError> {
    let (streams, _) = left;
    Ok((
        streams.output.written().to_vec(alloc)?,
        streams.transcript.written().to_vec(alloc)?,
    ))
}

/// Calls the monitor with these words, and with a gate that its versions pass.
pub fn monitor_through<R: Threads + Wait + Sync, G: Gate + Sync>(
    rt: &R,
    alloc: Global,
    words: &[&str],
    outside: Outside,
    gate: &G,
) -> Result<Answered, AllocError>
    requires { 0 < outside.most }
{
    let files = files_of(alloc, outside.files)?;
    let source = MemoryFiles::make(files, outside.failing_reads.to_vec(alloc)?);
    let owned = words_of(alloc, words)?;
    if is_command(words, "serve") {
        return serve_through(rt, alloc, &owned, source, outside, gate);
    }
    call_through(rt, alloc, &owned, source, outside, gate)
}

// A sink that fails as outside.
fn sink_of(alloc: Global, outside: Outside) -> Result<MemorySink, AllocError>
    requires { 0 < outside.most }
{
    let failing = outside.failing_writes.to_vec(alloc)?;
    MemorySink::make(alloc, CAPACITY, outside.most, failing)
}

// The call by the form that its specification gives.
fn call_through<R: Threads + Wait + Sync, G: Gate + Sync>(
    rt: &R,
    alloc: Global,
    words: &Vec<String>,
    mut source: MemoryFiles,
    outside: Outside,
    gate: &G,
) -> Result<Answered, AllocError>
    requires { 0 < outside.most }
{
    let mut sink = sink_of(alloc, outside)?;
    let status = varan(rt, alloc, words, &mut source, &mut sink, gate);
    Ok(Answered {
        status,
        written: sink.written().to_vec(alloc)?,
        said: Vec::new(alloc),
        noted: Vec::new(alloc),
    })
}

// A live run, which has streams beside that.
fn serve_through<R: Threads + Wait + Sync, G: Gate + Sync>(
    rt: &R,
    alloc: Global,
    words: &Vec<String>,
    mut source: MemoryFiles,
    outside: Outside,
    gate: &G,
) -> Result<Answered, AllocError>
    requires { 0 < outside.most }
{
    let mut sink = sink_of(alloc, outside)?;
    let streams = streams_of(alloc, outside)?;
    let (status, left) = varan_over(rt, alloc, words, &mut source, &mut sink, gate, streams);
    let written = sink.written().to_vec(alloc)?;
    let (said, noted) = told_by(alloc, &left)?;
    Ok(Answered {
        status: exit_status(status, &left),
        written,
        said,
        noted,
    })
}

fn names(words: &[&str], option: &str) -> bool {
    words.iter().any(|word| word.starts_with(option))
}

fn is_command(words: &[&str], name: &str) -> bool {
    match words.get(1) {
        Some(command) => *command == name,
        None => false,
    }
}

// Whether no byte of the answer may depend on the timing: of a run, of its trace, and of a live run.
fn is_run(words: &[&str]) -> bool {
    names(words, "run") || is_command(words, "record") || is_command(words, "serve")
}

// The words with one more after the command's name.
fn with_option<'a>(
    alloc: Global,
    words: &[&'a str],
    option: &'a str,
) -> Result<Vec<&'a str>, AllocError> {
    let mut longer = Vec::new(alloc);
    for (place, word) in words.iter().enumerate() {
        if place == 2 {
            longer.push(option)?;
        }
        longer.push(*word)?;
    }
    Ok(longer)
}

/// Calls the monitor with these words. A run, recorded or live or neither, is done again on one thread, on eight, and with a ring of two places,
/// unless its words say how many: an answer that isn't the first one's is given in its place, with the status 255.
pub fn monitor<R: Threads + Wait + Sync>(
    rt: &R,
    alloc: Global,
    words: &[&str],
    outside: Outside,
) -> Result<Answered, AllocError>
    requires { 0 < outside.most }
{
    let answered = monitor_through(rt, alloc, words, outside, &OpenGate)?;
    if !is_run(words) {
        return Ok(answered);
    }
    for (name, option) in TIMING {
        if !names(words, name) {
            let longer = with_option(alloc, words, option)?;
            let again = monitor_through(rt, alloc, &longer, outside, &OpenGate)?;
            if !again.is(&answered) {
                return Ok(Answered {
                    status: 255,
                    ..again
                });
            }
        }
    }
    Ok(answered)
}
