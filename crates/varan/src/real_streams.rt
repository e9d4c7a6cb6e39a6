// Standard input, output and error of a live run. They tell no bytes, and hold no borrow, so that they may move to another thread.
ghost use Rattle.std.specs.Prelude.{None};

use itoa::Buffer;
use nv_live::{Read as Got, ReadBeside, Source, Streams};
use nv_outside::{CalmSink, Put, Sink, Wrote, put_pieces};
use std::alloc::Global;
use std::io::{Read, Stderr, Stdin, Stdout, Write};

// The most bytes of a comment that says up to when standard input is waited for.
const LONGEST_WAIT: usize = 32;

/// Standard input. Up to when it is waited for is told on standard error, as a comment of the transcript, to whoever writes the time into it.
#[derive(Drop)]
pub struct RealInput {
    alloc: Global,
    stdin: Stdin,
    stderr: Stderr,
    faults: u64,
}

/// Standard output, each write of which is one of the system's.
#[derive(Drop)]
pub struct RealOutput {
    stdout: Stdout,
    faults: u64,
}

/// Standard error, each write of which is one of the system's.
#[derive(Drop)]
pub struct RealError {
    stderr: Stderr,
    faults: u64,
}

/// The three of them.
pub fn streams(rt: &HostRuntime) -> Streams<RealInput, RealOutput, RealError> {
    Streams {
        input: RealInput {
            alloc: rt.alloc(),
            stdin: rt.stdin(),
            stderr: rt.stderr(),
            faults: 0,
        },
        output: RealOutput {
            stdout: rt.stdout(),
            faults: 0,
        },
        transcript: RealError {
            stderr: rt.stderr(),
            faults: 0,
        },
    }
}

fn put_wait<S: Sink>(sink: &mut S, seconds: u32, nanos: u32) -> Put {
    let mut first = Buffer::new();
    let mut second = Buffer::new();
    put_pieces(
        sink,
        &[
            b"# wait ",
            first.format(seconds).as_bytes(),
            b" ",
            second.format(nanos).as_bytes(),
            b"\n",
        ],
    )
}

fn wait_line(alloc: Global, seconds: u32, nanos: u32) -> Option<CalmSink> {
    let mut line = CalmSink::make(alloc, LONGEST_WAIT).ok()?;
    put_wait(&mut line, seconds, nanos).ok()?;
    Some(line)
}

impl Source for RealInput {
    ghost took = { λ _. None };

    ghost faults = { λ s. s.faults };

    ghost moments = { λ _. None };

    /// A comment that can't be made or written is left out: the run goes on without it.
    fn waits_to(&mut self, seconds: u32, nanos: u32) {
        if let Some(line) = wait_line(self.alloc, seconds, nanos) {
            let _wrote = self.stderr.write_all(line.written());
        }
    }
}

impl<O: Sink, T: Sink> ReadBeside<O, T> for RealInput {
    fn read(&mut self, room: &mut [u8], _said: &O, _noted: &T) -> Got {
        match self.stdin.read(room) {
            Ok(count) => Got::Count(count),
            Err(_) => {
                self.faults = self.faults.saturating_add(1);
                Got::Failed
            }
        }
    }
}

impl Sink for RealOutput {
    ghost told = { λ _. None };

    ghost faults = { λ s. s.faults };

    fn write(&mut self, piece: &[u8]) -> Wrote {
        match self.stdout.write(piece) {
            Ok(count) if count > 0 || piece.is_empty() => Wrote::Count(count),
            _ => {
                self.faults = self.faults.saturating_add(1);
                Wrote::Failed
            }
        }
    }
}

impl Sink for RealError {
    ghost told = { λ _. None };

    ghost faults = { λ s. s.faults };

    fn write(&mut self, piece: &[u8]) -> Wrote {
        match self.stderr.write(piece) {
            Ok(count) if count > 0 || piece.is_empty() => Wrote::Count(count),
            _ => {
                self.faults = self.faults.saturating_add(1);
                Wrote::Failed
            }
        }
    }
}
