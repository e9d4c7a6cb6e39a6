// The program: the top call over the words of the process, and what it writes.
ghost use Rattle.std.specs.Prelude.{◌≡◌, ◌≢◌};
ghost use Rattle.nv_outside.specs.Gathering.{sink_of, held_of};
ghost use Rattle.nv_driver.specs.Outcome.{source_of, ending_status};
ghost use Rattle.nv_driver.specs.Due.{Says};
ghost use Rattle.nv_cli.specs.Program.{ProcessEnds};
ghost use Rattle.nv_cli.specs.Streams.{streams_of, left_of};

use crate::serving::Left;
use crate::top::answer;
use nv_driver::{Ending, LineFault, WRITE_FAULT, ended, ending_status, refuse_words};
use nv_live::{ReadBeside, Streams};
use nv_outside::{Files, Gathering, Sink};
use nv_workers::Gate;
use std::alloc::Global;
use std::sync::Wait;
use std::thread::Threads;

// Writes what is still held back, and answers the status to end with. Once a write has failed nothing more is written.
fn finish<S: Sink>(sink: Gathering<S>, status: u8) -> (S, u8)
    ensures failed { status ≡ 6 → (result.0 ≡ sink_of sink) × (result.1 ≡ 6) }
    ensures others { status ≢ 6 → Says (held_of sink) status (S.told (sink_of sink)) (S.faults (sink_of sink))
        result.1 (S.told result.0) (S.faults result.0) }
{
    if status == WRITE_FAULT {
        return (sink.give_up(), status);
    }
    let (sink, put) = sink.finish();
    (sink, ended(put, status))
}

/// The status of the process: that of a stream that failed, or else that of what was said.
pub fn exit_status<I, O, T>(status: u8, left: &Left<I, O, T>) -> u8
    ensures { result ≡ ending_status left.now.1 status }
{
    ending_status(left.1, status)
}

/// The monitor as a program, over the words of the process, or over why there are none: they aren't text, or memory was
/// wanted for them. What it writes is gathered, and written at the latest before it returns. It gives the sink back, the
/// status that the process ends with, and what `varan_over` gives back of the streams.
pub fn program<
    R: Threads + Wait + Sync,
    F: Files,
    S: Sink,
    G: Gate + Sync,
    I: ReadBeside<O, T> + Send,
    O: Sink + Drop + Send,
    T: Sink + Drop + Send,
>(
    rt: &R,
    alloc: Global,
    words: Result<Vec<String>, LineFault>,
    files: &mut F,
    sink: S,
    gate: &G,
    streams: Streams<I, O, T>,
) -> (S, u8, Left<I, O, T>)
    // It comes to an outcome that the words and the files owe, and that stands on the sink at the end; or the write that failed was its last. So does what a live run does over its streams. What `varan`
    // says of files that are accepted or refused, it says of the status of what is said; the process ends with that, or with the status of a stream that failed.
    ensures { ProcessEnds words (source_of F.holds F.faults F.taken files.old files.new)
        (streams_of I.took I.faults I.moments O.told O.faults T.told T.faults streams)
        (S.told sink) (S.faults sink) result.1 (S.told result.0) (S.faults result.0)
        (left_of I.took I.faults I.moments O.told O.faults T.told T.faults result.2) }
{
    // A report is put in some twenty small pieces an event: the sink gets them gathered.
    let mut sink = Gathering::make(sink);
    let words = match words {
        Ok(words) => words,
        Err(fault) => {
            let status = refuse_words(&mut sink, fault);
            let (sink, status) = finish(sink, status);
            return (sink, status, (streams, Ending::Finished));
        }
    };
    let (status, left) = answer(rt, alloc, &words, files, &mut sink, gate, streams);
    let (sink, status) = finish(sink, status);
    let code = exit_status(status, &left);
    (sink, code, left)
}
