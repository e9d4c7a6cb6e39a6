// A live run.
ghost use Rattle.std.specs.Prelude.{◌≡◌, List, ℕ, Some, IsTrue, IfOk, IfErr};
ghost use Rattle.nv_driver.specs.Seen.{service_view};
ghost use Rattle.nv_driver.specs.Words.{Serves, command_of};
ghost use Rattle.nv_script.specs.Scripts.{is_script};
ghost use Rattle.nv_script.specs.Views.{setup_of};
ghost use Rattle.nv_driver.specs.Due.{AnswersOver, Says};
ghost use Rattle.nv_cli.specs.Streams.{streams_of, left_of};
ghost use Rattle.nv_driver.specs.Outcome.{NoMemory, source_of, text_of};
ghost use Rattle.nv_cli.specs.inner.Serving.{IsBegunOver, IsUnused, HasLeft};

use crate::beside::run_on_demand;
use nv_arriving::{ArrivingKernel, arriving, into_outside};
use nv_driver::{
    Ending, LivePrepared, MEMORY, Service, how_ended, prepare_live, put_line, refuse_live, status,
};
use nv_live::{LiveRun, ReadBeside, Streams};
use nv_outside::{Files, Sink};
use nv_replay::Account;
use nv_script::Script;
use nv_workers::Gate;
use std::alloc::Global;
use std::sync::Wait;
use std::thread::Threads;

/// The streams of a live run as it left them, and how it ended.
pub type Left<I, O, T> = (Streams<I, O, T>, Ending);

// A kernel over what comes by these streams, of which the transcript gets its head. Where memory is wanted they come back.
fn kernel_over<I: ReadBeside<O, T> + Send, O: Sink + Drop + Send, T: Sink + Drop + Send>(
    alloc: Global,
    script: &Script,
    clients: bool,
    head: &[u8],
    streams: Streams<I, O, T>,
) -> Result<ArrivingKernel<LiveRun<I, O, T>>, Streams<I, O, T>>
    requires script { IsTrue (is_script (setup_of script.now)) }
    ensures begun { IfOk result (λ k. IsBegunOver I.took I.faults I.moments O.told O.faults T.told T.faults clients (setup_of script.now) head.now streams k) }
    ensures unused { IfErr result (IsUnused I.took I.faults I.moments O.told O.faults T.told T.faults head.now streams) }
{
    let live = match LiveRun::begin(alloc, clients, streams, head, &script.hands) {
        Ok(live) => live,
        Err(streams) => return Err(streams),
    };
    match arriving(alloc, script, live) {
        Ok(kernel) => Ok(kernel),
        Err(live) => Err(live.finish()),
    }
}

// Says that memory was wanted, of a run that served nobody over these streams.
fn starve<S: Sink, I, O, T>(sink: &mut S, streams: Streams<I, O, T>) -> (u8, Left<I, O, T>)
    ensures says { Says (text_of NoMemory) 3 (S.told sink.old) (S.faults sink.old) result.0 (S.told sink.new) (S.faults sink.new) }
    ensures same { result.1 ≡ (streams, Ending.Finished) }
{
    let status = put_line(sink, b"varan: memory\n", MEMORY);
    (status, (streams, Ending::Finished))
}

// What a run has left of its streams; what no call took is shown in the transcript.
fn left_by<I: ReadBeside<O, T>, O: Sink + Drop, T: Sink + Drop>(
    mut live: LiveRun<I, O, T>,
) -> (Streams<I, O, T>, Ending)
    ensures { HasLeft T.told T.faults live result.0 result.1 }
{
    live.show_held();
    let ending = how_ended(live.stopped(), live.said(), live.told());
    (live.finish(), ending)
}

/// Runs the versions of a service over what comes by these streams.
pub fn serve<
    R: Threads + Wait + Sync,
    F: Files,
    S: Sink,
    G: Gate + Sync,
    I: ReadBeside<O, T> + Send,
    O: Sink + Drop + Send,
    T: Sink + Drop + Send,
>(
    rt: &R,
    alloc: Global,
    files: &mut F,
    sink: &mut S,
    gate: &G,
    service: &Service<'_>,
    streams: Streams<I, O, T>,
) -> (u8, Left<I, O, T>)
    ensures { (words : List (List ℕ)) → command_of words ≡ Some (Serves (service_view service.now))
        → AnswersOver words (source_of F.holds F.faults F.taken files.old files.new)
        (streams_of I.took I.faults I.moments O.told O.faults T.told T.faults streams)
        (S.told sink.old) (S.faults sink.old) result.0 (S.told sink.new) (S.faults sink.new)
        (left_of I.took I.faults I.moments O.told O.faults T.told T.faults result.1) }
{
    let LivePrepared {
        head,
        script,
        rules,
        versions,
    } = match prepare_live(alloc, files, service) {
        Ok(prepared) => prepared,
        Err(refusal) => {
            let status = refuse_live(alloc, sink, refusal, service);
            return (status, (streams, Ending::Finished));
        }
    };
    let kernel = match kernel_over(alloc, &script, service.clients, &head, streams) {
        Ok(kernel) => kernel,
        Err(streams) => return starve(sink, streams),
    };
    let ran = run_on_demand(
        rt,
        alloc,
        versions,
        rules.as_ref(),
        kernel,
        gate,
        service.limits,
        &script.hands,
        service.clients,
    );
    match ran {
        Ok(account) => {
            let Account { kernel, versions } = account;
            let left = left_by(into_outside(kernel));
            (status(&versions), left)
        }
        Err(kernel) => starve(sink, into_outside(kernel).finish()),
    }
}
