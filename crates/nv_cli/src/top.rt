// The top call.
ghost use Rattle.std.specs.Prelude.{◌≡◌, ◌≤◌, ◌++◌, [], List, ℕ, Some, codes, length, sum_by, map, option_map};
ghost use Rattle.nv_machine.specs.Guest.{Machine};
ghost use Rattle.nv_threads.specs.Threads.{threads};
ghost use Rattle.nv_replay.specs.Version.{standing_of, process_of};
ghost use Rattle.nv_replay.specs.Account.{AreFresh};
ghost use Rattle.nv_driver.specs.Account.{process_begun, run_status};
ghost use Rattle.nv_driver.specs.Words.{Runs, Uses, command_of, texts};
ghost use Rattle.nv_driver.specs.Seen.{limits_view, plan_view};
ghost use Rattle.nv_calls.specs.Logs.{output_of, connections_of};
ghost use Rattle.nv_report.specs.Report.{report_text};
ghost use Rattle.nv_report.specs.Json.{json_text};
ghost use Rattle.nv_arriving.specs.Scripted.{start_from};
ghost use Rattle.nv_sockets.specs.Texts.{connections_text};
ghost use Rattle.nv_outside.specs.Sink.{Puts};
ghost use Rattle.nv_driver.specs.Due.{Says, Answers, AnswersOver, Completes, Rejects};
ghost use Rattle.nv_cli.specs.Streams.{streams_of, left_of};
ghost use Rattle.nv_driver.specs.Ran.{Wrote, Tells};
ghost use Rattle.nv_driver.specs.inner.Ran.{RunSays};
ghost use Rattle.nv_driver.specs.Refusals.{IsPlanned};
ghost use Rattle.nv_gen.specs.Measures.{totals_in};
ghost use Rattle.nv_driver.specs.Generated.{IsGenerated};
ghost use Rattle.nv_driver.specs.inner.Summing.{SumsUp};
ghost use Rattle.nv_driver.specs.Outcome.{NotAccepted, totals_of, name_at, outcome_of, text_of, source_of};

use crate::beside::run;
use crate::nowhere::Nowhere;
use crate::recording::record;
use crate::serving::{Left, serve};
use nv_arriving::{ScriptedKernel, connections};
use nv_bpf::Filter;
use nv_calls::{Recorded, SyscallKernel};
use nv_driver::{
    Command, Ending, Limits, MEMORY, Prepared, Run, Task, answer_alone, count_exited, ended,
    generate, prepare, put_line, refuse, refuse_words, starved, status,
};
use nv_gen::Totals;
use nv_live::{ReadBeside, Streams};
use nv_outside::{Files, Put, Sink, put_pieces};
use nv_replay::{Account, Version};
use nv_sockets::put_connections;
use nv_workers::Gate;
use std::alloc::Global;
use std::sync::Wait;
use std::thread::Threads;

// Writes the JSON form of the report, and a newline.
fn put_json<K: SyscallKernel + Recorded, S: Sink>(
    alloc: Global,
    account: &Account<K>,
    sink: &mut S,
) -> u8
    ensures { Wrote (json_text (output_of (K.known account.now.kernel) (K.log account.now.kernel))
        (record { log = K.log account.now.kernel; lines = map standing_of account.now.versions.items }) ++ codes "\n")
        (run_status (map standing_of account.now.versions.items)) (S.told sink.old) (S.faults sink.old) result (S.told sink.new) (S.faults sink.new) }
{
    match nv_report::json(alloc, account) {
        Ok(text) => {
            let put = put_pieces(sink, &[&text, b"\n"]);
            ended(put, status(&account.versions))
        }
        Err(_) => put_line(sink, b"varan: memory\n", MEMORY),
    }
}

// Writes the report, and after it what was written to the connections.
fn put_whole<S: Sink>(account: &Account<ScriptedKernel>, sink: &mut S) -> Put
    ensures { Puts (S.told sink.old) (S.faults sink.old)
        (report_text (output_of (start_from account.now.kernel.setup) account.now.kernel.log)
        (record { log = account.now.kernel.log; lines = map standing_of account.now.versions.items })
        ++ connections_text (connections_of (start_from account.now.kernel.setup) account.now.kernel.log))
        result (S.told sink.new) (S.faults sink.new) }
{
    nv_report::write(sink, account)?;
    put_connections(sink, connections(&account.kernel))
}

// Writes the report and the connections, and ends with the status of the run.
fn put_report<S: Sink>(account: &Account<ScriptedKernel>, sink: &mut S) -> u8
    ensures { Says (report_text (output_of (start_from account.now.kernel.setup) account.now.kernel.log)
        (record { log = account.now.kernel.log; lines = map standing_of account.now.versions.items })
        ++ connections_text (connections_of (start_from account.now.kernel.setup) account.now.kernel.log))
        (run_status (map standing_of account.now.versions.items)) (S.told sink.old) (S.faults sink.old) result (S.told sink.new) (S.faults sink.new) }
{
    let put = put_whole(account, sink);
    ended(put, status(&account.versions))
}

// Runs the versions over the kernel and writes the report, or its JSON form.
fn run_versions<R: Threads + Wait + Sync, S: Sink, G: Gate + Sync>(
    rt: &R,
    alloc: Global,
    kernel: ScriptedKernel,
    rules: Option<&Filter>,
    versions: Vec<Version>,
    hands: &Vec<u32>,
    limits: Limits,
    json: bool,
    sink: &mut S,
    gate: &G,
) -> u8
    requires empty { kernel.log ≡ [] }
    requires fresh { AreFresh threads 0 versions.items }
    requires few { length versions.items ≤ 8 }
    requires planned { IsPlanned kernel.setup hands.now.items }
    ensures { (machines : List Machine) → map process_of versions.items ≡ map (process_begun (limits_view limits) kernel.setup) machines
        → RunSays (limits_view limits) json kernel.setup (option_map (λ f. f.now) rules.entry) machines (S.told sink.old) (S.faults sink.old) result (S.told sink.new) (S.faults sink.new) }
{
    let Ok(account) = run(rt, alloc, versions, rules, kernel, gate, limits, hands) else {
        return put_line(sink, b"varan: memory\n", MEMORY);
    };
    if json {
        put_json(alloc, &account, sink)
    } else {
        put_report(&account, sink)
    }
}

// Does a run, and says what it came to.
fn do_run<R: Threads + Wait + Sync, F: Files, S: Sink, G: Gate + Sync>(
    rt: &R,
    alloc: Global,
    files: &mut F,
    sink: &mut S,
    gate: &G,
    plan: &Run<'_>,
) -> u8
    ensures { (words : List (List ℕ)) → command_of words ≡ Some (Runs (plan_view plan.now))
        → Answers words (source_of F.holds F.faults F.taken files.old files.new)
        (S.told sink.old) (S.faults sink.old) result (S.told sink.new) (S.faults sink.new) }
{
    match prepare(alloc, files, plan) {
        Ok(
            Prepared {
                kernel,
                rules,
                versions,
                hands,
            },
        ) => run_versions(
            rt,
            alloc,
            kernel,
            rules.as_ref(),
            versions,
            &hands,
            plan.limits,
            plan.json,
            sink,
            gate,
        ),
        Err(refusal) => refuse(alloc, sink, refusal, plan),
    }
}

// The rewrites of all versions.
fn count_rewrites(versions: &[Version]) -> u64
    requires { length versions.now ≤ 8 }
    ensures { result ≡ sum_by (λ version. (standing_of version).rewrites) versions.now }
{
    let mut rewrites = 0;
    for version in versions {
        rewrites += version.rewrites();
    }
    rewrites
}

// What a run came to.
fn totals<K: SyscallKernel + Recorded>(account: &Account<K>) -> Totals
    requires { length account.now.versions.items ≤ 8 }
    ensures { totals_in result ≡ totals_of (output_of (K.known account.now.kernel) (K.log account.now.kernel)) (record { log = K.log account.now.kernel; lines = map standing_of account.now.versions.items }) }
{
    Totals {
        output: account.kernel.output().len() as u64,
        log: account.kernel.history().len() as u64,
        exited: count_exited(&account.versions) as u64,
        rewrites: count_rewrites(&account.versions),
    }
}

// Runs what a number has made, and sums it up.
fn sum_up<R: Threads + Wait + Sync, S: Sink, G: Gate + Sync>(
    rt: &R,
    alloc: Global,
    number: u32,
    made: Prepared,
    sink: &mut S,
    gate: &G,
) -> u8
    requires made { IsGenerated number made.kernel.log made.kernel.setup made.rules made.versions.items }
    requires planned { IsPlanned made.kernel.setup made.hands.items }
    ensures { SumsUp number (S.told sink.old) (S.faults sink.old) result (S.told sink.new) (S.faults sink.new) }
{
    let Prepared {
        kernel,
        rules,
        versions,
        hands,
    } = made;
    let limits = Limits::usual();
    let Ok(account) = run(
        rt,
        alloc,
        versions,
        rules.as_ref(),
        kernel,
        gate,
        limits,
        &hands,
    ) else {
        return put_line(sink, b"varan: memory\n", MEMORY);
    };
    if starved(&account.versions) {
        return put_line(sink, b"varan: memory\n", MEMORY);
    }
    match nv_gen::summary(alloc, number, &totals(&account)) {
        Ok(line) => put_line(sink, &line, 0),
        Err(_) => put_line(sink, b"varan: memory\n", MEMORY),
    }
}

// Makes the run of a number, and says what it came to.
fn do_generate<R: Threads + Wait + Sync, S: Sink, G: Gate + Sync>(
    rt: &R,
    alloc: Global,
    number: u32,
    sink: &mut S,
    gate: &G,
) -> u8
    requires number { number ≤ 999_999 }
    ensures { SumsUp number (S.told sink.old) (S.faults sink.old) result (S.told sink.new) (S.faults sink.new) }
{
    match generate(alloc, number) {
        Ok(made) => sum_up(rt, alloc, number, made, sink, gate),
        Err(_) => put_line(sink, b"varan: memory\n", MEMORY),
    }
}

// A status, and the streams, which nothing has touched.
fn left_alone<I, O, T>(status: u8, streams: Streams<I, O, T>) -> (u8, Left<I, O, T>)
    ensures { (result.0 ≡ status) × (result.1 ≡ (streams, Ending.Finished)) }
{
    (status, (streams, Ending::Finished))
}

/// Does what the words ask for, and says what it came to. Only a live run takes the streams.
pub(crate) fn answer<
    R: Threads + Wait + Sync,
    F: Files,
    S: Sink,
    G: Gate + Sync,
    I: ReadBeside<O, T> + Send,
    O: Sink + Drop + Send,
    T: Sink + Drop + Send,
>(
    rt: &R,
    alloc: Global,
    words: &[String],
    files: &mut F,
    sink: &mut S,
    gate: &G,
    streams: Streams<I, O, T>,
) -> (u8, Left<I, O, T>)
    ensures { AnswersOver (texts words.now) (source_of F.holds F.faults F.taken files.old files.new)
        (streams_of I.took I.faults I.moments O.told O.faults T.told T.faults streams)
        (S.told sink.old) (S.faults sink.old) result.0 (S.told sink.new) (S.faults sink.new)
        (left_of I.took I.faults I.moments O.told O.faults T.told T.faults result.1) }
{
    match nv_driver::read(alloc, words) {
        Ok(Command::Serve(service)) => serve(rt, alloc, files, sink, gate, &service, streams),
        Ok(Command::Run(plan)) => left_alone(do_run(rt, alloc, files, sink, gate, &plan), streams),
        Ok(Command::Record(plan)) => left_alone(
            record(rt, alloc, files, sink, gate, &plan),
            streams,
        ),
        Ok(Command::Use(job)) => left_alone(
            answer_alone(alloc, files, sink, Task::Use(job)),
            streams,
        ),
        Ok(Command::Generate(number)) => left_alone(
            do_generate(rt, alloc, number, sink, gate),
            streams,
        ),
        Ok(Command::Replay(trail)) => {
            left_alone(
                answer_alone(alloc, files, sink, Task::Replay(trail)),
                streams,
            )
        }
        Ok(Command::Inspect(look)) => {
            left_alone(
                answer_alone(alloc, files, sink, Task::Inspect(look)),
                streams,
            )
        }
        Ok(Command::Help(topic)) => left_alone(
            answer_alone(alloc, files, sink, Task::Help(topic)),
            streams,
        ),
        Err(fault) => left_alone(refuse_words(sink, fault), streams),
    }
}

/// The monitor over the streams of a live run: it takes what comes from them, and they are given back with how it ended. Where
/// memory was wanted nobody was served. No other command touches them.
pub fn varan_over<
    R: Threads + Wait + Sync,
    F: Files,
    S: Sink,
    G: Gate + Sync,
    I: ReadBeside<O, T> + Send,
    O: Sink + Drop + Send,
    T: Sink + Drop + Send,
>(
    rt: &R,
    alloc: Global,
    words: &Vec<String>,
    files: &mut F,
    sink: &mut S,
    gate: &G,
    streams: Streams<I, O, T>,
) -> (u8, Left<I, O, T>)
    // It comes to an outcome that the words and the files owe, and says it: its status and what it writes are that outcome's, and so is what a live run does over its streams.
    ensures answers { AnswersOver (texts words.now.items) (source_of F.holds F.faults F.taken files.old files.new)
        (streams_of I.took I.faults I.moments O.told O.faults T.told T.faults streams)
        (S.told sink.old) (S.faults sink.old) result.0 (S.told sink.new) (S.faults sink.new)
        (left_of I.took I.faults I.moments O.told O.faults T.told T.faults result.1) }

    // Files that are accepted and no fault: the command's work is done, or memory is wanted.
    ensures completes { Completes (texts words.now.items) (source_of F.holds F.faults F.taken files.old files.new)
        (S.faults sink.old) result.0 (S.faults sink.new) }

    // A file that is refused is named, unless a read failed before, the line can't be written or memory is wanted.
    ensures rejects { Rejects (texts words.now.items) (source_of F.holds F.faults F.taken files.old files.new) result.0 }
{
    answer(rt, alloc, words, files, sink, gate, streams)
}

/// The monitor: it reads the words of a command line, does what they ask for and answers the status of the process. A run
/// has its versions beside each other on threads of the host, so the call may wait for them. A live run finds its input at the end
/// at once, and what its versions say is gone: `varan_over` has its streams.
pub fn varan<R: Threads + Wait + Sync, F: Files, S: Sink, G: Gate + Sync>(
    rt: &R,
    alloc: Global,
    words: &Vec<String>,
    files: &mut F,
    sink: &mut S,
    gate: &G,
) -> u8
    // It comes to an outcome that the words and the files owe, and says it: its status and what it writes are that outcome's.
    ensures answers { Answers (texts words.now.items) (source_of F.holds F.faults F.taken files.old files.new)
        (S.told sink.old) (S.faults sink.old) result (S.told sink.new) (S.faults sink.new) }

    // Files that are accepted and no fault: the command's work is done, or memory is wanted.
    ensures completes { Completes (texts words.now.items) (source_of F.holds F.faults F.taken files.old files.new)
        (S.faults sink.old) result (S.faults sink.new) }

    // A file that is refused is named, unless a read failed before, the line can't be written or memory is wanted.
    ensures rejects { Rejects (texts words.now.items) (source_of F.holds F.faults F.taken files.old files.new) result }
{
    let streams = Streams {
        input: Nowhere,
        output: Nowhere,
        transcript: Nowhere,
    };
    let (status, _left) = varan_over(rt, alloc, words, files, sink, gate, streams);
    status
}
