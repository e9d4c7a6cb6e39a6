// A run that is recorded.
ghost use Rattle.std.specs.Prelude.{◌≡◌, ◌≤◌, [], List, ℕ, Some, length, map, option_map};
ghost use Rattle.nv_driver.specs.Seen.{limits_view, plan_view};
ghost use Rattle.nv_driver.specs.Words.{Records, command_of};
ghost use Rattle.nv_machine.specs.Guest.{Machine};
ghost use Rattle.nv_replay.specs.Account.{AreFresh};
ghost use Rattle.nv_replay.specs.Version.{standing_of, process_of};
ghost use Rattle.nv_threads.specs.Threads.{threads};
ghost use Rattle.nv_trace.specs.Trace.{trace_of};
ghost use Rattle.nv_driver.specs.Account.{process_begun, run_status};
ghost use Rattle.nv_driver.specs.Due.{Answers, Says};
ghost use Rattle.nv_driver.specs.Outcome.{source_of};
ghost use Rattle.nv_driver.specs.inner.Ran.{RecordSays};
ghost use Rattle.nv_driver.specs.Refusals.{IsPlanned};

use crate::beside::run;
use nv_arriving::ScriptedKernel;
use nv_bpf::Filter;
use nv_calls::{Recorded, SyscallKernel};
use nv_driver::{Limits, MEMORY, Prepared, Run, ended, prepare, put_line, refuse, starved, status};
use nv_outside::{Files, Sink};
use nv_replay::{Account, Version};
use nv_workers::Gate;
use std::alloc::Global;
use std::sync::Wait;
use std::thread::Threads;

// Writes the trace of the log, and ends with the status of the run.
fn put_trace<K: SyscallKernel + Recorded, S: Sink>(account: &Account<K>, sink: &mut S) -> u8
    requires short { length (K.log account.now.kernel) ≤ 131072 }
    ensures { Says (trace_of (K.log account.now.kernel)) (run_status (map standing_of account.now.versions.items))
        (S.told sink.old) (S.faults sink.old) result (S.told sink.new) (S.faults sink.new) }
{
    let put = nv_trace::write(sink, account.kernel.history());
    ended(put, status(&account.versions))
}

// Runs the versions over the kernel and writes the trace, where no version wanted memory.
fn record_versions<R: Threads + Wait + Sync, S: Sink, G: Gate + Sync>(
    rt: &R,
    alloc: Global,
    kernel: ScriptedKernel,
    rules: Option<&Filter>,
    versions: Vec<Version>,
    hands: &Vec<u32>,
    limits: Limits,
    sink: &mut S,
    gate: &G,
) -> u8
    requires empty { kernel.log ≡ [] }
    requires fresh { AreFresh threads 0 versions.items }
    requires few { length versions.items ≤ 8 }
    requires short { limits.calls ≤ 131072 }
    requires planned { IsPlanned kernel.setup hands.now.items }
    ensures { (machines : List Machine) → map process_of versions.items ≡ map (process_begun (limits_view limits) kernel.setup) machines
        → RecordSays (limits_view limits) kernel.setup (option_map (λ f. f.now) rules.entry) machines (S.told sink.old) (S.faults sink.old) result (S.told sink.new) (S.faults sink.new) }
{
    let Ok(account) = run(rt, alloc, versions, rules, kernel, gate, limits, hands) else {
        return put_line(sink, b"varan: memory\n", MEMORY);
    };
    if starved(&account.versions) {
        return put_line(sink, b"varan: memory\n", MEMORY);
    }
    put_trace(&account, sink)
}

/// Does a run, and writes its log as a trace.
pub fn record<R: Threads + Wait + Sync, F: Files, S: Sink, G: Gate + Sync>(
    rt: &R,
    alloc: Global,
    files: &mut F,
    sink: &mut S,
    gate: &G,
    plan: &Run<'_>,
) -> u8
    ensures { (words : List (List ℕ)) → command_of words ≡ Some (Records (plan_view plan.now))
        → Answers words (source_of F.holds F.faults F.taken files.old files.new)
        (S.told sink.old) (S.faults sink.old) result (S.told sink.new) (S.faults sink.new) }
{
    match prepare(alloc, files, plan) {
        Ok(
            Prepared {
                kernel,
                rules,
                versions,
                hands,
            },
        ) => record_versions(
            rt,
            alloc,
            kernel,
            rules.as_ref(),
            versions,
            &hands,
            plan.limits,
            sink,
            gate,
        ),
        Err(refusal) => refuse(alloc, sink, refusal, plan),
    }
}
