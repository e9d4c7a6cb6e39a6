// A version at a point of a trace, and what it shows there.
ghost use Rattle.std.specs.Prelude.{◌≡◌, ◌≤◌, false, IsTrue, List, ℕ, Some, take, option_map};
ghost use Rattle.nv_driver.specs.Words.{Inspects, command_of};
ghost use Rattle.nv_driver.specs.Seen.{look_view, point_view};
ghost use Rattle.nv_inspect.specs.Shown.{show_text, IsDump};
ghost use Rattle.nv_replay.specs.Follow.{follow, fresh, judge_of};
ghost use Rattle.nv_replay.specs.Version.{IsFresh};
ghost use Rattle.nv_inspect.specs.Points.{events_to, budget_to, renews_to};
ghost use Rattle.nv_script.specs.Scripts.{is_script};
ghost use Rattle.nv_script.specs.Views.{setup_of};
ghost use Rattle.nv_arriving.specs.Scripted.{start_from};
ghost use Rattle.nv_threads.specs.Threads.{threads};
ghost use Rattle.nv_trace.specs.Checks.{AreSoundEvents};
ghost use Rattle.nv_driver.specs.Due.{Answers, files_after};
ghost use Rattle.nv_driver.specs.Outcome.{source_of};
ghost use Rattle.nv_driver.specs.Ran.{Wrote};
ghost use Rattle.nv_driver.specs.Tracing.{trace_point};

use crate::asked::{Look, Point};
use crate::endings::{MEMORY, ended, put_line};
use crate::refusing::refuse_trail;
use crate::trails::{TracedVersion, trace_version};
use nv_calls::SyscallKernel;
use nv_inspect::{TracePoint, bring, kernel_after, show};
use nv_outside::{Files, Sink};
use std::alloc::Global;

fn point(look: &Look<'_>) -> TracePoint
    ensures { result ≡ trace_point (point_view look.now.point) }
{
    match look.point {
        Point::Stamp(stamp) => TracePoint::Stamp(stamp),
        Point::Call(number) => TracePoint::Call(number),
        Point::Count(count) => TracePoint::Count(count),
    }
}

// The instructions that the version has: a count is a point of its own, above the budget too.
fn budget(look: &Look<'_>) -> u32
    ensures is { result ≡ budget_to (trace_point (point_view look.now.point)) look.now.trail.budget }
    ensures few { result ≤ 1_000_000_000 }
{
    match look.point {
        Point::Count(count) => count,
        _ => look.trail.budget,
    }
}

// Whether their count begins anew at each answer.
fn renews(look: &Look<'_>) -> bool
    ensures { result ≡ renews_to (trace_point (point_view look.now.point)) look.now.trail.renews }
{
    match look.point {
        Point::Count(_) => false,
        _ => look.trail.renews,
    }
}

// Shows the version at the point, and the files after the events that it has seen.
// It borrows what it shows: parts that are moved out are dropped at each return, and the proof of that took four minutes.
fn show_at<S: Sink>(
    alloc: Global,
    sink: &mut S,
    traced: &mut TracedVersion,
    point: TracePoint,
    dump: Option<(u32, u32)>,
) -> u8
    requires fresh { IsFresh threads traced.old.version.index traced.old.version }
    requires settled { traced.old.version.eager ≡ false }
    requires script { IsTrue (is_script (setup_of traced.old.script)) }
    requires sound { AreSoundEvents (start_from (setup_of traced.old.script)) traced.old.kernel.log }
    requires dump { IsDump dump }
    ensures { let at = follow threads (judge_of traced.old.rules traced.old.version.index) (events_to point traced.old.kernel.log) (fresh traced.old.version.at.process) in
        Wrote (show_text at (files_after (setup_of traced.old.script) (take at.seen traced.old.kernel.log)) dump) 0
        (S.told sink.old) (S.faults sink.old) result (S.told sink.new) (S.faults sink.new) }
{
    let TracedVersion {
        script,
        rules,
        kernel,
        version,
    } = traced;
    bring(version, rules.as_ref(), kernel, point);
    let seen = version.standing().seen as usize;
    let Ok(earlier) = kernel_after(alloc, script, kernel, seen) else {
        return put_line(sink, b"varan: memory\n", MEMORY);
    };
    let put = show(sink, version, nv_arriving::files(&earlier), dump);
    ended(put, 0)
}

/// Shows a version at a point of a trace.
pub fn inspect<F: Files, S: Sink>(alloc: Global, files: &mut F, sink: &mut S, look: &Look<'_>) -> u8
    ensures { (words : List (List ℕ)) → command_of words ≡ Some (Inspects (look_view look.now))
        → Answers words (source_of F.holds F.faults F.taken files.old files.new)
        (S.told sink.old) (S.faults sink.old) result (S.told sink.new) (S.faults sink.new) }
{
    match trace_version(alloc, files, &look.trail, budget(look), renews(look)) {
        Ok(mut traced) => show_at(alloc, sink, &mut traced, point(look), look.dump),
        Err(refusal) => refuse_trail(alloc, sink, refusal, &look.trail),
    }
}
