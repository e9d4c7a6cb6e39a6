// A version that follows a whole trace, and the line that tells of it.
ghost use Rattle.std.specs.Prelude.{◌≡◌, List, ℕ, Some, option_map};
ghost use Rattle.nv_driver.specs.Words.{Replays, command_of};
ghost use Rattle.nv_driver.specs.Seen.{trail_view};
ghost use Rattle.nv_outside.specs.Sink.{Puts};
ghost use Rattle.nv_replay.specs.Follow.{follow, fresh, judge_of};
ghost use Rattle.nv_replay.specs.Version.{IsFresh};
ghost use Rattle.nv_threads.specs.Threads.{threads};
ghost use Rattle.nv_driver.specs.Due.{Answers, Says};
ghost use Rattle.nv_driver.specs.Outcome.{source_of};
ghost use Rattle.nv_driver.specs.Replayed.{counts_text, replay_text, replay_status};

use crate::asked::Trail;
use crate::endings::ended;
use crate::refusing::refuse_trail;
use crate::trails::{TracedVersion, trace_version};
use itoa::Buffer;
use nv_inspect::{TracePoint, bring, put_end};
use nv_outside::{Files, Put, Sink, put_all, put_pieces};
use nv_replay::{Fate, Standing, Version};
use std::alloc::Global;

fn put_counts<S: Sink>(sink: &mut S, seen: u32, rewrites: u64) -> Put
    ensures { Puts (S.told sink.old) (S.faults sink.old) (counts_text seen rewrites) result (S.told sink.new) (S.faults sink.new) }
{
    let mut first = Buffer::new();
    let mut second = Buffer::new();
    put_pieces(
        sink,
        &[
            b" seen ",
            first.format(seen).as_bytes(),
            b" rewrites ",
            second.format(rewrites).as_bytes(),
            b"\n",
        ],
    )
}

// The line of a version that has followed a trace.
fn put_followed<S: Sink>(sink: &mut S, version: &Version) -> Put
    ensures { Puts (S.told sink.old) (S.faults sink.old) (replay_text version.now.at) result (S.told sink.new) (S.faults sink.new) }
{
    let told = version.standing();
    put_all(sink, b"replay ")?;
    put_end(sink, told.fate)?;
    put_counts(sink, told.seen, told.rewrites)
}

fn status(fate: Option<Fate>) -> u8
    ensures { result ≡ replay_status fate }
{
    match fate {
        None | Some(Fate::Exited(_)) => 0,
        Some(_) => 1,
    }
}

fn put_replay<S: Sink>(sink: &mut S, version: &Version) -> u8
    ensures { Says (replay_text version.now.at) (replay_status version.now.at.fate) (S.told sink.old) (S.faults sink.old) result (S.told sink.new) (S.faults sink.new) }
{
    let put = put_followed(sink, version);
    ended(put, status(version.standing().fate))
}

// The version after the whole trace: a count of instructions leaves no event out.
fn follow_whole(traced: TracedVersion, budget: u32) -> Version
    requires { IsFresh threads traced.version.index traced.version }
    ensures { let judge = judge_of traced.rules traced.version.index in
        result.at ≡ follow threads judge traced.kernel.log (fresh traced.version.at.process) }
{
    let TracedVersion {
        rules,
        kernel,
        mut version,
        ..
    } = traced;
    bring(
        &mut version,
        rules.as_ref(),
        &kernel,
        TracePoint::Count(budget),
    );
    version
}

/// Has a version follow a trace, and tells in a line how it ended.
pub fn replay<F: Files, S: Sink>(
    alloc: Global,
    files: &mut F,
    sink: &mut S,
    trail: &Trail<'_>,
) -> u8
    ensures { (words : List (List ℕ)) → command_of words ≡ Some (Replays (trail_view trail.now))
        → Answers words (source_of F.holds F.faults F.taken files.old files.new)
        (S.told sink.old) (S.faults sink.old) result (S.told sink.new) (S.faults sink.new) }
{
    match trace_version(alloc, files, trail, trail.budget, trail.renews) {
        Ok(traced) => {
            let version = follow_whole(traced, trail.budget);
            put_replay(sink, &version)
        }
        Err(refusal) => refuse_trail(alloc, sink, refusal, trail),
    }
}
