// What rules say of a follower's call, and the replies that they permit.
ghost use Rattle.std.specs.Prelude.{◌≡◌, ◌≤◌, true, option_map};
ghost use Rattle.nv_calls.specs.Calls.{request, entry};
ghost use Rattle.nv_calls.specs.Constants.{constant_of};
ghost use Rattle.nv_calls.specs.Limits.{MOST_BYTES};
ghost use Rattle.nv_threads.specs.Threads.{threads};
ghost use Rattle.nv_replay.specs.Follow.{judge_of};
ghost use Rattle.nv_replay.specs.Permits.{HasGiven};

use nv_bpf::Filter;
use nv_calls::{Bytes, Call, Event};
use nv_kernel::constant;
use nv_rules::{pair_of, value};
use nv_threads::Eager;

/// The value of the rules on a follower's call and the event that it met, for the version with this number; 0 without rules.
pub fn judge(rules: Option<&Filter>, call: &Call, event: &Event, index: u32) -> u32
    ensures { result ≡ judge_of (option_map (λ f. f.now) rules.entry) index (request call.now) (entry event.now) }
{
    match rules {
        Some(filter) => value(filter, &pair_of(call, event, index)),
        None => 0,
    }
}

/// Answers the thread's call, where its reply is the same in every state of the kernel; whether it is.
#[tactic(auto, using(nv_threads::proofs::ThreadLaws::threads_here, crate::proofs::Stepping::constant_new))]
pub fn give_constant(process: &mut Eager, tid: u32, scratch: &mut Bytes) -> bool
    requires pending { threads.pending process.old.process tid ≡ true }
    requires capacity { MOST_BYTES ≤ scratch.old.capacity }
    ensures given { HasGiven threads (constant_of (threads.call process.old.process tid)) tid process.old.process process.new.process result }
    ensures eager { process.new.eager ≡ process.old.eager }
    ensures capacity { scratch.new.capacity ≡ scratch.old.capacity }
{
    match constant(process.pending(tid), scratch) {
        Some(ret) => {
            process.give(tid, ret, scratch.as_slice());
            true
        }
        None => false,
    }
}
