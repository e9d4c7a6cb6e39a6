// The versions in order.
ghost use Rattle.std.specs.Prelude.{◌≡◌, ◌≤◌, ◌+◌, ◌++◌, [], ℕ, length, map, option_map};
ghost use Rattle.nv_calls.specs.Limits.{MOST_EVENTS};
ghost use Rattle.nv_calls.specs.Logs.{IsLawful, Start};
ghost use Rattle.nv_calls.specs.Learning.{FromAny};
ghost use Rattle.nv_threads.specs.Threads.{threads};
ghost use Rattle.nv_replay.specs.Follow.{judge_of, IsInStep};
ghost use Rattle.nv_replay.specs.Sequence.{cuts_of};
ghost use Rattle.nv_replay.specs.Monitor.{sequence, numbers};
ghost use Rattle.nv_replay.specs.Version.{standing_of, process_of};
ghost use Rattle.nv_replay.specs.Account.{AreFresh};
ghost use Rattle.nv_replay.specs.Covers.{AreEnded, Covers};
ghost use Rattle.nv_sequence.specs.inner.Rests.{AreRested, IsRested, AreInStep};
ghost use Rattle.nv_replay.specs.Survivors.{SurvivorsAgree};
ghost use Rattle.nv_sequence.specs.Passing.{Grows, followed};
ghost use Rattle.nv_sequence.specs.inner.Passing.{FirstMayHaveTurn, NextTurn};

use crate::{Turned, take_turn};
use arrayvec::ArrayVec;
use nv_bpf::Filter;
use nv_calls::{Recorded, SyscallKernel};
use nv_replay::{Account, Version, follow_all};

/// The whole monitor: the versions lead in order, the others follow the log, judged by the rules if there are any. A version that
/// ends leaves the order, one that has made the log as long as one of `hands` goes to its end; once the process has ended, or
/// nobody is left, each follows the rest of the log.
pub fn run<K: SyscallKernel + Recorded>(
    mut versions: Vec<Version>,
    rules: Option<&Filter>,
    mut kernel: K,
    most: u32,
    hands: &Vec<u32>,
) -> Account<K>
    requires fresh { AreFresh threads 0 versions.items }
    requires few { length versions.items ≤ 8 }
    requires most { most ≤ MOST_EVENTS }
    requires hands { length hands.now.items ≤ 8 }
    requires empty { K.log kernel ≡ [] }
    ensures account { record { log = K.log result.kernel; lines = map standing_of result.versions.items }
        ≡ sequence threads (judge_of (option_map (λ f. f.now) rules.entry)) (K.known result.kernel) most (cuts_of (map standing_of result.versions.items)) hands.now.items (map process_of versions.items) }
    ensures start { K.start result.kernel ≡ K.start kernel }
    ensures settled { AreEnded (map standing_of result.versions.items) }
    ensures covers { Covers (map standing_of result.versions.items) (K.log result.kernel) }
    ensures survivor { SurvivorsAgree threads (K.known result.kernel) most hands.now.items (map process_of versions.items) (map standing_of result.versions.items) (K.log result.kernel) }

    // where what a kernel was made over tells how it goes on, the account is from what this one was made over
    ensures foretold { (told : K.Beginning → Start) → ((k : K) → K.known k ≡ told (K.start k))
        → record { log = K.log result.kernel; lines = map standing_of result.versions.items }
        ≡ sequence threads (judge_of (option_map (λ f. f.now) rules.entry)) (told (K.start kernel)) most (cuts_of (map standing_of result.versions.items)) hands.now.items (map process_of versions.items) }
{
    run_all(&mut versions, rules, &mut kernel, most, hands.as_slice());
    Account { kernel, versions }
}

fn run_all<K: SyscallKernel + Recorded>(
    versions: &mut [Version],
    rules: Option<&Filter>,
    kernel: &mut K,
    most: u32,
    hands: &[u32],
)
    requires fresh { AreFresh threads 0 versions.old }
    requires few { length versions.old ≤ 8 }
    requires most { most ≤ MOST_EVENTS }
    requires hands { length hands.now ≤ 8 }
    requires empty { K.log kernel.old ≡ [] }
    ensures account { record { log = K.log kernel.new; lines = map standing_of versions.new }
        ≡ sequence threads (judge_of (option_map (λ f. f.now) rules.entry)) (K.known kernel.new) most (cuts_of (map standing_of versions.new)) hands.now (map process_of versions.old) }
    ensures start { K.start kernel.new ≡ K.start kernel.old }
    ensures settled { AreEnded (map standing_of versions.new) }
    ensures covers { Covers (map standing_of versions.new) (K.log kernel.new) }
    ensures survivor { SurvivorsAgree threads (K.known kernel.new) most hands.now (map process_of versions.old) (map standing_of versions.new) (K.log kernel.new) }
{
    let mut order = ArrayVec::new();
    fill(&mut order, versions, 0);
    let mut on = true;
    while on {
        on = one_turn(versions, &mut order, rules, kernel, most, hands);
    }
    follow_rest(versions, rules, kernel);
    let _log = kernel.history();
}

/// The numbers of these versions, from `number` on.
fn fill(order: &mut ArrayVec<u32, 8>, versions: &[Version], number: u32)
    requires few { length order.old.items + length versions.now ≤ 8 }
    requires number { number ≡ length order.old.items }
    ensures { order.new.items ≡ order.old.items ++ numbers number versions.now }
{
    if let Some((_version, others)) = versions.split_first() {
        order.push(number);
        fill(order, others, number + 1);
    }
}

/// The turn of the order's first; whether the others still have theirs.
fn one_turn<K: SyscallKernel + Recorded>(
    versions: &mut [Version],
    order: &mut ArrayVec<u32, 8>,
    rules: Option<&Filter>,
    kernel: &mut K,
    most: u32,
    hands: &[u32],
) -> bool
    requires ready { FirstMayHaveTurn threads (K.log kernel.old) versions.old order.old.items }
    requires lawful { IsLawful (K.log kernel.old) }
    requires most { most ≤ MOST_EVENTS }
    ensures turn { FromAny (K.log kernel.new) (λ start. NextTurn threads (judge_of (option_map (λ f. f.now) rules.entry)) start most hands.now versions.old versions.new order.old.items order.new.items
        (K.log kernel.old) (K.log kernel.new) result) }
    ensures grows { Grows (K.log kernel.old) (K.log kernel.new) }
    ensures lawful { IsLawful (K.log kernel.new) }
    ensures start { K.start kernel.new ≡ K.start kernel.old }
{
    if order.is_empty() {
        return false;
    }
    let first = order.remove(0);
    match take_turn(&mut versions[first as usize], rules, kernel, most, hands) {
        Turned::Left => true,
        Turned::Exited => false,
        Turned::GaveUp => {
            order.push(first);
            true
        }
    }
}

/// Each version follows the log to its end, or as far as it goes.
fn follow_rest<K: SyscallKernel + Recorded>(
    versions: &mut [Version],
    rules: Option<&Filter>,
    kernel: &K,
)
    requires rested { AreRested threads (K.log kernel.now) versions.old }
    ensures new { versions.new ≡ map (followed threads (judge_of (option_map (λ f. f.now) rules.entry)) (K.log kernel.now)) versions.old }
    ensures in_step { AreInStep threads (K.log kernel.now) versions.new }
{
    if let Some((version, others)) = versions.split_first_mut() {
        finish(version, rules, kernel);
        follow_rest(others, rules, kernel);
    }
}

/// Follows the log to its end, or as far as it goes.
fn finish<K: SyscallKernel + Recorded>(version: &mut Version, rules: Option<&Filter>, kernel: &K)
    requires rested { IsRested threads (K.log kernel.now) version.old }
    ensures new { version.new ≡ followed threads (judge_of (option_map (λ f. f.now) rules.entry)) (K.log kernel.now) version.old }
    ensures in_step { IsInStep threads (K.log kernel.now) version.new.at }
{
    if version.standing().fate.is_none() {
        follow_all(version, rules, kernel.history());
    }
}
