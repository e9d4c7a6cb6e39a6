// A version leads a kernel.
ghost use Rattle.std.specs.Prelude.{◌≡◌, ◌≤◌, ◌<◌, ◌++◌, [], ◌∷◌, Some, None, true, false, length, Contains, option_map};
ghost use Rattle.nv_calls.specs.Logs.{served, live_after, IsLawful};
ghost use Rattle.nv_calls.specs.Limits.{MOST_EVENTS};
ghost use Rattle.nv_calls.specs.Learning.{FromAny};
ghost use Rattle.nv_threads.specs.Threads.{threads};
ghost use Rattle.nv_replay.specs.Follow.{IsInStep, follow, judge_of};
ghost use Rattle.nv_calls.specs.Hands.{has};
ghost use Rattle.nv_replay.specs.Hands.{stays};
ghost use Rattle.nv_replay.specs.Sequence.{is_going};
ghost use Rattle.nv_replay.specs.Version.{IsLiveLeader, became_event};
ghost use Rattle.nv_replay.specs.Turns.{TookTurn};
ghost use Rattle.nv_sequence.specs.Passing.{Grows, HasLed, TurnDone, MayHaveTurn, followed, given_up, turned_of};

use nv_bpf::Filter;
use nv_calls::{Recorded, SyscallKernel};
use nv_replay::{Fate, Led, Version, follow_all};

/// What has become of a version at its turn.
#[derive(Clone, Copy, Debug, PartialEq, Eq, Drop)]
pub enum Turned {
    /// It has ended, otherwise than by an exit.
    Left,
    /// It has given up the lead, and goes on.
    GaveUp,
    /// As the leader it has exited.
    Exited,
}

/// Follows the log so far, and where it goes on, leads from there.
pub fn take_turn<K: SyscallKernel + Recorded>(
    version: &mut Version,
    rules: Option<&Filter>,
    kernel: &mut K,
    most: u32,
    hands: &[u32],
) -> Turned
    requires idle { MayHaveTurn threads (K.log kernel.old) version.old }
    requires most { most ≤ MOST_EVENTS }
    ensures turn { let judges = judge_of (option_map (λ f. f.now) rules.entry) in
        FromAny (K.log kernel.new) (λ start. TurnDone threads start most hands.now (followed threads judges (K.log kernel.old) version.old) version.new
        (K.log kernel.old) (K.log kernel.new) result (follow threads (judges version.old.index) (K.log kernel.old) version.old.at).fate) }
    ensures grows { Grows (K.log kernel.old) (K.log kernel.new) }
    ensures lawful { IsLawful (K.log kernel.new) }
    ensures start { K.start kernel.new ≡ K.start kernel.old }
{
    follow_all(version, rules, kernel.history());
    if version.standing().fate.is_some() {
        return Turned::Left;
    }
    version.begin_lead();
    lead_all(version, kernel, most, hands);
    end_turn(version)
}

/// Gives up the lead, unless the version has ended.
fn end_turn(version: &mut Version) -> Turned
    requires leading { version.old.leading ≡ true }
    requires asked { version.old.at.fate ≡ None → version.old.asked ≡ None }
    ensures new { version.new ≡ given_up version.old }
    ensures turned { result ≡ turned_of version.old.at.fate }
{
    match version.standing().fate {
        None => {
            version.end_lead();
            Turned::GaveUp
        }
        Some(Fate::Exited(_)) => Turned::Exited,
        Some(_) => Turned::Left,
    }
}

/// Leads until the version ends, or until it has made the log as long as one of `hands`.
pub fn lead_all<K: SyscallKernel + Recorded>(
    version: &mut Version,
    kernel: &mut K,
    most: u32,
    hands: &[u32],
)
    requires leading { IsLiveLeader version.old }
    requires seen { version.old.at.seen ≡ length (K.log kernel.old) }
    requires in_step { IsInStep threads (K.log kernel.old) version.old.at }
    requires most { most ≤ MOST_EVENTS }
    ensures led { FromAny (K.log kernel.new) (λ start. HasLed threads start most hands.now version.old version.new (K.log kernel.old) (K.log kernel.new)) }
    ensures grows { Grows (K.log kernel.old) (K.log kernel.new) }
    ensures lawful { IsLawful (K.log kernel.new) }
    ensures start { K.start kernel.new ≡ K.start kernel.old }
{
    let _log = kernel.history();
    let mut on = true;
    while on {
        on = next_call(version, kernel, most, hands);
    }
}

/// One call is served and logged, or the version ends; whether it leads on.
fn next_call<K: SyscallKernel + Recorded>(
    version: &mut Version,
    kernel: &mut K,
    most: u32,
    hands: &[u32],
) -> bool
    requires leading { IsLiveLeader version.old }
    requires seen { version.old.at.seen ≡ length (K.log kernel.old) }
    requires in_step { IsInStep threads (K.log kernel.old) version.old.at }
    requires lawful { IsLawful (K.log kernel.old) }
    requires most { most ≤ MOST_EVENTS }
    ensures turn { FromAny (K.log kernel.new) (λ start. TookTurn threads start most version.old version.new (K.log kernel.old) (K.log kernel.new)) }
    ensures grows { Grows (K.log kernel.old) (K.log kernel.new) }
    ensures lawful { IsLawful (K.log kernel.new) }
    ensures start { K.start kernel.new ≡ K.start kernel.old }
    ensures on { result ≡ stays (is_going version.new.at.fate) hands.now version.new.at.seen }
{
    one_call(version, kernel, most) && !is_planned(hands, version.standing().seen)
}

fn is_planned(hands: &[u32], length: u32) -> bool
    ensures { result ≡ has hands.now length }
{
    hands.contains(&length)
}

/// One call is served and logged, or the version ends; whether it goes on.
fn one_call<K: SyscallKernel + Recorded>(version: &mut Version, kernel: &mut K, most: u32) -> bool
    requires leading { IsLiveLeader version.old }
    requires seen { version.old.at.seen ≡ length (K.log kernel.old) }
    requires in_step { IsInStep threads (K.log kernel.old) version.old.at }
    requires lawful { IsLawful (K.log kernel.old) }
    requires most { most ≤ MOST_EVENTS }
    ensures turn { FromAny (K.log kernel.new) (λ start. TookTurn threads start most version.old version.new (K.log kernel.old) (K.log kernel.new)) }
    ensures grows { Grows (K.log kernel.old) (K.log kernel.new) }
    ensures lawful { IsLawful (K.log kernel.new) }
    ensures start { K.start kernel.new ≡ K.start kernel.old }
    ensures on { result ≡ is_going version.new.at.fate }
{
    match version.lead(most) {
        Led::Dropped(_) => false,
        Led::Asked(tid) => {
            if kernel.reserve(version.pending(tid)).is_err() {
                version.refuse_memory();
                return false;
            }
            serve_call(version, kernel, tid);
            version.standing().fate.is_none()
        }
    }
}

/// The call that the version asked is served, logged and answered.
fn serve_call<K: SyscallKernel + Recorded>(version: &mut Version, kernel: &mut K, tid: u32)
    requires asked { version.old.asked ≡ Some tid }
    requires pending { threads.pending version.old.at.process tid ≡ true }
    requires lives { Contains (threads.live version.old.at.process) tid }
    requires live { threads.live version.old.at.process ≡ live_after (K.log kernel.old) }
    requires seen { version.old.at.seen ≡ length (K.log kernel.old) }
    requires few { length (K.log kernel.old) < MOST_EVENTS }
    requires ready { K.is_ready kernel.old (threads.call version.old.at.process tid) }
    ensures log { K.log kernel.new ≡ K.log kernel.old ++ served (K.known kernel.old) (K.log kernel.old) (threads.call version.old.at.process tid) ∷ [] }
    ensures start { K.start kernel.new ≡ K.start kernel.old }
    ensures lawful { IsLawful (K.log kernel.new) }
    ensures version { version.new ≡ became_event threads (served (K.known kernel.old) (K.log kernel.old) (threads.call version.old.at.process tid)) version.old }
{
    kernel.serve(version.pending(tid));
    let at = version.standing().seen as usize;
    version.answered(&kernel.history()[at]);
}
