// A version over a whole log.
ghost use Rattle.std.specs.Prelude.{◌≡◌, false, None, length, map, option_map, IfSome, IfNone};
ghost use Rattle.nv_calls.specs.Calls.{entry};
ghost use Rattle.nv_calls.specs.Logs.{IsLawful};
ghost use Rattle.nv_threads.specs.Threads.{threads};
ghost use Rattle.nv_replay.specs.Follow.{follow, judge_of, IsInStep, IsNext, HasRested};

use crate::Version;
use nv_bpf::Filter;
use nv_calls::Event;

/// Follows the log to its end, or as far as the version goes.
pub fn follow_all(version: &mut Version, rules: Option<&Filter>, log: &[Event])
    requires lawful { IsLawful (map entry log.now) }
    requires in_step { IsInStep threads (map entry log.now) version.old.at }
    requires following { version.old.leading ≡ false }
    ensures new { let judge = judge_of (option_map (λ f. f.now) rules.entry) version.old.index in
        version.new ≡ record version.old { at = follow threads judge (map entry log.now) version.old.at } }
    ensures in_step { IsInStep threads (map entry log.now) version.new.at }
    ensures done { version.new.at.fate ≡ None → version.new.at.seen ≡ length (map entry log.now) }
{
    while let Some(event) = next_event(version, log) {
        let _told = version.follow(rules, event);
    }
}

/// The event that the version has to follow next.
fn next_event<'a>(version: &Version, log: &'a [Event]) -> Option<&'a Event>
    ensures next { IfSome result (λ e. IsNext (map entry log.now) version.now.at (entry e.now)) }
    ensures rests { IfNone result (HasRested (map entry log.now) version.now.at) }
{
    let standing = version.standing();
    if standing.fate.is_some() {
        return None;
    }
    log.get(standing.seen as usize)
}
