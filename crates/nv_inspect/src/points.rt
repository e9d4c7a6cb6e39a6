// A version at a point of a log.
ghost use Rattle.std.specs.Prelude.{◌≡◌, ◌≤◌, length, map, take, option_map};
ghost use Rattle.nv_calls.specs.Calls.{entry};
ghost use Rattle.nv_threads.specs.Threads.{threads};
ghost use Rattle.nv_replay.specs.Follow.{follow, fresh, judge_of};
ghost use Rattle.nv_replay.specs.Version.{IsFresh};
ghost use Rattle.nv_inspect.specs.Points.{place_of, events_to};

use nv_bpf::Filter;
use nv_calls::{Event, Recorded, SyscallKernel};
use nv_replay::{Version, follow_all};

/// A point of a log for a version that follows it.
#[derive(Clone, Copy, Debug, PartialEq, Eq)]
pub enum TracePoint {
    /// Before the event with this place, or after the last.
    Stamp(u32),
    /// Before the first event of this number, or after the last.
    Call(u32),
    /// After so many instructions of the version.
    Count(u32),
}

// The place of the first event of a number; the length where there is none.
fn place_of(nr: u32, log: &[Event]) -> usize
    ensures is { result ≡ place_of nr (map entry log.now) }
    ensures inside { result ≤ length log.now }
{
    for (place, event) in log.iter().enumerate() {
        if event.call.nr == nr {
            return place;
        }
    }
    log.len()
}

// The events that are followed to the point.
fn events_to(point: TracePoint, log: &[Event]) -> &[Event]
    ensures { map entry result.now ≡ events_to point (map entry log.now) }
{
    match point {
        TracePoint::Stamp(stamp) => first(log, stamp as usize),
        TracePoint::Call(nr) => first(log, place_of(nr, log)),
        TracePoint::Count(_) => log,
    }
}

// At most so many events.
fn first(log: &[Event], most: usize) -> &[Event]
    ensures { map entry result.now ≡ take most (map entry log.now) }
{
    &log[..most.min(log.len())]
}

/// Brings a version that was just made along the log of a kernel to the point, or as far as it goes.
pub fn bring<K: SyscallKernel + Recorded>(
    version: &mut Version,
    rules: Option<&Filter>,
    kernel: &K,
    point: TracePoint,
)
    requires { IsFresh threads version.old.index version.old }
    ensures at { let judge = judge_of (option_map (λ f. f.now) rules.entry) version.old.index in
        version.new.at ≡ follow threads judge (events_to point (K.log kernel.now)) (fresh version.old.at.process) }
    ensures inside { version.new.at.seen ≤ length (K.log kernel.now) }
    ensures index { version.new.index ≡ version.old.index }
    ensures eager { version.new.eager ≡ version.old.eager }
{
    follow_all(version, rules, events_to(point, kernel.history()));
}
