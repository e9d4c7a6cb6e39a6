// What is heard from outside.
ghost use Rattle.std.specs.Prelude.{◌≡◌, ◌≤◌, ◌+◌, [], true, false, not, IfOk, OnOk, length, map, drop};
ghost use Rattle.nv_script.specs.Doings.{Takes};
ghost use Rattle.nv_script.specs.ArrivalViews.{view as arrival_of};
ghost use Rattle.nv_calls.specs.Calls.{request};
ghost use Rattle.nv_calls.specs.Numbers.{syscall_of};
ghost use Rattle.nv_arriving.specs.Arrivals.{ends, any_ends, in_vain, until};
ghost use Rattle.nv_arriving.specs.Arriving.{wait_of};
ghost use Rattle.nv_arriving.specs.Timing.{until_of};
ghost use Rattle.nv_arriving.specs.Views.{standing_of};
ghost use Rattle.nv_arriving.specs.Kernel.{after, intake_of, Grew};
ghost use Rattle.nv_arriving.specs.Telling.{Adds};

use crate::guests::GuestSide;
use crate::timing::Until;
use crate::waiting::{Intake, Want};
use nv_calls::{Call, Past, Syscall};
use nv_script::{Arrival, Outside};
use std::alloc::{AllocError, Global};

// Those that the guests' side doesn't have.
pub(crate) fn rest(came: &Past<Arrival>, used: usize) -> &[Arrival]
    requires there { came.now.gone ≤ used }
    requires inside { used ≤ length came.now.items }
    ensures is { result.now ≡ drop used came.now.items }
    ensures counted { length came.now.items ≤ 18446744073709551615 }
{
    let _all = came.len();
    &came.kept()[used - came.gone()..]
}

/// Asks for arrivals until one ends the wait, and tells whether nothing more comes. More than can be counted are want of memory.
pub(crate) fn hear<O: Outside>(
    outside: &mut O,
    alloc: Global,
    came: &mut Past<Arrival>,
    side: &GuestSide,
    syscall: Syscall,
    call: &Call,
    want: Want,
) -> Result<bool, AllocError>
    requires { syscall ≡ syscall_of call.now.nr }
    ensures grew { Grew (map arrival_of came.old.items) (map arrival_of came.new.items) }
    ensures did { Adds O.did outside.old outside.new (map Takes (after (map arrival_of came.old.items) (map arrival_of came.new.items))) }
    ensures ended { IfOk result (λ over. any_ends (ends (standing_of side.now) (request call.now) want) (after (map arrival_of came.old.items) (map arrival_of came.new.items)) ≡ not over) }
    ensures over { IfOk result (λ over. over ≡ true → O.is_over outside.new) }
    ensures gone { came.new.gone ≡ came.old.gone }
    ensures until { until (ends (standing_of side.now) (request call.now) want) (after (map arrival_of came.old.items) (map arrival_of came.new.items)) ≡ length (after (map arrival_of came.old.items) (map arrival_of came.new.items)) }
{
    for _ in 0..u64::MAX {
        came.reserve(1)?;
        let Some(arrival) = outside.next(alloc)? else {
            return Ok(true);
        };
        let last = side.ends(syscall, call, want, &arrival);
        came.push(arrival);
        if last {
            return Ok(false);
        }
    }
    Err(AllocError)
}

// Up to when a call waits that is about to, where it waits up to a time.
fn tell_deadline<O: Outside>(outside: &mut O, want: Want)
    ensures { Adds O.did outside.old outside.new [] }
{
    match want {
        Want::Time(seconds, nanos) | Want::Ready(Until::At(seconds, nanos)) => {
            outside.waits_to(seconds, nanos)
        }
        Want::Ready(Until::Never) | Want::Ready(Until::Bad) => {}
        Want::Input | Want::Client(_) | Want::Data(_) => {}
    }
}

/// Asks for what a call waits for, unless that has come or nothing more comes, and tells what the call takes in.
pub(crate) fn learn<O: Outside>(
    outside: &mut O,
    alloc: Global,
    came: &mut Past<Arrival>,
    used: usize,
    over: &mut bool,
    side: &GuestSide,
    syscall: Syscall,
    call: &Call,
    until: Until,
) -> Result<Intake, AllocError>
    requires syscall { syscall ≡ syscall_of call.now.nr }
    requires until { until ≡ until_of (standing_of side.now) (request call.now) }
    requires there { came.old.gone ≤ used }
    requires inside { used ≤ length came.old.items }
    ensures grew { Grew (map arrival_of came.old.items) (map arrival_of came.new.items) }
    ensures did { Adds O.did outside.old outside.new (map Takes (after (map arrival_of came.old.items) (map arrival_of came.new.items))) }
    ensures gone { came.new.gone ≡ came.old.gone }
    ensures over { over.new ≡ false → over.old ≡ false }
    ensures ended { (over.old ≡ true → O.is_over outside.old) → over.new ≡ true → O.is_over outside.new }
    ensures same { over.old ≡ true → came.new.items ≡ came.old.items }
    ensures asks { in_vain (wait_of (standing_of side.now) (request call.now)) (drop used (map arrival_of came.old.items)) ≡ false → outside.new ≡ outside.old }
    ensures intake { IfOk result (λ found. found ≡ intake_of (record { here = standing_of side.now; rest = drop used (map arrival_of came.new.items) }) (request call.now)) }
    ensures inside { IfOk result (λ found. used + found.count ≤ length came.new.items) }
    ensures waits { OnOk result (over.new ≡ false → in_vain (wait_of (standing_of side.now) (request call.now)) (drop used (map arrival_of came.new.items)) ≡ false) }
{
    let Some(want) = side.wants(syscall, call, until) else {
        return Ok(Intake::nothing(syscall, until));
    };
    let found = side.intake(syscall, call, until, want, rest(came, used));
    if *over || !found.vain {
        return Ok(found);
    }
    tell_deadline(outside, want);
    *over = hear(outside, alloc, came, side, syscall, call, want)?;
    Ok(Intake {
        syscall,
        until,
        count: came.len() - used,
        vain: *over,
    })
}
