// What says that a file is refused.
ghost use Rattle.std.specs.Prelude.{◌≡◌};
ghost use Rattle.nv_driver.specs.Seen.{plan_view, service_view, trail_view};
ghost use Rattle.nv_driver.specs.Due.{Says};
ghost use Rattle.nv_driver.specs.Outcome.{NotRead, name_at, name_in, name_on, outcome_of, live_outcome_of, refused_text, text_of};
ghost use Rattle.nv_driver.specs.Ran.{Wrote, Tells};
ghost use Rattle.nv_driver.specs.inner.Trails.{refused_outcome};

use crate::asked::{Run, Service, Trail};
use crate::endings::{INPUT, MEMORY, READ_FAULT, ended, put_line};
use crate::refusal::{Cause, Place, Refusal};
use nv_outside::{Sink, put_pieces};
use std::alloc::Global;

fn name<'a>(place: Place, plan: &Run<'a>) -> &'a str
    ensures { result.now ≡ name_at place (plan_view plan.now) }
{
    match place {
        Place::Script => plan.script.name,
        Place::Rules => plan.rules.unwrap_or(""),
        Place::Trace => "",
        Place::Version(index) => plan.versions.get(index as usize).map_or("", |name| *name),
    }
}

fn name_on<'a>(place: Place, trail: &Trail<'a>) -> &'a str
    ensures { result.now ≡ name_on place (trail_view trail.now) }
{
    match place {
        Place::Script => trail.script.name,
        Place::Rules => trail.rules.unwrap_or(""),
        Place::Trace => trail.trace,
        Place::Version(_) => trail.version,
    }
}

fn name_in<'a>(place: Place, service: &Service<'a>) -> &'a str
    ensures { result.now ≡ name_in place (service_view service.now) }
{
    match place {
        Place::Script => service.script.unwrap_or(""),
        Place::Rules => service.rules.unwrap_or(""),
        Place::Trace => "",
        Place::Version(index) => service
            .versions
            .get(index as usize)
            .map_or("", |name| *name),
    }
}

/// Says which file can't be read.
pub(crate) fn put_unread<S: Sink>(sink: &mut S, name: &str) -> u8
    ensures { Says (text_of (NotRead name.now)) 5 (S.told sink.old) (S.faults sink.old) result (S.told sink.new) (S.faults sink.new) }
{
    let put = put_pieces(sink, &[b"varan: read ", name.as_bytes(), b"\n"]);
    ended(put, READ_FAULT)
}

/// Says which file is refused, and why.
pub(crate) fn put_input<S: Sink>(alloc: Global, sink: &mut S, name: &str, cause: Cause) -> u8
    ensures { Wrote (refused_text name.now cause) 4 (S.told sink.old) (S.faults sink.old) result (S.told sink.new) (S.faults sink.new) }
{
    // Each fault has its text in its own crate, as its `Display`: printed into memory first, so that no copy of the texts stands here.
    let Ok(why) = cause.to_string(alloc) else {
        return put_line(sink, b"varan: memory\n", MEMORY);
    };
    let put = put_pieces(
        sink,
        &[
            b"varan: input ",
            name.as_bytes(),
            b": ",
            why.as_bytes(),
            b"\n",
        ],
    );
    ended(put, INPUT)
}

/// Says why a run didn't start.
pub fn refuse<S: Sink>(alloc: Global, sink: &mut S, refusal: Refusal, plan: &Run<'_>) -> u8
    ensures { Tells (outcome_of refusal (plan_view plan.now)) (S.told sink.old) (S.faults sink.old) result (S.told sink.new) (S.faults sink.new) }
{
    match refusal {
        Refusal::Memory => put_line(sink, b"varan: memory\n", MEMORY),
        Refusal::Unreadable(place) => put_unread(sink, name(place, plan)),
        Refusal::Input(place, cause) => put_input(alloc, sink, name(place, plan), cause),
    }
}

/// Says why a live run didn't start.
pub fn refuse_live<S: Sink>(
    alloc: Global,
    sink: &mut S,
    refusal: Refusal,
    service: &Service<'_>,
) -> u8
    ensures { Tells (live_outcome_of refusal (service_view service.now)) (S.told sink.old) (S.faults sink.old) result (S.told sink.new) (S.faults sink.new) }
{
    match refusal {
        Refusal::Memory => put_line(sink, b"varan: memory\n", MEMORY),
        Refusal::Unreadable(place) => put_unread(sink, name_in(place, service)),
        Refusal::Input(place, cause) => put_input(alloc, sink, name_in(place, service), cause),
    }
}

/// Says why a version doesn't follow a trace.
pub(crate) fn refuse_trail<S: Sink>(
    alloc: Global,
    sink: &mut S,
    refusal: Refusal,
    trail: &Trail<'_>,
) -> u8
    ensures { Tells (refused_outcome refusal (trail_view trail.now)) (S.told sink.old) (S.faults sink.old) result (S.told sink.new) (S.faults sink.new) }
{
    match refusal {
        Refusal::Memory => put_line(sink, b"varan: memory\n", MEMORY),
        Refusal::Unreadable(place) => put_unread(sink, name_on(place, trail)),
        Refusal::Input(place, cause) => put_input(alloc, sink, name_on(place, trail), cause),
    }
}
