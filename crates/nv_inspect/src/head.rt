// Where the version stands.
ghost use Rattle.std.specs.Prelude.{◌≡◌};
ghost use Rattle.nv_outside.specs.Sink.{Puts};
ghost use Rattle.nv_inspect.specs.Shown.{standing_text, place_text, heading_text};

use itoa::Buffer;
use nv_outside::{Put, Sink, put_all, put_pieces};
use nv_replay::Fate;
use nv_report::put_fate;

fn put_place<S: Sink>(sink: &mut S, seen: u32, count: u64) -> Put
    ensures { Puts (S.told sink.old) (S.faults sink.old) (place_text seen count) result (S.told sink.new) (S.faults sink.new) }
{
    let mut first = Buffer::new();
    let mut second = Buffer::new();
    put_pieces(
        sink,
        &[
            b"at seen ",
            first.format(seen).as_bytes(),
            b" count ",
            second.format(count).as_bytes(),
            b" ",
        ],
    )
}

/// How the version ended, or that it is in step.
pub fn put_end<S: Sink>(sink: &mut S, fate: Option<Fate>) -> Put
    ensures { Puts (S.told sink.old) (S.faults sink.old) (standing_text fate) result (S.told sink.new) (S.faults sink.new) }
{
    match fate {
        Some(fate) => put_fate(sink, fate),
        None => put_all(sink, b"in step"),
    }
}

/// The events seen, the instructions run, and the end.
pub fn put_head<S: Sink>(sink: &mut S, seen: u32, count: u64, fate: Option<Fate>) -> Put
    ensures { Puts (S.told sink.old) (S.faults sink.old) (heading_text seen count fate) result (S.told sink.new) (S.faults sink.new) }
{
    put_place(sink, seen, count)?;
    put_end(sink, fate)?;
    put_all(sink, b"\n")
}
