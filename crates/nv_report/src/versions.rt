// How each version ended.
ghost use Rattle.std.specs.Prelude.{◌≡◌, ◌+◌, ◌<◌, ◌^◌, ◌++◌, length, map};
ghost use Rattle.std.specs.List.{flat_map};
ghost use Rattle.nv_outside.specs.Sink.{Puts};
ghost use Rattle.nv_replay.specs.Version.{standing_of};
ghost use Rattle.nv_report.specs.Versions.{kind_text, fault_text, refusal_text, fate_text, end_text, seen_text, span_text, next_span_text, led_text, rewrites_text, prefix_text, rest_text, line_text, lines_text};

use crate::numbers::put_hex;
use itoa::Buffer;
use nv_outside::{Put, Sink, put_all, put_pieces};
use nv_replay::{Fate, Standing, Version};
use nv_threads::FaultKind;

// Each version on a line, with the numbers from `first` on.
pub fn put_lines<S: Sink>(sink: &mut S, first: usize, versions: &[Version]) -> Put
    requires { first + length versions.now < 2 ^ 64 }
    ensures { Puts (S.told sink.old) (S.faults sink.old) (lines_text first (map standing_of versions.now)) result (S.told sink.new) (S.faults sink.new) }
{
    match versions.split_first() {
        None => Ok(()),
        Some((version, others)) => {
            put_line(sink, first, version.standing())?;
            put_lines(sink, first + 1, others)
        }
    }
}

fn put_line<S: Sink>(sink: &mut S, index: usize, standing: &Standing) -> Put
    ensures { Puts (S.told sink.old) (S.faults sink.old) (line_text index standing.now) result (S.told sink.new) (S.faults sink.new) }
{
    put_prefix(sink, index, standing.fate)?;
    put_rest(sink, standing)
}

// The number and the end.
fn put_prefix<S: Sink>(sink: &mut S, index: usize, fate: Option<Fate>) -> Put
    ensures { Puts (S.told sink.old) (S.faults sink.old) (prefix_text index fate) result (S.told sink.new) (S.faults sink.new) }
{
    let mut buffer = Buffer::new();
    put_pieces(sink, &[buffer.format(index).as_bytes(), b" "])?;
    put_fate_of(sink, fate)
}

fn put_fate_of<S: Sink>(sink: &mut S, fate: Option<Fate>) -> Put
    ensures { Puts (S.told sink.old) (S.faults sink.old) (end_text fate) result (S.told sink.new) (S.faults sink.new) }
{
    match fate {
        Some(fate) => put_fate(sink, fate),
        None => Ok(()),
    }
}

/// Writes how a version ended.
pub fn put_fate<S: Sink>(sink: &mut S, fate: Fate) -> Put
    ensures { Puts (S.told sink.old) (S.faults sink.old) (fate_text fate) result (S.told sink.new) (S.faults sink.new) }
{
    match fate {
        Fate::Exited(code) => {
            let mut buffer = Buffer::new();
            put_pieces(sink, &[b"exited ", buffer.format(code).as_bytes()])
        }
        Fate::Fault { kind, tid, pc } => put_fault(sink, kind, tid, pc),
        Fate::Refused {
            tid,
            nr,
            stamp,
            verdict,
        } => put_refused(sink, tid, nr, stamp, verdict),
        Fate::Memory => put_all(sink, b"memory"),
        Fate::LetGo => put_all(sink, b"left"),
    }
}

fn put_fault<S: Sink>(sink: &mut S, kind: FaultKind, tid: u32, pc: u32) -> Put
    ensures { Puts (S.told sink.old) (S.faults sink.old) (fate_text (Fate.Fault kind tid pc)) result (S.told sink.new) (S.faults sink.new) }
{
    put_fault_name(sink, kind, tid)?;
    put_hex(sink, &pc.to_be_bytes())
}

fn put_fault_name<S: Sink>(sink: &mut S, kind: FaultKind, tid: u32) -> Put
    ensures { Puts (S.told sink.old) (S.faults sink.old) (fault_text kind tid) result (S.told sink.new) (S.faults sink.new) }
{
    let mut buffer = Buffer::new();
    put_pieces(
        sink,
        &[
            b"fault ",
            name_of(kind).as_bytes(),
            b" ",
            buffer.format(tid).as_bytes(),
            b" ",
        ],
    )
}

pub fn name_of(kind: FaultKind) -> &'static str
    ensures { result.now ≡ kind_text kind }
{
    match kind {
        FaultKind::Illegal => "illegal",
        FaultKind::Misaligned => "misaligned",
        FaultKind::Fetch => "fetch",
        FaultKind::Load => "load",
        FaultKind::Store => "store",
        FaultKind::Breakpoint => "breakpoint",
        FaultKind::Budget => "budget",
        FaultKind::Deadlock => "deadlock",
        FaultKind::Calls => "calls",
    }
}

fn put_refused<S: Sink>(sink: &mut S, tid: u32, nr: u32, stamp: u32, verdict: u32) -> Put
    ensures { Puts (S.told sink.old) (S.faults sink.old) (fate_text (Fate.Refused tid nr stamp verdict)) result (S.told sink.new) (S.faults sink.new) }
{
    put_refused_call(sink, tid, nr, stamp)?;
    put_hex(sink, &verdict.to_be_bytes())
}

fn put_refused_call<S: Sink>(sink: &mut S, tid: u32, nr: u32, stamp: u32) -> Put
    ensures { Puts (S.told sink.old) (S.faults sink.old) (refusal_text tid nr stamp) result (S.told sink.new) (S.faults sink.new) }
{
    let mut first = Buffer::new();
    let mut second = Buffer::new();
    let mut third = Buffer::new();
    put_pieces(
        sink,
        &[
            b"refused ",
            first.format(tid).as_bytes(),
            b" ",
            second.format(nr).as_bytes(),
            b" ",
            third.format(stamp).as_bytes(),
            b" ",
        ],
    )
}

// What it has seen and led, and its rewrites.
fn put_rest<S: Sink>(sink: &mut S, standing: &Standing) -> Put
    ensures { Puts (S.told sink.old) (S.faults sink.old) (rest_text standing.now) result (S.told sink.new) (S.faults sink.new) }
{
    put_seen(sink, standing.seen)?;
    put_led(sink, standing.led.as_slice())?;
    put_rewrites(sink, standing.rewrites)
}

fn put_seen<S: Sink>(sink: &mut S, seen: u32) -> Put
    ensures { Puts (S.told sink.old) (S.faults sink.old) (seen_text seen) result (S.told sink.new) (S.faults sink.new) }
{
    let mut buffer = Buffer::new();
    put_pieces(sink, &[b" seen ", buffer.format(seen).as_bytes(), b" led "])
}

// The parts of the log that it led, with commas between them.
fn put_led<S: Sink>(sink: &mut S, spans: &[(u32, u32)]) -> Put
    ensures { Puts (S.told sink.old) (S.faults sink.old) (led_text spans.now) result (S.told sink.new) (S.faults sink.new) }
{
    match spans.split_first() {
        None => put_all(sink, b"-"),
        Some((first, others)) => {
            put_span(sink, first.0, first.1)?;
            put_more_spans(sink, others)
        }
    }
}

fn put_more_spans<S: Sink>(sink: &mut S, spans: &[(u32, u32)]) -> Put
    ensures { Puts (S.told sink.old) (S.faults sink.old) (flat_map next_span_text spans.now) result (S.told sink.new) (S.faults sink.new) }
{
    for span in spans {
        put_next_span(sink, span.0, span.1)?;
    }
    Ok(())
}

fn put_next_span<S: Sink>(sink: &mut S, from: u32, to: u32) -> Put
    ensures { Puts (S.told sink.old) (S.faults sink.old) (next_span_text (from, to)) result (S.told sink.new) (S.faults sink.new) }
{
    put_all(sink, b",")?;
    put_span(sink, from, to)
}

fn put_span<S: Sink>(sink: &mut S, from: u32, to: u32) -> Put
    ensures { Puts (S.told sink.old) (S.faults sink.old) (span_text (from, to)) result (S.told sink.new) (S.faults sink.new) }
{
    let mut first = Buffer::new();
    let mut second = Buffer::new();
    put_pieces(
        sink,
        &[
            first.format(from).as_bytes(),
            b"-",
            second.format(to).as_bytes(),
        ],
    )
}

fn put_rewrites<S: Sink>(sink: &mut S, rewrites: u64) -> Put
    ensures { Puts (S.told sink.old) (S.faults sink.old) (rewrites_text rewrites) result (S.told sink.new) (S.faults sink.new) }
{
    let mut buffer = Buffer::new();
    put_pieces(
        sink,
        &[b" rewrites ", buffer.format(rewrites).as_bytes(), b"\n"],
    )
}
