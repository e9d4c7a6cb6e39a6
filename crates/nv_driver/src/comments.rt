// The operator's comments on a live run, as lines of its transcript.
ghost use Rattle.std.specs.Prelude.{◌≡◌, ◌∷◌, [], IfSome, codes};
ghost use Rattle.std.specs.Fmt.{decimal};
ghost use Rattle.std.specs.List.{concat};
ghost use Rattle.nv_calls.specs.Calls.{entry};
ghost use Rattle.nv_script.specs.Texts.{cause_word};
ghost use Rattle.nv_script.specs.Entry.{cause_of};
ghost use Rattle.nv_outside.specs.Sink.{Puts};
ghost use Rattle.nv_outside.specs.MemorySink.{written_of};
ghost use Rattle.nv_driver.specs.Comments.{Ended, LetGo, Leads, Rewrites, Made, Served, comment_text, comment_view, count_text, ending_text, input_text, version_text};

use crate::ending::Ending;
use itoa::Buffer;
use nv_calls::Event;
use nv_outside::{MemorySink, Put, Sink, put_all, put_pieces};
use nv_replay::Fate;
use nv_report::{put_event, put_fate};
use nv_script::ArrivalCause;
use std::alloc::Global;

// The most bytes of a comment: an event's has two digits for each byte that it hands in or out.
const LONGEST: usize = 1 << 15;

/// What an operator is told of a live run by one line.
#[derive(Clone, Copy)]
pub enum Comment<'a> {
    /// A version ended, after this many events.
    Ended {
        version: u32,
        fate: Fate,
        seen: u32,
    },
    /// A follower is let go, this many events behind the leader.
    LetGo {
        version: u32,
        behind: u64,
    },
    /// A version leads from the event with this stamp on.
    Leads {
        version: u32,
        stamp: u32,
    },
    /// A rule decided for a follower, this often by now, and at this event.
    Rewrites {
        version: u32,
        rewrites: u64,
        event: &'a Event,
    },
    /// So many calls are made, of the most that a run makes.
    Made {
        calls: u32,
        most: u32,
    },
    /// An event was served.
    Served {
        event: &'a Event,
    },
    /// The run ended; a line where a stream failed that isn't the transcript.
    Stopped {
        ending: Ending,
    },
}

fn put_version_ended<S: Sink>(sink: &mut S, version: u32) -> Put
    ensures { Puts (S.told sink.old) (S.faults sink.old) (version_text version (codes " ended: ")) result (S.told sink.new) (S.faults sink.new) }
{
    let mut buffer = Buffer::new();
    put_pieces(
        sink,
        &[
            b"# version ",
            buffer.format(version).as_bytes(),
            b" ended: ",
        ],
    )
}

fn put_count<S: Sink>(sink: &mut S, count: u32) -> Put
    ensures { Puts (S.told sink.old) (S.faults sink.old) (count_text count) result (S.told sink.new) (S.faults sink.new) }
{
    let mut buffer = Buffer::new();
    put_pieces(
        sink,
        &[b", after ", buffer.format(count).as_bytes(), b" events\n"],
    )
}

fn put_ended<S: Sink>(sink: &mut S, version: u32, fate: Fate, seen: u32) -> Put
    ensures { Puts (S.told sink.old) (S.faults sink.old) (comment_text (Ended version fate seen)) result (S.told sink.new) (S.faults sink.new) }
{
    put_version_ended(sink, version)?;
    put_fate(sink, fate)?;
    put_count(sink, seen)
}

fn put_let_go<S: Sink>(sink: &mut S, version: u32, behind: u64) -> Put
    ensures { Puts (S.told sink.old) (S.faults sink.old) (comment_text (LetGo version behind)) result (S.told sink.new) (S.faults sink.new) }
{
    let mut number = Buffer::new();
    let mut events = Buffer::new();
    put_pieces(
        sink,
        &[
            b"# version ",
            number.format(version).as_bytes(),
            b" is let go: it is ",
            events.format(behind).as_bytes(),
            b" events behind\n",
        ],
    )
}

fn put_leads<S: Sink>(sink: &mut S, version: u32, stamp: u32) -> Put
    ensures { Puts (S.told sink.old) (S.faults sink.old) (comment_text (Leads version stamp)) result (S.told sink.new) (S.faults sink.new) }
{
    let mut number = Buffer::new();
    let mut event = Buffer::new();
    put_pieces(
        sink,
        &[
            b"# version ",
            number.format(version).as_bytes(),
            b" leads from event ",
            event.format(stamp).as_bytes(),
            b"\n",
        ],
    )
}

fn put_rewrites_at<S: Sink>(sink: &mut S, version: u32, rewrites: u64) -> Put
    ensures { Puts (S.told sink.old) (S.faults sink.old) (concat (codes "# version " ∷ decimal version ∷ codes " rewrites " ∷ decimal rewrites ∷ codes " at " ∷ [])) result (S.told sink.new) (S.faults sink.new) }
{
    let mut number = Buffer::new();
    let mut count = Buffer::new();
    put_pieces(
        sink,
        &[
            b"# version ",
            number.format(version).as_bytes(),
            b" rewrites ",
            count.format(rewrites).as_bytes(),
            b" at ",
        ],
    )
}

fn put_rewrites<S: Sink>(sink: &mut S, version: u32, rewrites: u64, event: &Event) -> Put
    ensures { Puts (S.told sink.old) (S.faults sink.old) (comment_text (Rewrites version rewrites (entry event.now))) result (S.told sink.new) (S.faults sink.new) }
{
    put_rewrites_at(sink, version, rewrites)?;
    put_event(sink, event)
}

fn put_made<S: Sink>(sink: &mut S, calls: u32, most: u32) -> Put
    ensures { Puts (S.told sink.old) (S.faults sink.old) (comment_text (Made calls most)) result (S.told sink.new) (S.faults sink.new) }
{
    let mut first = Buffer::new();
    let mut second = Buffer::new();
    put_pieces(
        sink,
        &[
            b"# ",
            first.format(calls).as_bytes(),
            b" of ",
            second.format(most).as_bytes(),
            b" calls are made\n",
        ],
    )
}

fn put_served<S: Sink>(sink: &mut S, event: &Event) -> Put
    ensures { Puts (S.told sink.old) (S.faults sink.old) (comment_text (Served (entry event.now))) result (S.told sink.new) (S.faults sink.new) }
{
    put_all(sink, b"# ")?;
    put_event(sink, event)
}

fn word_of(cause: ArrivalCause) -> &'static str
    ensures { result.now ≡ cause_word (cause_of cause) }
{
    match cause {
        ArrivalCause::Word => "word",
        ArrivalCause::Shape => "shape",
        ArrivalCause::Range => "range",
        ArrivalCause::Twice => "twice",
        ArrivalCause::Long => "long",
    }
}

fn put_refused_line<S: Sink>(sink: &mut S, line: u32, why: &str) -> Put
    ensures { Puts (S.told sink.old) (S.faults sink.old) (input_text line why.now) result (S.told sink.new) (S.faults sink.new) }
{
    let mut number = Buffer::new();
    put_pieces(
        sink,
        &[
            b"# varan: input standard input: line ",
            number.format(line).as_bytes(),
            b" ",
            why.as_bytes(),
            b"\n",
        ],
    )
}

fn put_ending<S: Sink>(sink: &mut S, ending: Ending) -> Put
    ensures { Puts (S.told sink.old) (S.faults sink.old) (ending_text ending) result (S.told sink.new) (S.faults sink.new) }
{
    match ending {
        Ending::Finished | Ending::Untold => Ok(()),
        Ending::Unread => put_all(sink, b"# varan: read standard input\n"),
        Ending::Refused(line, cause) => put_refused_line(sink, line, word_of(cause)),
        Ending::CutOff(line) => put_refused_line(sink, line, "cut"),
        Ending::Unsaid => put_all(sink, b"# varan: write standard output\n"),
    }
}

/// Writes the line of a comment.
pub fn put_comment<S: Sink>(sink: &mut S, comment: &Comment<'_>) -> Put
    ensures { Puts (S.told sink.old) (S.faults sink.old) (comment_text (comment_view comment.now)) result (S.told sink.new) (S.faults sink.new) }
{
    match *comment {
        Comment::Ended {
            version,
            fate,
            seen,
        } => put_ended(sink, version, fate, seen),
        Comment::LetGo { version, behind } => put_let_go(sink, version, behind),
        Comment::Leads { version, stamp } => put_leads(sink, version, stamp),
        Comment::Rewrites {
            version,
            rewrites,
            event,
        } => put_rewrites(sink, version, rewrites, event),
        Comment::Made { calls, most } => put_made(sink, calls, most),
        Comment::Served { event } => put_served(sink, event),
        Comment::Stopped { ending } => put_ending(sink, ending),
    }
}

/// The line of a comment in memory, where there is as much.
pub fn comment_line(alloc: Global, comment: &Comment<'_>) -> Option<MemorySink>
    ensures { IfSome result (λ line. written_of line ≡ comment_text (comment_view comment.now)) }
{
    let Ok(mut line) = MemorySink::make(alloc, LONGEST, LONGEST, Vec::new(alloc)) else {
        return None;
    };
    match put_comment(&mut line, comment) {
        Ok(()) => Some(line),
        Err(_) => None,
    }
}
