// The whole report.
ghost use Rattle.std.specs.Prelude.{◌≡◌, ◌++◌, length, map};
ghost use Rattle.std.specs.List.{flat_map};
ghost use Rattle.nv_outside.specs.Sink.{Puts};
ghost use Rattle.nv_calls.specs.Logs.{output_of};
ghost use Rattle.nv_replay.specs.Version.{standing_of};
ghost use Rattle.nv_report.specs.Report.{head_text, count_text, fates_text, report_text};

use crate::events::put_events;
use crate::versions::put_lines;
use itoa::Buffer;
use nv_calls::{Recorded, SyscallKernel};
use nv_outside::{Put, Sink, put_pieces};
use nv_replay::{Account, Version};

/// Writes the report of a run. It takes no memory.
pub fn write<S: Sink, K: SyscallKernel + Recorded>(sink: &mut S, account: &Account<K>) -> Put
    ensures { Puts (S.told sink.old) (S.faults sink.old)
        (report_text (output_of (K.known account.now.kernel) (K.log account.now.kernel))
        (record { log = K.log account.now.kernel; lines = map standing_of account.now.versions.items }))
        result (S.told sink.new) (S.faults sink.new) }
{
    let events = account.kernel.history();
    put_head(sink, account.kernel.output(), events.len())?;
    put_events(sink, events)?;
    put_fates(sink, &account.versions)
}

// The console's bytes, and how many events the log has.
fn put_head<S: Sink>(sink: &mut S, output: &[u8], events: usize) -> Put
    ensures { Puts (S.told sink.old) (S.faults sink.old) (head_text output.now events) result (S.told sink.new) (S.faults sink.new) }
{
    let mut first = Buffer::new();
    let mut second = Buffer::new();
    put_pieces(
        sink,
        &[
            b"output ",
            first.format(output.len()).as_bytes(),
            b"\n",
            output,
            b"\nlog ",
            second.format(events).as_bytes(),
            b"\n",
        ],
    )
}

fn put_fates<S: Sink>(sink: &mut S, versions: &[Version]) -> Put
    ensures { Puts (S.told sink.old) (S.faults sink.old) (fates_text (map standing_of versions.now)) result (S.told sink.new) (S.faults sink.new) }
{
    put_count(sink, versions.len())?;
    put_lines(sink, 0, versions)
}

// How many versions there are.
fn put_count<S: Sink>(sink: &mut S, versions: usize) -> Put
    ensures { Puts (S.told sink.old) (S.faults sink.old) (count_text versions) result (S.told sink.new) (S.faults sink.new) }
{
    let mut buffer = Buffer::new();
    put_pieces(
        sink,
        &[b"fates ", buffer.format(versions).as_bytes(), b"\n"],
    )
}
