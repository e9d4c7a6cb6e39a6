// All that is shown.
ghost use Rattle.std.specs.Prelude.{◌≡◌, false};
ghost use Rattle.nv_outside.specs.Sink.{Puts};
ghost use Rattle.nv_inspect.specs.Shown.{show_text, IsDump};

use crate::descriptors::put_descriptors;
use crate::dump::put_dump;
use crate::head::put_head;
use crate::threads::put_threads;
use nv_fs::FileSystem;
use nv_outside::{Put, Sink};
use nv_replay::Version;

/// Shows a version at the point of the log that it has come to, and the files of a kernel at that point: the threads that live with
/// their registers, the descriptors that are open, and the bytes of a range. The version isn't eager, so it has gone no further. It takes
/// no memory.
pub fn show<S: Sink>(
    sink: &mut S,
    version: &Version,
    files: &FileSystem,
    dump: Option<(u32, u32)>,
) -> Put
    requires settled { version.now.eager ≡ false }
    requires dump { IsDump dump }
    ensures { Puts (S.told sink.old) (S.faults sink.old) (show_text version.now.at files.now.state dump) result (S.told sink.new) (S.faults sink.new) }
{
    let running = version.process();
    let told = version.standing();
    put_head(sink, told.seen, running.count(), told.fate)?;
    put_threads(sink, running)?;
    put_descriptors(sink, files)?;
    put_dump(sink, running.guest().memory(), dump)
}
