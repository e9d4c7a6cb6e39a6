// What the descriptors name.
ghost use Rattle.std.specs.Prelude.{◌≡◌};
ghost use Rattle.nv_outside.specs.Sink.{Puts};
ghost use Rattle.nv_inspect.specs.Shown.{opened_text, named_text, descriptor_text, descriptors_text};

use itoa::Buffer;
use nv_fs::{DESCRIPTORS, FileSystem, Opened};
use nv_outside::{Put, Sink, put_all, put_pieces};

fn put_file<S: Sink>(sink: &mut S, offset: u64, size: u64) -> Put
    ensures { Puts (S.told sink.old) (S.faults sink.old) (opened_text (Opened.File offset size)) result (S.told sink.new) (S.faults sink.new) }
{
    let mut first = Buffer::new();
    let mut second = Buffer::new();
    put_pieces(
        sink,
        &[
            b"file offset ",
            first.format(offset).as_bytes(),
            b" size ",
            second.format(size).as_bytes(),
        ],
    )
}

fn put_opened<S: Sink>(sink: &mut S, opened: Opened) -> Put
    ensures { Puts (S.told sink.old) (S.faults sink.old) (opened_text opened) result (S.told sink.new) (S.faults sink.new) }
{
    match opened {
        Opened::Closed => Ok(()),
        Opened::Input => put_all(sink, b"input"),
        Opened::Console => put_all(sink, b"console"),
        Opened::File { offset, size } => put_file(sink, offset, size),
        Opened::PipeRead => put_all(sink, b"pipe read"),
        Opened::PipeWrite => put_all(sink, b"pipe write"),
    }
}

fn put_named<S: Sink>(sink: &mut S, fd: u32, opened: Opened) -> Put
    ensures { Puts (S.told sink.old) (S.faults sink.old) (named_text fd opened) result (S.told sink.new) (S.faults sink.new) }
{
    let mut buffer = Buffer::new();
    put_pieces(sink, &[b"fd ", buffer.format(fd).as_bytes(), b" "])?;
    put_opened(sink, opened)?;
    put_all(sink, b"\n")
}

fn put_descriptor<S: Sink>(sink: &mut S, files: &FileSystem, fd: u32) -> Put
    ensures { Puts (S.told sink.old) (S.faults sink.old) (descriptor_text files.now.state fd) result (S.told sink.new) (S.faults sink.new) }
{
    match files.opened(fd) {
        Opened::Closed => Ok(()),
        opened => put_named(sink, fd, opened),
    }
}

/// Each descriptor that is open.
pub fn put_descriptors<S: Sink>(sink: &mut S, files: &FileSystem) -> Put
    ensures { Puts (S.told sink.old) (S.faults sink.old) (descriptors_text files.now.state) result (S.told sink.new) (S.faults sink.new) }
{
    for fd in 0..DESCRIPTORS as u32 {
        put_descriptor(sink, files, fd)?;
    }
    Ok(())
}
