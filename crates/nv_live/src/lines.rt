// Lines of a head and of bytes in hexadecimal digits.
ghost use Rattle.std.specs.Prelude.{◌≡◌, ◌++◌, ◌+◌, ◌*◌, ◌≤◌, IsErr, length};
ghost use Rattle.nv_bytes.specs.Numbers.{hex_of};
ghost use Rattle.nv_live.specs.Lines.{line_with, lines_with};
ghost use Rattle.nv_live.specs.Writer.{put_of, WritesOn};

use crate::writer::Writer;
use arrayvec::ArrayVec;
use nv_bytes::hex_pair;
use nv_outside::Sink;
use nv_script::MOST_ARRIVAL;

// The most bytes of a line: a pipe takes so many whole.
const MOST_LINE: usize = 4096;

/// One line, before it is written by one text.
pub(crate) type Line = ArrayVec<u8, MOST_LINE>;

/// Adds bytes, for which there is room.
pub(crate) fn put(line: &mut Line, bytes: &[u8])
    requires { length line.old.items + length bytes.now ≤ 4096 }
    ensures { line.new.items ≡ line.old.items ++ bytes.now }
{
    match line.try_extend_from_slice(bytes) {
        Ok(()) => {}
        Err(_) => unreachable!(),
    }
}

// Adds bytes in hexadecimal digits.
#[tactic(auto, using(nv_script::proofs::Hex::hex_more))]
fn put_hex(line: &mut Line, bytes: &[u8])
    requires { length line.old.items + 2 * length bytes.now ≤ 4096 }
    ensures text { line.new.items ≡ line.old.items ++ hex_of bytes.now }
    ensures few { length line.new.items ≡ length line.old.items + 2 * length bytes.now }
{
    for byte in bytes {
        put(line, &hex_pair(*byte));
    }
}

/// Writes one line, put together in `line`.
pub(crate) fn write_line<S: Sink>(
    writer: &mut Writer<S>,
    line: &mut Line,
    head: &[u8],
    bytes: &[u8],
)
    requires head { length head.now ≤ 28 }
    requires bytes { length bytes.now ≤ 2000 }
    ensures text { WritesOn S.told S.faults writer.old writer.new (line_with head.now bytes.now) }
    ensures stays { IsErr (put_of writer.old) → IsErr (put_of writer.new) }
{
    line.clear();
    put(line, head);
    put_hex(line, bytes);
    put(line, b"\n");
    writer.write(line.as_slice());
}

/// Writes as many lines as the bytes take.
pub(crate) fn write_lines<S: Sink>(
    writer: &mut Writer<S>,
    line: &mut Line,
    head: &[u8],
    bytes: &[u8],
)
    requires { length head.now ≤ 28 }
    ensures text { WritesOn S.told S.faults writer.old writer.new (lines_with head.now bytes.now) }
    ensures stays { IsErr (put_of writer.old) → IsErr (put_of writer.new) }
{
    let mut rest = bytes;
    while !rest.is_empty() {
        let (part, later) = rest.split_at(rest.len().min(MOST_ARRIVAL));
        write_line(writer, line, head, part);
        rest = later;
    }
}
