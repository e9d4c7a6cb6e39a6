// What is said, as lines.
ghost use Rattle.std.specs.Prelude.{◌≡◌, ◌++◌, ◌+◌, ◌≤◌, [], IsOk, IsErr, length};
ghost use Rattle.nv_bytes.specs.Numbers.{decimal_of};
ghost use Rattle.nv_script.specs.ArrivalViews.{said_view};
ghost use Rattle.nv_live.specs.SaidLines.{writer_of, head_of, said_lines};
ghost use Rattle.nv_live.specs.Writer.{sink_in, put_of, WritesOn};

use crate::lines::{Line, put, write_line, write_lines};
use crate::writer::Writer;
use nv_bytes::decimal;
use nv_outside::{Put, Sink};
use nv_script::Said;

/// What is said, written as lines into a sink, each by one text.
#[derive(Drop)]
pub struct SaidLines<O> {
    writer: Writer<O>,
    // What a line begins with.
    head: Line,
    // The line that is written next.
    line: Line,
}

// Adds a number in decimal, which has at most 20 digits.
fn put_number(line: &mut Line, value: usize)
    requires { length line.old.items + 20 ≤ 4096 }
    ensures text { line.new.items ≡ line.old.items ++ decimal_of value }
    ensures few { length line.new.items ≤ length line.old.items + 20 }
{
    let mut digits = [0; 20];
    let count = decimal(value as u64, &mut digits);
    put(line, &digits[..count]);
}

/// Begins a line with a word and a number.
pub(crate) fn put_numbered(line: &mut Line, word: &[u8], value: usize)
    requires empty { line.old.items ≡ [] }
    requires few { length word.now ≤ 7 }
    ensures text { line.new.items ≡ word.now ++ decimal_of value }
    ensures few { length line.new.items ≤ 27 }
{
    put(line, word);
    put_number(line, value);
}

// Begins a line.
fn put_head(line: &mut Line, said: &Said<'_>)
    requires { line.old.items ≡ [] }
    ensures text { line.new.items ≡ head_of (said_view said.now) }
    ensures few { length line.new.items ≤ 28 }
{
    match said {
        Said::Accepted(client) => put_numbered(line, b"accept ", *client),
        Said::Sent(client, _) => {
            put_numbered(line, b"data ", *client);
            put(line, b" ");
        }
        Said::Closed(client) => put_numbered(line, b"close ", *client),
        Said::Printed(_) => put(line, b"output "),
    }
}

impl<O: Sink> SaidLines<O> {
    pub fn make(sink: O) -> SaidLines<O>
        ensures sink { sink_in (writer_of result) ≡ sink }
        ensures put { IsOk (put_of (writer_of result)) }
    {
        SaidLines {
            writer: Writer::make(sink),
            head: Line::new(),
            line: Line::new(),
        }
    }

    pub fn put(&self) -> Put
        ensures { result ≡ put_of (writer_of self.now) }
    {
        self.writer.put()
    }

    pub fn sink(&self) -> &O
        ensures { result.now ≡ sink_in (writer_of self.now) }
    {
        self.writer.sink()
    }

    pub fn finish(self) -> O
        ensures { result ≡ sink_in (writer_of self) }
    {
        let SaidLines {
            writer,
            head: _,
            line: _,
        } = self;
        writer.finish()
    }

    /// Writes this at once, unless a write has failed.
    pub fn say(&mut self, said: &Said<'_>)
        ensures lines { WritesOn O.told O.faults (writer_of self.old) (writer_of self.new) (said_lines (said_view said.now)) }
        ensures stays { IsErr (put_of (writer_of self.old)) → IsErr (put_of (writer_of self.new)) }
    {
        self.head.clear();
        put_head(&mut self.head, said);
        match said {
            Said::Accepted(_) | Said::Closed(_) => {
                write_line(&mut self.writer, &mut self.line, &self.head, &[]);
            }
            Said::Sent(_, bytes) | Said::Printed(bytes) => {
                write_lines(&mut self.writer, &mut self.line, &self.head, bytes);
            }
        }
    }
}
