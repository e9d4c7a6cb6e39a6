// The transcript of what came.
ghost use Rattle.std.specs.Prelude.{◌≡◌, OnOk, OnErr, ◌∷◌, []};
ghost use Rattle.nv_script.specs.ArrivalViews.{view};
ghost use Rattle.nv_outside.specs.Sink.{Puts};
ghost use Rattle.nv_live.specs.Lines.{held_text};
ghost use Rattle.nv_live.specs.Transcript.{lines_of, hand_text, writer_in, text_in};
ghost use Rattle.nv_live.specs.Writer.{sink_in, put_of, WritesOn};

use crate::lines::{Line, write_line, write_lines};
use crate::said_lines::put_numbered;
use crate::writer::Writer;
use nv_outside::{Put, Sink};
use nv_script::{Arrival, put_line};
use std::alloc::{AllocError, Global};

// What a comment of bytes that no call took begins with.
const NOT_TAKEN: &[u8] = b"# not taken: ";

/// Lines of what came, written into a sink.
#[derive(Drop)]
pub struct Transcript<T> {
    writer: Writer<T>,
    // The line that is written next.
    text: Vec<u8>,
}

impl<T: Sink> Transcript<T> {
    /// A transcript that begins with this text.
    pub fn make(alloc: Global, sink: T, head: &[u8]) -> Transcript<T>
        ensures { Puts (T.told sink) (T.faults sink) head.now (put_of (writer_in result)) (T.told (sink_in (writer_in result))) (T.faults (sink_in (writer_in result))) }
    {
        let mut writer = Writer::make(sink);
        writer.write(head);
        Transcript {
            writer,
            text: Vec::new(alloc),
        }
    }

    pub fn told(&self) -> Put
        ensures { result ≡ put_of (writer_in self.now) }
    {
        self.writer.put()
    }

    pub fn sink(&self) -> &T
        ensures { result.now ≡ sink_in (writer_in self.now) }
    {
        self.writer.sink()
    }

    pub fn finish(self) -> T
        ensures { result ≡ sink_in (writer_in self) }
    {
        let Transcript { writer, text: _ } = self;
        writer.finish()
    }

    /// Makes the line of an arrival ready.
    pub fn set(&mut self, arrival: &Arrival) -> Result<(), AllocError>
        ensures text { OnOk result (text_in self.new ≡ lines_of (view arrival.now ∷ [])) }
        ensures kept { writer_in self.new ≡ writer_in self.old }
    {
        self.text.clear();
        put_line(&mut self.text, arrival)?;
        Ok(())
    }

    /// Writes the line that is ready, unless a write has failed.
    pub fn write(&mut self)
        ensures { WritesOn T.told T.faults (writer_in self.old) (writer_in self.new) (text_in self.old) }
    {
        self.writer.write(self.text.as_slice());
    }

    /// Writes the line of an arrival, unless a write has failed.
    pub fn note(&mut self, arrival: &Arrival) -> Result<(), AllocError>
        ensures noted { OnOk result (WritesOn T.told T.faults (writer_in self.old) (writer_in self.new) (lines_of (view arrival.now ∷ []))) }
        ensures kept { OnErr result (writer_in self.new ≡ writer_in self.old) }
    {
        self.set(arrival)?;
        self.write();
        Ok(())
    }

    /// Writes the line of a hand-over at this length of the log, unless a write has failed.
    pub fn note_hand(&mut self, length: usize)
        ensures { WritesOn T.told T.faults (writer_in self.old) (writer_in self.new) (hand_text length) }
    {
        let mut head = Line::new();
        put_numbered(&mut head, b"hand ", length);
        let mut line = Line::new();
        write_line(&mut self.writer, &mut line, &head, &[]);
    }

    /// Writes, as comments, the bytes of a line that has begun and those behind it.
    pub fn show_held(&mut self, line: &[u8], held: &[u8])
        ensures { WritesOn T.told T.faults (writer_in self.old) (writer_in self.new) (held_text line.now held.now) }
    {
        let mut comment = Line::new();
        write_lines(&mut self.writer, &mut comment, NOT_TAKEN, line);
        write_lines(&mut self.writer, &mut comment, NOT_TAKEN, held);
    }
}
