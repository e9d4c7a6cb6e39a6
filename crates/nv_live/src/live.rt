// The outside of a live run.
ghost use Rattle.std.specs.Prelude.{◌≡◌, ◌<◌, ◌∷◌, [], Ok, None, IfOk, IsOk, length, true, is_some};
ghost use Rattle.nv_script.specs.Doings.{Says};
ghost use Rattle.nv_script.specs.ArrivalViews.{said_view, taking};
ghost use Rattle.nv_live.specs.Buffer.{held_in};
ghost use Rattle.nv_live.specs.Incoming.{source_in, held_of, stop_of};
ghost use Rattle.nv_live.specs.Lines.{held_text};
ghost use Rattle.nv_live.specs.Live.{incoming_of, out_of, transcript_of, stop_in, DidInTurn, DoesOn, DoesInTurn, took_first, plain_bytes};
ghost use Rattle.nv_live.specs.Transcript.{writer_in};
ghost use Rattle.nv_outside.specs.Sink.{Puts};
ghost use Rattle.nv_live.specs.Writer.{sink_in, put_of, WritesOn};

use crate::ReadBeside;
use crate::buffer::Buffer;
use crate::incoming::{Incoming, Stopped};
use crate::transcript::Transcript;
use crate::writer::Writer;
use nv_outside::{Put, Sink, WriteFailed};
use nv_script::{Arrival, Outside, Said};
use std::alloc::{AllocError, Global};

/// What comes, the transcript of what came, and what is said: of that the bytes for the console alone, since a plain run has no clients.
#[derive(Drop)]
pub struct Live<I, O, T> {
    incoming: Incoming<I>,
    out: Writer<O>,
    transcript: Transcript<T>,
}

// The bytes for the console.
fn plain_bytes<'a>(said: &'a Said<'_>) -> &'a [u8]
    ensures { result.now ≡ plain_bytes (said_view said.now) }
{
    match said {
        Said::Printed(bytes) => bytes,
        Said::Accepted(_) | Said::Sent(..) | Said::Closed(_) => &[],
    }
}

impl<I: ReadBeside<O, T>, O: Sink + Drop, T: Sink + Drop> Live<I, O, T> {
    // Nothing was read yet and nothing said. The transcript begins with this text.
    pub(crate) fn new(
        alloc: Global,
        buffer: Buffer,
        source: I,
        out: O,
        transcript: T,
        head: &[u8],
    ) -> Live<I, O, T>
        requires { held_in buffer ≡ [] }
        ensures did { DidInTurn I.took I.faults I.moments O.told O.faults T.told T.faults result result [] }
        ensures source { source_in (incoming_of result) ≡ source }
        ensures out { sink_in (out_of result) ≡ out }
        ensures head { Puts (T.told transcript) (T.faults transcript) head.now (put_of (writer_in (transcript_of result))) (T.told (sink_in (writer_in (transcript_of result)))) (T.faults (sink_in (writer_in (transcript_of result)))) }
        ensures held { held_of (incoming_of result) ≡ [] }
        ensures going { stop_of (incoming_of result) ≡ None }
        ensures whole { IsOk (put_of (out_of result)) }
    {
        Live {
            incoming: Incoming::new(buffer, source),
            out: Writer::make(out),
            transcript: Transcript::make(alloc, transcript, head),
        }
    }

    /// What it was made over.
    pub fn finish(self) -> (I, O, T)
        ensures source { result.0 ≡ source_in (incoming_of self) }
        ensures out { result.1 ≡ sink_in (out_of self) }
        ensures transcript { result.2 ≡ sink_in (writer_in (transcript_of self)) }
    {
        let Live {
            incoming,
            out,
            transcript,
        } = self;
        (incoming.finish(), out.finish(), transcript.finish())
    }

    /// Why nothing more comes.
    pub fn stopped(&self) -> Option<Stopped>
        ensures { result ≡ stop_in self.now }
    {
        match (self.incoming.stopped(), self.out.put()) {
            (Some(stopped), _) => Some(stopped),
            (None, Err(WriteFailed)) => Some(Stopped::Unwritten),
            (None, Ok(())) => None,
        }
    }

    /// What is said is written into this.
    pub fn out(&self) -> &O
        ensures { result.now ≡ sink_in (out_of self.now) }
    {
        self.out.sink()
    }

    /// Whether all that was said is written.
    pub fn said(&self) -> Put
        ensures { result ≡ put_of (out_of self.now) }
    {
        self.out.put()
    }

    /// What the transcript is written into.
    pub fn transcript(&self) -> &T
        ensures { result.now ≡ sink_in (writer_in (transcript_of self.now)) }
    {
        self.transcript.sink()
    }

    /// Whether the transcript is whole.
    pub fn told(&self) -> Put
        ensures { result ≡ put_of (writer_in (transcript_of self.now)) }
    {
        self.transcript.told()
    }

    /// What is held is shown in the transcript, as comments.
    pub fn show_held(&mut self)
        ensures incoming { incoming_of self.new ≡ incoming_of self.old }
        ensures out { out_of self.new ≡ out_of self.old }
        ensures shown { WritesOn T.told T.faults (writer_in (transcript_of self.old)) (writer_in (transcript_of self.new)) (held_text [] (held_of (incoming_of self.old))) }
    {
        self.transcript.show_held(&[], self.incoming.held());
    }

    // Takes the first of what is held.
    fn take_first(&mut self, alloc: Global) -> Result<Arrival, AllocError>
        requires { 0 < length (held_of (incoming_of self.old)) }
        ensures took { DoesOn I.took I.faults O.told O.faults T.told T.faults self.old self.new (took_first result) }
        ensures source { source_in (incoming_of self.new) ≡ source_in (incoming_of self.old) }
    {
        let bytes = self.incoming.first(alloc)?;
        let arrival = Arrival::Input(bytes);
        self.transcript.note(&arrival)?;
        self.incoming.pass();
        Ok(arrival)
    }
}

impl<I: ReadBeside<O, T>, O: Sink + Drop, T: Sink + Drop> Outside for Live<I, O, T> {
    ghost did = { λ first later done. DidInTurn I.took I.faults I.moments O.told O.faults T.told T.faults first later done };

    ghost is_over = { λ live. is_some (stop_in live) ≡ true };

    /// Its line stands in the transcript before it is handed on.
    fn next(&mut self, alloc: Global) -> Result<Option<Arrival>, AllocError>
        ensures took { DoesInTurn I.took I.faults I.moments O.told O.faults T.told T.faults self.old self.new (taking result) }
        ensures ends { result ≡ Ok None → is_some (stop_in self.new) ≡ true }
        ensures stays { is_some (stop_in self.old) ≡ true → is_some (stop_in self.new) ≡ true }
        ensures still { is_some (stop_in self.old) ≡ true → (result ≡ Ok None) × (self.new ≡ self.old) }
    {
        if self.stopped().is_some()
            || !self
                .incoming
                .has_more(self.out.sink(), self.transcript.sink())
        {
            return Ok(None);
        }
        let arrival = self.take_first(alloc)?;
        Ok(Some(arrival))
    }

    fn say(&mut self, said: &Said<'_>) {
        self.out.write(plain_bytes(said));
    }

    /// Plain input has no operator's words.
    fn hands_over(&mut self, _length: usize) -> bool {
        false
    }

    fn waits_to(&mut self, seconds: u32, nanos: u32) {
        self.incoming.waits_to(seconds, nanos);
    }
}
