// The outside of a live run of many clients.
ghost use Rattle.std.specs.Prelude.{◌≡◌, ◌-◌, ◌<◌, ◌^◌, ◌&&◌, [], Ok, None, IfOk, IsOk, IsTrue, false, true, is_some};
ghost use Rattle.nv_script.specs.Arrivals.{is_arrival};
ghost use Rattle.nv_script.specs.Reading.{arrival_of};
ghost use Rattle.nv_script.specs.Doings.{handing};
ghost use Rattle.nv_script.specs.ArrivalViews.{view, taking};
ghost use Rattle.nv_live.specs.Buffer.{held_in};
ghost use Rattle.nv_live.specs.Clients.{coming_of, lines_out_of, transcript_from, hand_overs_of, stop_among, DidLinesInTurn, DoesLines, DoesLinesInTurn};
ghost use Rattle.nv_live.specs.ComingLines.{source_from, held_from, line_from, order_from, taken_from, asked_from, stop_from, is_passed, IsWhole};
ghost use Rattle.nv_live.specs.HandOvers.{lengths_of};
ghost use Rattle.nv_live.specs.Lines.{held_text};
ghost use Rattle.nv_live.specs.SaidLines.{writer_of};
ghost use Rattle.nv_live.specs.Transcript.{writer_in};
ghost use Rattle.nv_outside.specs.Sink.{Puts};
ghost use Rattle.nv_script.specs.Order.{most_clients, nothing_came};
ghost use Rattle.nv_live.specs.Writer.{sink_in, put_of, WritesOn};
ghost use Rattle.nv_script.specs.HandLines.{can_plan};
ghost use Rattle.nv_script.specs.Scripts.{are_hands};

use crate::buffer::Buffer;
use crate::coming_lines::ComingLines;
use crate::hand_overs::HandOvers;
use crate::said_lines::SaidLines;
use crate::transcript::Transcript;
use crate::{ReadBeside, Stopped};
use nv_outside::{Put, Sink, WriteFailed};
use nv_script::{Arrival, Outside, Said};
use std::alloc::{AllocError, Global};

/// Many clients by lines over one pipe each way: what comes, the transcript of what came, and what is said.
/// What comes are the lines of arrivals, as a script has them; empty lines and those that begin with `#` are passed over. A line `hand` asks the
/// leader to hand over, which the transcript notes by a line `hand LENGTH` once it does.
/// What is said are the lines `accept N`, `data N HEX`, `close N`, and `output HEX` for the console.
#[derive(Drop)]
pub struct Clients<I, O, T> {
    coming: ComingLines<I>,
    out: SaidLines<O>,
    transcript: Transcript<T>,
    hand_overs: HandOvers,
}

impl<I: ReadBeside<O, T>, O: Sink + Drop, T: Sink + Drop> Clients<I, O, T> {
    // Nothing was read yet and nothing said. The transcript begins with this text, which plans these lengths to hand over at.
    pub(crate) fn new(
        alloc: Global,
        buffer: Buffer,
        source: I,
        out: O,
        transcript: T,
        head: &[u8],
        hands: &[u32],
    ) -> Clients<I, O, T>
        requires hands { IsTrue (are_hands hands.now) }
        requires empty { held_in buffer ≡ [] }
        ensures did { DidLinesInTurn I.took I.faults I.moments O.told O.faults T.told T.faults result result [] }
        ensures source { source_from (coming_of result) ≡ source }
        ensures out { sink_in (writer_of (lines_out_of result)) ≡ out }
        ensures head { Puts (T.told transcript) (T.faults transcript) head.now (put_of (writer_in (transcript_from result))) (T.told (sink_in (writer_in (transcript_from result)))) (T.faults (sink_in (writer_in (transcript_from result)))) }
        ensures held { held_from (coming_of result) ≡ [] }
        ensures line { line_from (coming_of result) ≡ [] }
        ensures order { order_from (coming_of result) ≡ nothing_came (most_clients true) }
        ensures taken { taken_from (coming_of result) ≡ 0 }
        ensures asked { asked_from (coming_of result) ≡ false }
        ensures hands { lengths_of (hand_overs_of result) ≡ hands.now }
        ensures going { stop_from (coming_of result) ≡ None }
        ensures whole { IsOk (put_of (writer_of (lines_out_of result))) }
    {
        Clients {
            coming: ComingLines::new(alloc, buffer, source),
            out: SaidLines::make(out),
            transcript: Transcript::make(alloc, transcript, head),
            hand_overs: HandOvers::new(hands),
        }
    }

    /// What it was made over.
    pub fn finish(self) -> (I, O, T)
        ensures source { result.0 ≡ source_from (coming_of self) }
        ensures out { result.1 ≡ sink_in (writer_of (lines_out_of self)) }
        ensures transcript { result.2 ≡ sink_in (writer_in (transcript_from self)) }
    {
        let Clients {
            coming,
            out,
            transcript,
            hand_overs: _,
        } = self;
        (coming.finish(), out.finish(), transcript.finish())
    }

    /// Why nothing more comes.
    pub fn stopped(&self) -> Option<Stopped>
        ensures { result ≡ stop_among self.now }
    {
        match (self.coming.stopped(), self.out.put()) {
            (Some(stopped), _) => Some(stopped),
            (None, Err(WriteFailed)) => Some(Stopped::Unwritten),
            (None, Ok(())) => None,
        }
    }

    /// Whether all that was said is written.
    pub fn said(&self) -> Put
        ensures { result ≡ put_of (writer_of (lines_out_of self.now)) }
    {
        self.out.put()
    }

    /// Whether the transcript is whole.
    pub fn told(&self) -> Put
        ensures { result ≡ put_of (writer_in (transcript_from self.now)) }
    {
        self.transcript.told()
    }

    /// What is held is shown in the transcript, as comments.
    pub fn show_held(&mut self)
        ensures coming { coming_of self.new ≡ coming_of self.old }
        ensures out { lines_out_of self.new ≡ lines_out_of self.old }
        ensures shown { WritesOn T.told T.faults (writer_in (transcript_from self.old)) (writer_in (transcript_from self.new)) (held_text (line_from (coming_of self.old)) (held_from (coming_of self.old))) }
    {
        self.transcript
            .show_held(self.coming.line(), self.coming.held());
    }

    // Takes the arrival of the line that was found, or refuses it.
    fn take(&mut self, arrival: Arrival) -> Result<Option<Arrival>, AllocError>
        requires whole { IsWhole (held_from (coming_of self.old)) }
        requires going { stop_from (coming_of self.old) ≡ None }
        requires says { is_passed (line_from (coming_of self.old)) ≡ false }
        requires more { taken_from (coming_of self.old) < 2 ^ 64 - 1 }
        requires arrival { arrival_of (line_from (coming_of self.old)) ≡ Ok (view arrival) }
        requires sound { is_arrival (view arrival) ≡ true }
        ensures took { DoesLines I.took I.faults O.told O.faults T.told T.faults self.old self.new (taking result) }
        ensures source { source_from (coming_of self.new) ≡ source_from (coming_of self.old) }
        ensures over { result ≡ Ok None → is_some (stop_among self.new) ≡ true }
    {
        self.transcript.set(&arrival)?;
        if !self.coming.admit(&arrival)? {
            return Ok(None);
        }
        self.transcript.write();
        Ok(Some(arrival))
    }

    // Takes what the line that was found says, or refuses it.
    fn take_line(&mut self, alloc: Global) -> Result<Option<Arrival>, AllocError>
        requires whole { IsWhole (held_from (coming_of self.old)) }
        requires going { stop_from (coming_of self.old) ≡ None }
        requires says { is_passed (line_from (coming_of self.old)) ≡ false }
        requires more { taken_from (coming_of self.old) < 2 ^ 64 - 1 }
        ensures took { DoesLines I.took I.faults O.told O.faults T.told T.faults self.old self.new (taking result) }
        ensures source { source_from (coming_of self.new) ≡ source_from (coming_of self.old) }
        ensures over { result ≡ Ok None → is_some (stop_among self.new) ≡ true }
    {
        match self.coming.read(alloc)? {
            Ok(arrival) => self.take(arrival),
            Err(cause) => {
                self.coming.refuse(cause);
                Ok(None)
            }
        }
    }
}

impl<I: ReadBeside<O, T>, O: Sink + Drop, T: Sink + Drop> Outside for Clients<I, O, T> {
    ghost did = { λ first later done. DidLinesInTurn I.took I.faults I.moments O.told O.faults T.told T.faults first later done };

    ghost is_over = { λ clients. is_some (stop_among clients) ≡ true };

    /// Its line stands in the transcript before it is handed on.
    fn next(&mut self, alloc: Global) -> Result<Option<Arrival>, AllocError>
        ensures took { DoesLinesInTurn I.took I.faults I.moments O.told O.faults T.told T.faults self.old self.new (taking result) }
        ensures ends { result ≡ Ok None → is_some (stop_among self.new) ≡ true }
        ensures stays { is_some (stop_among self.old) ≡ true → is_some (stop_among self.new) ≡ true }
        ensures still { is_some (stop_among self.old) ≡ true → (result ≡ Ok None) × (self.new ≡ self.old) }
    {
        if self.stopped().is_some() || !self.coming.find(self.out.sink(), self.transcript.sink())? {
            return Ok(None);
        }
        self.take_line(alloc)
    }

    fn say(&mut self, said: &Said<'_>) {
        self.out.say(said);
    }

    /// An operator's word waits while the length isn't one that the transcript, as a script, can have.
    fn hands_over(&mut self, length: usize) -> bool
        ensures told { DoesLinesInTurn I.took I.faults I.moments O.told O.faults T.told T.faults self.old self.new (handing result length) }
        ensures stays { is_some (stop_among self.old) ≡ true → is_some (stop_among self.new) ≡ true }
        ensures answer { result ≡ (asked_from (coming_of self.old) && can_plan length (lengths_of (hand_overs_of self.old))) }
        ensures waits { result ≡ false → self.new ≡ self.old }
    {
        if !self.coming.asked() || !self.hand_overs.can_take(length) {
            return false;
        }
        self.coming.hand_over();
        self.hand_overs.take(length);
        self.transcript.note_hand(length);
        true
    }

    fn waits_to(&mut self, seconds: u32, nanos: u32) {
        self.coming.waits_to(seconds, nanos);
    }
}
