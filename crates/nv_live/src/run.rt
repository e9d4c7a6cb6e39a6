// The outside of a live run, of either way.
ghost use Rattle.std.specs.Prelude.{◌≡◌, [], IfOk, IfErr, IsTrue, Ok, None};
ghost use Rattle.nv_outside.specs.Sink.{Puts};
ghost use Rattle.nv_live.specs.Buffer.{held_in};
ghost use Rattle.nv_live.specs.Lines.{held_text};
ghost use Rattle.nv_live.specs.Run.{input_of, output_of, notes_of, line_of, held_by, source_stop, stop_of_run, told_run, DidRun, IsBegun, IsOver};
ghost use Rattle.nv_live.specs.Writer.{sink_in, put_of, WritesOn};
ghost use Rattle.nv_script.specs.Scripts.{are_hands};

use crate::buffer::Buffer;
use crate::clients::Clients;
use crate::incoming::Stopped;
use crate::live::Live;
use crate::streams::Streams;
use crate::{ReadBeside, Telling};
use nv_outside::{Put, Sink};
use nv_script::{Arrival, Outside, Said};
use std::alloc::{AllocError, Global};

/// The outside of a live run: plain input and output, or many clients by lines both ways.
#[derive(Drop)]
pub enum LiveRun<I, O, T> {
    Plain(Live<I, O, T>),
    Clients(Clients<I, O, T>),
}

impl<I: ReadBeside<O, T>, O: Sink + Drop, T: Sink + Drop> LiveRun<I, O, T> {
    /// Nothing was read yet and nothing said. The transcript begins with this text, as much of it as can be written, which plans these lengths to
    /// hand over at. Where memory is wanted the streams come back as they were.
    pub fn begin(
        alloc: Global,
        clients: bool,
        streams: Streams<I, O, T>,
        head: &[u8],
        hands: &[u32],
    ) -> Result<LiveRun<I, O, T>, Streams<I, O, T>>
        requires { IsTrue (are_hands hands.now) }
        ensures begun { IfOk result (λ run. IsBegun I.took I.faults I.moments O.told O.faults T.told T.faults clients head.now hands.now streams (told_run I.took I.faults I.moments O.told O.faults T.told T.faults run)) }
        ensures same { IfErr result (λ given. given ≡ streams) }
    {
        let Ok(buffer) = Buffer::make(alloc) else {
            return Err(streams);
        };
        Ok(LiveRun::over(alloc, buffer, clients, streams, head, hands))
    }

    // The same with memory for what a read gives.
    fn over(
        alloc: Global,
        buffer: Buffer,
        clients: bool,
        streams: Streams<I, O, T>,
        head: &[u8],
        hands: &[u32],
    ) -> LiveRun<I, O, T>
        requires hands { IsTrue (are_hands hands.now) }
        requires empty { held_in buffer ≡ [] }
        ensures { IsBegun I.took I.faults I.moments O.told O.faults T.told T.faults clients head.now hands.now streams (told_run I.took I.faults I.moments O.told O.faults T.told T.faults result) }
    {
        let Streams {
            input,
            output,
            transcript,
        } = streams;
        if clients {
            let run = Clients::new(alloc, buffer, input, output, transcript, head, hands);
            return LiveRun::Clients(run);
        }
        let run = Live::new(alloc, buffer, input, output, transcript, head);
        LiveRun::Plain(run)
    }

    /// Why nothing more comes.
    pub fn stopped(&self) -> Option<Stopped>
        ensures { result ≡ stop_of_run self.now }
    {
        match self {
            LiveRun::Plain(run) => run.stopped(),
            LiveRun::Clients(run) => run.stopped(),
        }
    }

    /// Whether all that was said is written.
    pub fn said(&self) -> Put
        ensures { result ≡ put_of (output_of self.now) }
    {
        match self {
            LiveRun::Plain(run) => run.said(),
            LiveRun::Clients(run) => run.said(),
        }
    }

    /// Whether the transcript is whole.
    pub fn told(&self) -> Put
        ensures { result ≡ put_of (notes_of self.now) }
    {
        match self {
            LiveRun::Plain(run) => run.told(),
            LiveRun::Clients(run) => run.told(),
        }
    }

    /// What was read and taken by no call is shown in the transcript, as comments.
    pub fn show_held(&mut self)
        ensures input { input_of self.new ≡ input_of self.old }
        ensures output { output_of self.new ≡ output_of self.old }
        ensures stopped { source_stop self.new ≡ source_stop self.old }
        ensures shown { WritesOn T.told T.faults (notes_of self.old) (notes_of self.new) (held_text (line_of self.old) (held_by self.old)) }
    {
        match self {
            LiveRun::Plain(run) => run.show_held(),
            LiveRun::Clients(run) => run.show_held(),
        }
    }

    /// The streams that it was made over.
    pub fn finish(self) -> Streams<I, O, T>
        ensures input { result.input ≡ input_of self }
        ensures output { result.output ≡ sink_in (output_of self) }
        ensures transcript { result.transcript ≡ sink_in (notes_of self) }
    {
        let (input, output, transcript) = match self {
            LiveRun::Plain(run) => run.finish(),
            LiveRun::Clients(run) => run.finish(),
        };
        Streams {
            input,
            output,
            transcript,
        }
    }
}

impl<I: ReadBeside<O, T>, O: Sink + Drop, T: Sink + Drop> Outside for LiveRun<I, O, T> {
    ghost did = { λ first later done. DidRun I.took I.faults I.moments O.told O.faults T.told T.faults first later done };

    ghost is_over = { IsOver };

    fn next(&mut self, alloc: Global) -> Result<Option<Arrival>, AllocError> {
        match self {
            LiveRun::Plain(run) => run.next(alloc),
            LiveRun::Clients(run) => run.next(alloc),
        }
    }

    fn say(&mut self, said: &Said<'_>) {
        match self {
            LiveRun::Plain(run) => run.say(said),
            LiveRun::Clients(run) => run.say(said),
        }
    }

    fn hands_over(&mut self, length: usize) -> bool {
        match self {
            LiveRun::Plain(run) => run.hands_over(length),
            LiveRun::Clients(run) => run.hands_over(length),
        }
    }

    fn waits_to(&mut self, seconds: u32, nanos: u32) {
        match self {
            LiveRun::Plain(run) => run.waits_to(seconds, nanos),
            LiveRun::Clients(run) => run.waits_to(seconds, nanos),
        }
    }
}

impl<I: ReadBeside<O, T>, O: Sink + Drop, T: Sink + Drop> Telling for LiveRun<I, O, T> {
    ghost use Rattle.nv_live.specs.Telling.{Told as Telling, told_code};

    ghost Told = { Telling };

    ghost told_code = { told_code };

    ghost told = { told_run I.took I.faults I.moments O.told O.faults T.told T.faults };
}
