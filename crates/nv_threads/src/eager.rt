// A process that goes on to its next call before the call is wanted.
ghost use Rattle.std.specs.Prelude.{◌≡◌, ◌<◌, None, true, false, IsTrue};
ghost use Rattle.nv_calls.specs.Calls.{request};
ghost use Rattle.nv_calls.specs.Logs.{made, IsNew};
ghost use Rattle.nv_calls.specs.Shapes.{IsShaped};
ghost use Rattle.nv_threads.specs.Ahead.{MayGoAhead};
ghost use Rattle.nv_threads.specs.Threads.{threads};

use crate::{Ahead, Came, Process, Want};
use nv_calls::Call;
use std::marker::Model;
use std::snapshot::Snapshot;

/// A process that may have gone on further than its callers know, if it is eager. What they are told doesn't depend on how far it has
/// gone: in contracts it is the process as they know it.
#[derive(Drop)]
pub struct Eager {
    process: Process,
    // the process as callers know it
    known: Snapshot<Process>,
    ahead: Ahead,
    eager: bool,
}

impl Model for Eager {
    ghost use Rattle.nv_threads.specs.Ahead.{Known, MayGo};

    ghost Value = { Known };

    ghost view = { λ e. record { process = e.known.value; eager = e.eager } };

    ghost invariant = { λ e. MayGo e.known.value e.eager e.ahead e.process };
}

impl Eager {
    /// The process as it is, and whether it is eager.
    pub fn new(process: Process, eager: bool) -> Eager
        ensures { result ≡ record { process = process; eager = eager } }
    {
        let known = Snapshot::of(&process);
        Eager {
            process,
            known,
            ahead: Ahead::Stays,
            eager,
        }
    }

    /// At most so many turn steps towards the next call, if it is eager, unless it is there or a thread asks. Says whether there may be
    /// more to do.
    pub fn run_ahead(&mut self, steps: u32) -> bool
        ensures same { self.new ≡ self.old }
        ensures goes { IsTrue result → 0 < steps → MayGoAhead self.old }
    {
        for _ in 0..steps {
            if !self.step_ahead() {
                return false;
            }
        }
        true
    }

    fn step_ahead(&mut self) -> bool
        ensures same { self.new ≡ self.old }
        ensures goes { IsTrue result → MayGoAhead self.old }
    {
        if !self.eager {
            return false;
        }
        if let Ahead::Comes(_) = self.ahead {
            return false;
        }
        match self.process.run_ahead() {
            Ahead::Stays => false,
            Ahead::Goes => {
                self.ahead = Ahead::Goes;
                true
            }
            Ahead::Comes(came) => {
                self.ahead = Ahead::Comes(came);
                false
            }
        }
    }

    /// Goes on to the next call or fault.
    pub fn advance(&mut self, want: Want) -> Came
        requires { threads.ended self.old.process ≡ None }
        ensures came { result ≡ threads.came self.old.process want }
        ensures after { self.new ≡ record self.old { process = threads.after self.old.process want } }
    {
        let came = match self.ahead {
            Ahead::Comes(came) => came,
            _ => self.process.advance(want),
        };
        self.known = Snapshot::of(&self.process);
        self.ahead = Ahead::Stays;
        came
    }

    /// The call of this thread that waits for its answer.
    pub fn pending(&self, tid: u32) -> &Call
        requires { threads.pending self.now.process tid ≡ true }
        ensures call { request result.now ≡ threads.call self.now.process tid }
        ensures shaped { IsShaped (request result.now) }
    {
        self.process.pending(tid)
    }

    /// Where a thread is that waits for the answer to its call.
    pub fn pc(&self, tid: u32) -> u32
        requires { threads.pending self.now.process tid ≡ true }
        ensures { result ≡ threads.pc self.now.process tid }
    {
        self.process.pc(tid)
    }

    /// The thread gets the answer to its call.
    pub fn answer(&mut self, tid: u32, ret: i32, payload: &[u8])
        requires pending { threads.pending self.old.process tid ≡ true }
        requires new { IsNew (threads.live self.old.process) (made (threads.call self.old.process tid).nr ret) }
        ensures { self.new ≡ record self.old { process = threads.answered self.old.process tid (record { ret = ret; payload = payload.now }) } }
    {
        self.process.answer(tid, ret, payload);
        self.known = Snapshot::of(&self.process);
        self.ahead = Ahead::Stays;
    }

    /// The thread gets an answer to its call that is of no event.
    pub fn give(&mut self, tid: u32, ret: i32, payload: &[u8])
        requires pending { threads.pending self.old.process tid ≡ true }
        requires new { IsNew (threads.live self.old.process) (made (threads.call self.old.process tid).nr ret) }
        ensures { self.new ≡ record self.old { process = threads.given self.old.process tid (record { ret = ret; payload = payload.now }) } }
    {
        self.process.give(tid, ret, payload);
        self.known = Snapshot::of(&self.process);
        self.ahead = Ahead::Stays;
    }

    /// The exit status, once it has exited.
    pub fn ended(&self) -> Option<u8>
        ensures { result ≡ threads.ended self.now.process }
    {
        self.process.ended()
    }

    /// The process, which is as its callers know it where it isn't eager.
    pub fn process(&self) -> &Process
        requires { self.now.eager ≡ false }
        ensures { result.now ≡ self.now.process }
    {
        &self.process
    }
}
