// What answers a kernel's calls, and keeps no log.
ghost use Rattle.std.specs.Prelude.{◌≡◌, ◌≤◌, ◌==◌, ◌++◌, ◌∷◌, ℕ, Bool, true, [], List, length, OnOk, IfOk, IsTrue};
ghost use Rattle.std.specs.Coded.{Coded};
ghost use Rattle.nv_calls.specs.Calls.{Request, Entry, request};
ghost use Rattle.nv_calls.specs.Limits.{MOST_BYTES};
ghost use Rattle.nv_calls.specs.Hands.{with_hand};
ghost use Rattle.nv_calls.specs.Logs.{Start, live_after, output_of, served};
ghost use Rattle.nv_calls.specs.Shapes.{IsShaped};
ghost use Rattle.nv_calls.specs.Learning.{GoesOn};
ghost use Rattle.nv_script.specs.Scripts.{Setup, is_script};
ghost use Rattle.nv_script.specs.Views.{setup_of};
ghost use Rattle.nv_kernel.specs.Answering.{MayCome, IsAnswer};
ghost use Rattle.nv_kernel.specs.Reserved.{most_out};

use nv_calls::{Bytes, Call};
use nv_script::Script;
use std::alloc::{AllocError, Global};

/// What a kernel asks for the answer to each call. Which log it stands at is said here for proofs alone: `Kernel` keeps the log, or
/// whatever else knows one.
pub trait Answers: Send + Drop {
    /// What a kernel over it is made over, which is data.
    ghost Beginning: { Type 0 };

    ghost beginning_code: { Coded Self.Beginning };

    /// What the kernel was made over, where a script gave this; no call changes it.
    ghost start: { Setup → Self → Self.Beginning };

    /// How it goes on from what a script gave, as far as it has learned what comes from outside: only `reserve` changes it.
    ghost known: { Setup → Self → Start };

    /// It stands where the calls of this log leave it, over what a script gave.
    ghost stands: { Self → Setup → List Entry → Type 0 };

    /// At the log where it stands, over what a script gave, it answered at just these lengths, in order, that the lead is to be given up.
    ghost handed: { Self → Setup → List Entry → List ℕ → Type 0 };

    /// A kernel over it keeps each event of its log, and not the last one alone.
    ghost keeps_all: { Bool };

    /// Memory is taken for this call.
    ghost is_ready: { Self → Request → Type 0 };

    /// Takes memory for a call, and may take what comes from outside.
    fn reserve(&mut self, call: &Call) -> Result<(), AllocError>
        requires shaped { IsShaped (request call.now) }
        ensures start { (setup : Setup) → start setup self.new ≡ start setup self.old }
        ensures stands { (setup : Setup) (log : List Entry) → stands self.old setup log → stands self.new setup log }
        ensures known { (setup : Setup) (log : List Entry) → stands self.old setup log → GoesOn log (known setup self.old) (known setup self.new) }
        ensures handed { (setup : Setup) (log : List Entry) (lengths : List ℕ) → stands self.old setup log → handed self.old setup log lengths → handed self.new setup log lengths }
        ensures ready { OnOk result (is_ready self.new (request call.now)) };

    /// The result of a call, with the bytes that it hands out.
    fn answer(&mut self, call: &Call, out: &mut Bytes) -> i32
        requires ready { is_ready self.old (request call.now) }
        requires shaped { IsShaped (request call.now) }
        requires comes { MayCome (stands self.old) (request call.now) }
        requires capacity { MOST_BYTES ≤ out.old.capacity }
        ensures start { (setup : Setup) → start setup self.new ≡ start setup self.old }
        ensures known { (setup : Setup) → known setup self.new ≡ known setup self.old }
        ensures answer { IsAnswer (λ setup. known setup self.old) (stands self.old) (stands self.new) (request call.now) result out.new.bytes }
        ensures handed { (setup : Setup) (log : List Entry) (lengths : List ℕ) → stands self.old setup log → handed self.old setup log lengths → handed self.new setup (log ++ served (known setup self.old) log (request call.now) ∷ []) lengths }
        ensures capacity { out.new.capacity ≡ out.old.capacity }
        ensures few { length out.new.bytes ≤ most_out (request call.now) };

    /// Whether the leader is to give up the lead at this length of the log by an operator's word, which is taken then.
    fn hands_over(&mut self, _length: usize) -> bool
        ensures start { (setup : Setup) → start setup self.new ≡ start setup self.old }
        ensures stands { (setup : Setup) (log : List Entry) → stands self.old setup log → stands self.new setup log }
        ensures known { (setup : Setup) → known setup self.new ≡ known setup self.old }
        ensures handed { (setup : Setup) (log : List Entry) (lengths : List ℕ) → handed self.old setup log lengths → handed self.new setup log (with_hand result _length lengths) }
    {
        false
    }

    /// Whether a kernel over it keeps each event.
    fn keeps(&self) -> bool
        ensures { result ≡ keeps_all };

    /// Whether no thread lives.
    fn is_over(&self) -> bool
        ensures { (setup : Setup) (log : List Entry) → stands self.now setup log → result ≡ (length (live_after log) == 0) };
}

/// What a script gives at the beginning of a run.
pub trait FromScript: Answers {
    /// What the script gives, at which no call was answered yet.
    fn make(alloc: Global, script: &Script) -> Result<Self, AllocError>
        requires script { IsTrue (is_script (setup_of script.now)) }
        ensures { IfOk result (λ made. Self.stands made (setup_of script.now) []) };
}

/// A kernel over it keeps each event of its log and each byte of its console, so that it can be reported and recorded.
pub trait KeepsAll: Answers {
    /// The bytes on the console.
    fn console(&self) -> &[u8]
        ensures { (setup : Setup) (log : List Entry) → Self.stands self.now setup log → result.now ≡ output_of (Self.known setup self.now) log };

    ghost all_kept: { Self.keeps_all ≡ true };
}

/// What has nothing to learn: what a kernel over it was made over tells how it goes on.
pub trait Foretold: Answers {
    /// How a kernel goes on that was made over this.
    ghost told: { Self.Beginning → Start };

    ghost nothing_new: { (setup : Setup) (answers : Self) → Self.known setup answers ≡ Self.told (Self.start setup answers) };
}
