// The kernel, with the log of the calls that it served.
ghost use Rattle.std.specs.Prelude.{◌≡◌, ◌<◌, ◌++◌, [], ◌∷◌, true, length, IsTrue, IfOk, IfErr};
ghost use Rattle.nv_calls.specs.Answer.{state_after};
ghost use Rattle.nv_calls.specs.Logs.{calls_of};
ghost use Rattle.nv_script.specs.Scripts.{is_script};
ghost use Rattle.nv_script.specs.Views.{setup_of};
ghost use Rattle.nv_kernel.specs.Serving.{serve, first_state};

use crate::answers::{Answers, Foretold, FromScript, KeepsAll};
use crate::devices::Devices;
use crate::spare::{blank, fill, next_end};
use nv_calls::{Bytes, Call, Event, MOST_BYTES, Past, Recorded, Scripted, SyscallKernel};
use nv_fs::FileSystem;
use nv_script::Script;
use std::alloc::{AllocError, Global};
use std::marker::Model;
use std::snapshot::Snapshot;

/// The kernel of a process over what a script gives, whatever answers its calls. It is the only one: whoever answers keeps no log.
#[derive(Drop)]
pub struct Kernel<A: Answers> {
    alloc: Global,
    script: Snapshot<Script>,
    answers: A,
    /// Each event, or the last one alone, as what answers says.
    log: Past<Event>,
    /// Where a call's bytes are put before its event has them.
    out: Bytes,
    spare: Option<Event>,
    end: Option<u8>,
}

/// The kernel without sockets.
pub type ScriptKernel = Kernel<Devices>;

impl<A: Answers> Model for Kernel<A> {
    ghost use Rattle.std.specs.Prelude.{◌≡◌, ◌<◌, true, length, map, option_map};
    ghost use Rattle.nv_calls.specs.Calls.{entry};
    ghost use Rattle.nv_script.specs.Views.{setup_of};
    ghost use Rattle.nv_kernel.specs.Kernel.{spare_of};
    ghost use Rattle.nv_kernel.specs.Logged.{Logged, IsLogged};

    ghost Value = { Logged A };

    ghost view = { λ k. record { log = map entry k.log.items; setup = setup_of k.script.value; spare = option_map spare_of k.spare; answers = k.answers } };

    ghost invariant = { λ k. IsLogged (A.known (setup_of k.script.value) k.answers) (map entry k.log.items) (length k.log.items) k.log.most (option_map spare_of k.spare) k.end
        × A.stands k.answers (setup_of k.script.value) (map entry k.log.items)
        × (k.out.capacity ≡ 4096)
        × (0 < length k.log.items → k.log.gone < length k.log.items)
        × (A.keeps_all ≡ true → k.log.gone ≡ 0) };
}

// One more event, for which memory is reserved. Those before it are let go, unless all are kept.
fn add(log: &mut Past<Event>, event: Event, keeps: bool)
    requires { length log.old.items < log.old.most }
    ensures items { log.new.items ≡ log.old.items ++ event ∷ [] }
    ensures last { log.new.gone < length log.new.items }
    ensures all { keeps ≡ true → log.new.gone ≡ log.old.gone }
{
    if keeps {
        log.push(event);
    } else {
        log.push_alone(event);
    }
}

impl<A: Answers> Kernel<A> {
    /// A kernel that has served nothing, over what the script gives and what answers, which comes back where memory is wanted.
    pub fn over(alloc: Global, script: &Script, answers: A) -> Result<Kernel<A>, A>
        requires fresh { A.stands answers (setup_of script.now) [] }
        ensures begun { IfOk result (λ k. (k.log ≡ []) × (k.setup ≡ setup_of script.now) × (k.answers ≡ answers)) }
        ensures same { IfErr result (λ given. given ≡ answers) }
    {
        let Ok(out) = Bytes::make(alloc, MOST_BYTES) else {
            return Err(answers);
        };
        Ok(Kernel {
            alloc,
            script: Snapshot::of(script),
            answers,
            log: Past::new(alloc),
            out,
            spare: None,
            end: None,
        })
    }

    /// What answers, as the calls served left it.
    pub fn answers(&self) -> &A
        ensures is { result.now ≡ self.now.answers }
        ensures stands { A.stands self.now.answers self.now.setup self.now.log }
    {
        &self.answers
    }

    /// What answered, of a kernel that is done with.
    pub fn into_answers(self) -> A
        ensures is { result ≡ self.answers }
        ensures stands { A.stands self.answers self.setup self.log }
    {
        self.answers
    }
}

impl<A: FromScript> Kernel<A> {
    /// A kernel that has served nothing, over what the script gives.
    pub fn make(alloc: Global, script: &Script) -> Result<Kernel<A>, AllocError>
        requires script { IsTrue (is_script (setup_of script.now)) }
        ensures { IfOk result (λ k. (k.log ≡ []) × (k.setup ≡ setup_of script.now)) }
    {
        let answers = A::make(alloc, script)?;
        match Kernel::over(alloc, script, answers) {
            Ok(kernel) => Ok(kernel),
            Err(_) => Err(AllocError),
        }
    }
}

impl Kernel<Devices> {
    /// The files, as the calls served left them.
    pub fn files(&self) -> &FileSystem
        ensures disk { result.now ≡ self.now.answers.files }
        ensures state { result.now.state ≡ (state_after serve (first_state self.now.setup) (calls_of self.now.log)).files }
    {
        &self.answers.files
    }
}

impl<A: Answers> SyscallKernel for Kernel<A> {
    ghost use Rattle.nv_kernel.specs.Logged.{IsReady};

    ghost log = { λ k. k.log };

    ghost Beginning = { A.Beginning };

    ghost beginning_code = { A.beginning_code };

    ghost start = { λ k. A.start k.setup k.answers };

    ghost known = { λ k. A.known k.setup k.answers };

    ghost handed = { λ k. A.handed k.answers k.setup k.log };

    ghost is_ready = { IsReady A.is_ready };

    fn reserve(&mut self, call: &Call) -> Result<(), AllocError> {
        self.spare = None;
        let event = blank(self.alloc, call)?;
        self.log.reserve(1)?;
        self.answers.reserve(call)?;
        self.spare = Some(event);
        Ok(())
    }

    fn serve(&mut self, call: &Call) {
        let Some(mut event) = self.spare.take() else {
            unreachable!()
        };
        let stamp = self.log.len() as u32;
        let ret = self.answers.answer(call, &mut self.out);
        fill(&mut event, call, stamp, ret, &self.out);
        self.end = next_end(self.answers.is_over(), call);
        add(&mut self.log, event, self.answers.keeps());
    }

    fn hands_over(&mut self) -> bool {
        self.answers.hands_over(self.log.len())
    }

    fn last(&self) -> &Event {
        self.log.last()
    }

    fn ended(&self) -> Option<u8> {
        self.end
    }
}

impl<A: KeepsAll> Recorded for Kernel<A> {
    fn history(&self) -> &[Event] {
        self.log.kept()
    }

    fn output(&self) -> &[u8] {
        self.answers.console()
    }
}

impl<A: Foretold> Scripted for Kernel<A> {
    ghost told = { A.told };

    ghost nothing_new = { λ k. A.nothing_new k.setup k.answers };
}
