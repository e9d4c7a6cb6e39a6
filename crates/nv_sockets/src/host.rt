// What calls read and change, sockets and all.
ghost use Rattle.std.specs.Prelude.{◌≡◌, ◌≤◌, ◌<◌, length, ◌==◌, false, OnOk, IfOk, if◌then◌else◌};
ghost use Rattle.nv_calls.specs.Answer.{answer};
ghost use Rattle.nv_calls.specs.Calls.{request};
ghost use Rattle.nv_calls.specs.Limits.{MOST_EVENTS};
ghost use Rattle.nv_calls.specs.Numbers.{syscall_of};
ghost use Rattle.nv_script.specs.Views.{setup_of};
ghost use Rattle.nv_kernel.specs.Reserved.{CanAnswer, most_out};
ghost use Rattle.nv_kernel.specs.Serving.{request_arg};
ghost use Rattle.nv_sockets.specs.Kernel.{state_of};
ghost use Rattle.nv_sockets.specs.Reserved.{CanSend, IsWhole};
ghost use Rattle.nv_sockets.specs.Serving.{unless_bad, or_own, first_state, serve};
ghost use Rattle.nv_sockets.specs.declared.did.Did.TheVariants.{Nothing};
ghost use Rattle.nv_sockets.specs.Did.{did_beside, did};
ghost use Rattle.nv_fs.specs.Told.{prints};

use crate::did::Outcome;
use crate::sockets::Sockets;
use nv_calls::{Bytes, Call, MOST_BYTES, Syscall};
use nv_kernel::Devices;
use nv_script::Script;
use std::alloc::{AllocError, Global};

/// What the kernel without sockets holds, and the sockets.
#[derive(Drop)]
pub struct Host {
    pub devices: Devices,
    pub sockets: Sockets,
}

// What a call is answered to which the kernel without sockets gave this answer.
fn answer_beside(
    sockets: &mut Sockets,
    syscall: Syscall,
    call: &Call,
    own: Outcome,
    out: &mut Bytes,
) -> Outcome
    requires syscall { syscall ≡ syscall_of call.now.nr }
    requires ready { CanSend sockets.old (request call.now) }
    requires capacity { MOST_BYTES ≤ out.old.capacity }
    ensures answer { or_own sockets.old.net own.ret out.old.bytes (unless_bad sockets.old.net (request call.now)) ≡ answer sockets.new.net result.ret out.new.bytes }
    ensures did { result.did ≡ (if call.now.bad then Nothing else did_beside syscall sockets.old.net (request call.now) own.did result.ret sockets.new.net) }
    ensures held { sockets.new.held ≡ sockets.old.held }
    ensures capacity { out.new.capacity ≡ out.old.capacity }
{
    if call.bad {
        return Outcome::quiet(own.ret);
    }
    sockets.answer_as(syscall, call, own, out)
}

impl Host {
    /// What a script gives.
    pub fn make(alloc: Global, script: &Script) -> Result<Host, AllocError>
        ensures state { IfOk result (λ made. state_of made ≡ first_state (setup_of script.now)) }
        ensures whole { IfOk result (λ made. IsWhole made.sockets) }
        ensures gone { IfOk result (λ made. made.devices.files.gone ≡ 0) }
    {
        let devices = Devices::make(alloc, script)?;
        let sockets = Sockets::make(alloc, script.polls, &script.connections)?;
        Ok(Host { devices, sockets })
    }

    /// Whether no thread lives.
    pub fn is_over(&self) -> bool
        ensures { result ≡ (length (state_of self.now).own.crew.live == 0) }
    {
        self.devices.is_over()
    }

    /// The result of a call, with what it did outside and the bytes that it hands out.
    pub fn answer(&mut self, syscall: Syscall, call: &Call, out: &mut Bytes) -> Outcome
        requires syscall { syscall ≡ syscall_of call.now.nr }
        requires ready { CanAnswer self.old.devices.files (request call.now) }
        requires sends { CanSend self.old.sockets (request call.now) }
        requires few { self.old.devices.served < MOST_EVENTS }
        requires capacity { MOST_BYTES ≤ out.old.capacity }
        requires clones { (state_of self.old).own.crew.clones < MOST_EVENTS }
        ensures answer { serve (state_of self.old) (request call.now) ≡ record { state = state_of self.new; ret = result.ret; payload = out.new.bytes } }
        ensures did { result.did ≡ did (state_of self.old) (request call.now) result.ret self.new.sockets.net }
        ensures below { 64 ≤ request_arg (request call.now) 0 → prints (state_of self.old).own.files (request_arg (request call.now) 0) ≡ false }
        ensures held { self.new.sockets.held ≡ self.old.sockets.held }
        ensures whole { IsWhole self.old.sockets → IsWhole self.new.sockets }
        ensures gone { self.new.devices.files.gone ≡ self.old.devices.files.gone }
        ensures capacity { out.new.capacity ≡ out.old.capacity }
        ensures few { length out.new.bytes ≤ most_out (request call.now) }
    {
        let console = self.devices.files.prints(call.args[0]);
        let ret = self.devices.answer(syscall, call, out);
        let own = Outcome::own(syscall, console, ret);
        answer_beside(&mut self.sockets, syscall, call, own, out)
    }

    /// Memory for what the call leaves.
    pub fn reserve(&mut self, syscall: Syscall, call: &Call) -> Result<(), AllocError>
        requires syscall { syscall ≡ syscall_of call.now.nr }
        requires few { length call.now.payload.bytes ≤ MOST_BYTES }
        ensures state { state_of self.new ≡ state_of self.old }
        ensures held { self.new.sockets.held ≡ self.old.sockets.held }
        ensures whole { IsWhole self.old.sockets → IsWhole self.new.sockets }
        ensures gone { self.new.devices.files.gone ≡ self.old.devices.files.gone }
        ensures ready { OnOk result (CanAnswer self.new.devices.files (request call.now)) }
        ensures sends { OnOk result (CanSend self.new.sockets (request call.now)) }
    {
        self.devices.reserve(syscall, call)?;
        self.sockets.reserve_as(syscall, call)
    }
}
