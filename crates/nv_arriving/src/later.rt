// The calls that runs of scripts of the fifth form have, and what they change of others.
ghost use Rattle.std.specs.Prelude.{◌≡◌, ◌≤◌, ◌<◌, [], length, None, option_map};
ghost use Rattle.nv_calls.specs.Calls.{request};
ghost use Rattle.nv_calls.specs.Limits.{MOST_BYTES, MOST_EVENTS};
ghost use Rattle.nv_calls.specs.Numbers.{syscall_of};
ghost use Rattle.nv_kernel.specs.Reserved.{CanAnswer, most_out};
ghost use Rattle.nv_sockets.specs.Reserved.{CanSend};
ghost use Rattle.nv_arriving.specs.Arriving.{unless_vain, with_end, counted, would_wait, later_as, later, nonblocking_by, noted, serve_by};
ghost use Rattle.nv_arriving.specs.Doings.{said};
ghost use Rattle.nv_arriving.specs.Reserved.{IsKept};
ghost use Rattle.nv_arriving.specs.Said.{said_of};
ghost use Rattle.nv_arriving.specs.Views.{standing_of, room_of};

use crate::flags::NONBLOCK;
use crate::guests::GuestSide;
use crate::timing::Until;
use nv_calls::errors::EAGAIN;
use nv_calls::{Bytes, Call, Syscall};
use nv_sockets::Outcome;

#[tactic(auto, unfolding(crate::specs::Arriving::later, crate::specs::Arriving::serve_by))]
impl GuestSide {
    // Whether a read or the like would wait, but for its descriptor, whose calls never do.
    fn would_wait(&self, syscall: Syscall, call: &Call) -> bool
        ensures { result ≡ would_wait syscall (standing_of self.now) (request call.now) }
    {
        self.is_nonblocking(call.args[0]) && self.wants_on(syscall, call).is_some()
    }

    fn answer_as(
        &mut self,
        syscall: Syscall,
        call: &Call,
        until: Until,
        out: &mut Bytes,
    ) -> Option<i32>
        requires syscall { syscall ≡ syscall_of call.now.nr }
        requires empty { out.old.bytes ≡ [] }
        requires capacity { MOST_BYTES ≤ out.old.capacity }
        ensures answer { later_as (syscall_of call.now.nr) (standing_of self.old) (request call.now) until ≡ option_map (λ ret. record { state = counted (standing_of self.new); ret = ret; payload = out.new.bytes }) result }
        ensures none { result ≡ None → self.new ≡ self.old }
        ensures capacity { out.new.capacity ≡ out.old.capacity }
        ensures served { (standing_of self.new).state.own.served ≡ (standing_of self.old).state.own.served }
        ensures sockets { self.new.host.sockets ≡ self.old.host.sockets }
        ensures files { self.new.host.devices.files ≡ self.old.host.devices.files }
    {
        let args = call.args;
        match syscall {
            Syscall::Fcntl => Some(self.control(args[0], args[1], args[2])),
            Syscall::ClockNanosleep => Some(self.sleep(until)),
            Syscall::Ppoll | Syscall::Pselect6 => Some(self.poll(syscall, call, until, out)),
            _ => if self.would_wait(syscall, call) {
                Some(EAGAIN)
            } else {
                None
            },
        }
    }

    // What takes the place of the answer of the kernel whose calls wait for one thing, where something does.
    fn answer_later(
        &mut self,
        syscall: Syscall,
        call: &Call,
        until: Until,
        out: &mut Bytes,
    ) -> Option<i32>
        requires syscall { syscall ≡ syscall_of call.now.nr }
        requires capacity { MOST_BYTES ≤ out.old.capacity }
        requires room { (standing_of self.old).state.own.served < MOST_EVENTS }
        ensures answer { later (standing_of self.old) (request call.now) until ≡ option_map (λ ret. record { state = standing_of self.new; ret = ret; payload = out.new.bytes }) result }
        ensures none { result ≡ None → self.new ≡ self.old }
        ensures capacity { out.new.capacity ≡ out.old.capacity }
        ensures sockets { self.new.host.sockets ≡ self.old.host.sockets }
        ensures files { self.new.host.devices.files ≡ self.old.host.devices.files }
    {
        if !self.polls || call.bad {
            return None;
        }
        out.set(&[]);
        let ret = self.answer_as(syscall, call, until, out)?;
        self.host.devices.served += 1;
        Some(ret)
    }

    // A new socket's calls never wait, or do, as its flags say.
    fn note(&mut self, syscall: Syscall, call: &Call, ret: i32)
        requires { syscall ≡ syscall_of call.now.nr }
        ensures standing { standing_of self.new ≡ noted (standing_of self.old) ret (nonblocking_by (syscall_of call.now.nr) (request call.now)) }
        ensures host { self.new.host ≡ self.old.host }
    {
        if ret < 0 {
            return;
        }
        let fd = ret as u32;
        match syscall {
            Syscall::Socket => self.nonblocking.set(fd, call.args[1] & NONBLOCK != 0),
            Syscall::Accept => self.nonblocking.set(fd, false),
            Syscall::Accept4 => self.nonblocking.set(fd, call.args[3] & NONBLOCK != 0),
            _ => {}
        }
    }

    /// The answer of a call whose wait is over at this time, with what it did outside.
    pub(crate) fn answer_by(
        &mut self,
        syscall: Syscall,
        call: &Call,
        until: Until,
        out: &mut Bytes,
    ) -> Outcome
        requires syscall { syscall ≡ syscall_of call.now.nr }
        requires ready { CanAnswer self.old.host.devices.files (request call.now) }
        requires sends { CanSend self.old.host.sockets (request call.now) }
        requires few { (standing_of self.old).state.own.served < MOST_EVENTS }
        requires capacity { MOST_BYTES ≤ out.old.capacity }
        requires clones { (standing_of self.old).state.own.crew.clones < MOST_EVENTS }
        ensures answer { serve_by (standing_of self.old) (request call.now) until ≡ record { state = standing_of self.new; ret = result.ret; payload = out.new.bytes } }
        ensures said { said (standing_of self.old).state (request call.now) result.ret (standing_of self.new).state ≡ said_of result.did call.now.payload.bytes }
        ensures capacity { out.new.capacity ≡ out.old.capacity }
        ensures few { length out.new.bytes ≤ most_out (request call.now) }
        ensures held { self.new.host.sockets.held ≡ self.old.host.sockets.held }
        ensures gone { self.new.host.devices.files.gone ≡ self.old.host.devices.files.gone }
        ensures kept { IsKept (room_of self.old) → IsKept (room_of self.new) }
    {
        if let Some(ret) = self.answer_later(syscall, call, until, out) {
            return Outcome::quiet(ret);
        }
        let outcome = self.host.answer(syscall, call, out);
        if self.polls {
            self.note(syscall, call, outcome.ret);
        }
        outcome
    }

    // Nothing more comes of anything.
    fn end_all(&mut self)
        ensures standing { standing_of self.new ≡ with_end (standing_of self.old) }
        ensures host { self.new.host ≡ self.old.host }
    {
        self.input_over = true;
        self.clients_over = true;
        self.data_over = true;
    }

    /// Where a call waits in vain, nothing more comes of anything.
    pub(crate) fn tell_end(&mut self, vain: bool)
        ensures standing { standing_of self.new ≡ unless_vain vain (standing_of self.old) }
        ensures host { self.new.host ≡ self.old.host }
    {
        if vain && self.polls {
            self.end_all();
        }
    }
}
