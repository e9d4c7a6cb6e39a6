// A call, its reply, and the two as an event.
ghost use Rattle.std.specs.Prelude.{◌≡◌, ◌↔◌, IsTrue};
ghost use Rattle.nv_calls.specs.Calls.{request, entry, status_of};
ghost use Rattle.nv_calls.specs.Profiles.{in_profile};

use crate::Bytes;
use crate::numbers::is_later;

/// A system call of a guest thread, by Linux's convention for RISC-V (syscall(2)).
#[derive(Drop)]
pub struct Call {
    /// The thread that calls.
    pub tid: u32,
    /// The number of the call.
    pub nr: u32,
    /// The arguments. One that is an address or isn't used counts as 0.
    pub args: [u32; 6],
    /// A range of memory that the call reads or writes isn't the guest's to read or write.
    pub bad: bool,
    /// The bytes that the call hands in.
    pub payload: Bytes,
}

impl Call {
    /// The exit status that a call of exit or exit_group asks for.
    pub fn status(&self) -> u8
        ensures { result ≡ status_of (request self.now) }
    {
        (self.args[0] % 256) as u8
    }

    /// The call where the later calls are in the table, or as one of a number that isn't.
    pub fn limit(&mut self, polls: bool)
        ensures call { request self.new ≡ in_profile polls (request self.old) }
        ensures capacity { self.new.payload.capacity ≡ self.old.payload.capacity }
    {
        if polls || !is_later(self.nr) {
            return;
        }
        self.args = [0; 6];
        self.bad = false;
        self.payload.set(&[]);
    }
}

/// What a call was answered.
#[derive(Drop)]
pub struct Reply {
    /// The result; an error is -4095 to -1, by Linux's numbers (errno(3)).
    pub ret: i32,
    /// The bytes that the call hands out.
    pub payload: Bytes,
}

/// One call with its reply, as the log has it.
#[derive(Drop)]
pub struct Event {
    /// The place in the log, from 0.
    pub stamp: u32,
    pub call: Call,
    pub reply: Reply,
}

/// Whether the event is of this very call: all five fields are equal.
pub fn same(call: &Call, event: &Event) -> bool
    ensures { IsTrue result ↔ (request call.now ≡ (entry event.now).call) }
{
    let other = &event.call;
    call.tid == other.tid
        && call.nr == other.nr
        && call.bad == other.bad
        && call.args == other.args
        && call.payload.as_slice() == other.payload.as_slice()
}
