// Who gives one thing after another.
ghost use Rattle.std.specs.Prelude.{◌≡◌, ◌&&◌, not, ℕ, List, Option, is_some};
ghost use Rattle.nv_calls.specs.Calls.{request};
ghost use Rattle.nv_run_tests.specs.Given.{is_input, Gives};

use nv_calls::{Call, Syscall};

/// What comes from outside: bytes, one after another, and its end.
pub trait Outside: Send + Drop {
    /// What it has given so far, or nothing, as a real one tells.
    ghost told: { Self → Option (List (Option ℕ)) };

    /// The next byte, or none at the end.
    fn next(&mut self) -> Option<u8>
        ensures { Gives (told self.old) result (told self.new) };
}

// Whether a call is a read of the input.
pub(crate) fn is_input(call: &Call) -> bool
    ensures { result ≡ is_input (request call.now) }
{
    match Syscall::of(call.nr) {
        Syscall::Read => call.args[0] == 0 && !call.bad && call.args[2] != 0,
        _ => false,
    }
}

// Whether the next thing is to be taken: the call reads the input, and nothing is kept.
pub(crate) fn wants(kept: Option<Option<u8>>, call: &Call) -> bool
    ensures { result ≡ (is_input (request call.now) && not (is_some kept)) }
{
    is_input(call) && kept.is_none()
}
