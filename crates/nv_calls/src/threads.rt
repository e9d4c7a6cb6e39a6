// The calls that make and end threads.
ghost use Rattle.std.specs.Prelude.{◌≡◌};
ghost use Rattle.nv_calls.specs.Logs.{made};
ghost use Rattle.nv_calls.specs.Numbers.{is_of_threads};

use crate::numbers::{CLONE, EXIT, EXIT_GROUP};

/// Whether the call with this number makes or ends threads.
pub fn is_of_threads(nr: u32) -> bool
    ensures { result ≡ is_of_threads nr }
{
    nr == CLONE || nr == EXIT || nr == EXIT_GROUP
}

/// The thread that a positive answer to clone makes.
pub fn made(nr: u32, ret: i32) -> Option<u32>
    ensures { result ≡ made nr ret }
{
    if nr == CLONE && ret > 0 {
        Some(ret.cast_unsigned())
    } else {
        None
    }
}
