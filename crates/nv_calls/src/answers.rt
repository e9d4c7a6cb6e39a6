// How many bytes a call hands out, and where they go.
ghost use Rattle.std.specs.Prelude.{◌≡◌, ◌≤◌, ◌+◌, ◌*◌, IfSome};
ghost use Rattle.nv_calls.specs.Answers.{polled_count, selected_count, set_bytes, sets_bytes, most_out_by, answer_slot};

use crate::limits::{EVENTS_BYTES, MOST_BYTES, MOST_POLLED, MOST_SELECTED};
use crate::numbers::Syscall;

/// How many descriptors a call polls that says so many; of too many none.
pub fn polled_count(count: u32) -> u32
    ensures is { result ≡ polled_count count }
    ensures few { result ≤ 408 }
{
    if count <= MOST_POLLED { count } else { 0 }
}

/// How many descriptors a call selects among that says so many, as a signed number; of a negative number none (select(2)).
pub fn selected_count(count: u32) -> u32
    ensures is { result ≡ selected_count count }
    ensures few { result ≤ 1024 }
{
    if count.cast_signed() < 0 {
        0
    } else {
        count.min(MOST_SELECTED)
    }
}

/// The bytes of a set of so many descriptors: a bit for each, in words of 32 bits.
pub fn set_bytes(count: u32) -> u32
    ensures is { result ≡ set_bytes count }
    ensures few { 8 * result ≤ count + 31 }
{
    count.div_ceil(32) * 4
}

/// The bytes of the three sets of pselect6: of those that are readable, writable and in a special state.
pub fn sets_bytes(args: &[u32; 6]) -> u32
    ensures { result ≡ sets_bytes args.now }
{
    3 * set_bytes(selected_count(args[0]))
}

impl Syscall {
    /// How many bytes the call hands out at most, with these arguments.
    pub fn most_out(self, args: &[u32; 6]) -> u32
        ensures { result ≡ most_out_by self args.now }
    {
        match self {
            Syscall::Getcwd => args[1].min(2),
            Syscall::Pipe2 | Syscall::Llseek => 8,
            Syscall::Read => args[2].min(MOST_BYTES),
            Syscall::Readv => args[3].min(MOST_BYTES),
            Syscall::Uname => 390,
            Syscall::Getrandom => args[1].min(MOST_BYTES),
            Syscall::ClockGettime64 => 16,
            Syscall::Pselect6 => sets_bytes(args),
            Syscall::Ppoll => EVENTS_BYTES * polled_count(args[1]),
            _ => 0,
        }
    }

    /// The argument that is the address of the place of the answer's bytes, unless vectors, the sets of pselect6 or the list of ppoll name it.
    pub fn answer_slot(self) -> Option<u8>
        ensures is { result ≡ answer_slot self }
        ensures inside { IfSome result (λ slot. slot ≤ 5) }
    {
        match self {
            Syscall::Getcwd | Syscall::Pipe2 | Syscall::Uname | Syscall::Getrandom => Some(0),
            Syscall::Read | Syscall::ClockGettime64 => Some(1),
            Syscall::Llseek => Some(3),
            _ => None,
        }
    }
}
