// The form of a call that a guest can make.
ghost use Rattle.std.specs.Prelude.{◌≡◌, ◌==◌, not, nat_le};
ghost use Rattle.std.specs.List.{list_all};
ghost use Rattle.nv_calls.specs.Calls.{request};
ghost use Rattle.nv_calls.specs.Shapes.{is_plain, are_plain, kept_slots, most_of_vectors, is_capacity, is_path, is_timed, is_payload, is_shaped_as, is_shaped};

use crate::answers::{polled_count, sets_bytes};
use crate::calls::Call;
use crate::limits::{MOST_ADDRESS, MOST_BYTES, MOST_PATH, MOST_VECTORS, POLLED_BYTES, TIME_BYTES};
use crate::numbers::{Slot, Syscall, is_local};

/// Whether the call has the form of those that a guest makes and that are logged.
#[tactic(auto, unfolding(crate::specs::Shapes::is_shaped))]
pub fn shaped(call: &Call) -> bool
    ensures { result ≡ is_shaped (request call.now) }
{
    !is_local(call.nr) && is_shaped_as(Syscall::of(call.nr), call)
}

fn is_shaped_as(syscall: Syscall, call: &Call) -> bool
    ensures { result ≡ is_shaped_as syscall (request call.now) }
{
    are_plain(&kept_slots(syscall), &call.args)
        && (!call.bad || syscall.has_range())
        && is_capacity(syscall, call)
        && if call.bad {
            call.payload.as_slice().len() == 0
        } else {
            is_payload(syscall, call)
        }
}

fn kept_slots(syscall: Syscall) -> [Slot; 6]
    ensures { result ≡ kept_slots syscall }
{
    let mut slots = syscall.slots();
    if syscall == Syscall::Readv {
        slots[3] = Slot::Value;
    }
    slots
}

// Whether each argument that is no value is 0.
fn are_plain(slots: &[Slot], args: &[u32]) -> bool
    ensures { result ≡ are_plain slots.now args.now }
{
    if let Some((slot, slots)) = slots.split_first() {
        if let Some((arg, args)) = args.split_first() {
            return is_plain(*slot, *arg) && are_plain(slots, args);
        }
    }
    true
}

fn is_plain(slot: Slot, arg: u32) -> bool
    ensures { result ≡ is_plain slot arg }
{
    match slot {
        Slot::Value => true,
        Slot::Address => arg == 0,
        Slot::Unused => arg == 0,
    }
}

fn most_of_vectors(call: &Call) -> u32
    ensures { result ≡ most_of_vectors (request call.now) }
{
    if call.bad || call.args[2] > MOST_VECTORS {
        0
    } else {
        MOST_BYTES
    }
}

fn is_capacity(syscall: Syscall, call: &Call) -> bool
    ensures { result ≡ is_capacity syscall (request call.now) }
{
    match syscall {
        Syscall::Readv => call.args[3] <= most_of_vectors(call),
        _ => true,
    }
}

fn has_no_zero(bytes: &[u8]) -> bool
    ensures { result ≡ list_all (λ b. not (b == 0)) bytes.now }
{
    bytes.iter().all(|b| *b != 0)
}

fn is_path(bytes: &[u8]) -> bool
    ensures { result ≡ is_path bytes.now }
{
    bytes.len() <= MOST_PATH && has_no_zero(bytes)
}

// Whether these are so many bytes, with or without a time after them.
fn is_timed(bytes: &[u8], count: u32) -> bool
    ensures { result ≡ is_timed count bytes.now }
{
    let count = count as usize;
    bytes.len() == count || bytes.len() == count + TIME_BYTES as usize
}

fn is_payload(syscall: Syscall, call: &Call) -> bool
    ensures { result ≡ is_payload syscall (request call.now) }
{
    let bytes = call.payload.as_slice();
    match syscall {
        Syscall::Unlinkat | Syscall::Openat => is_path(bytes),
        Syscall::Write => bytes.len() == call.args[2].min(MOST_BYTES) as usize,
        Syscall::Writev => bytes.len() <= most_of_vectors(call) as usize,
        Syscall::Bind => bytes.len() == call.args[2].min(MOST_ADDRESS) as usize,
        Syscall::ClockNanosleep => is_timed(bytes, 0),
        Syscall::Pselect6 => is_timed(bytes, sets_bytes(&call.args)),
        Syscall::Ppoll => is_timed(bytes, POLLED_BYTES * polled_count(call.args[1])),
        _ => bytes.len() == 0,
    }
}
