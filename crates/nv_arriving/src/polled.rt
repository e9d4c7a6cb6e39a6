// What ppoll and select look at: descriptors, and what of each is told (poll(2), select(2)).
ghost use Rattle.std.specs.Prelude.{◌≡◌, ◌≤◌, slice_index};
ghost use Rattle.nv_calls.specs.Calls.{request};
ghost use Rattle.nv_calls.specs.Numbers.{syscall_of};
ghost use Rattle.nv_arriving.specs.Selecting.{set_events, set_bits, has_bit, selected_at};
ghost use Rattle.nv_arriving.specs.Polling.{polled_at, looked_at, listed_count, count_as, is_passed, asks};

use nv_calls::{Call, POLLED_BYTES, Syscall, polled_count, selected_count, set_bytes, sets_bytes};
use nv_fs::polls::{FAILED, HUNG, READABLE, WRITABLE};

/// POLLPRI, which nothing has here.
const SPECIAL: u32 = 0x2;

/// What is passed over.
const PASSED: Polled = Polled {
    fd: 0xffff_ffff,
    events: 0,
};

/// A descriptor that a call looks at, and what of it is told.
#[derive(Clone, Copy)]
pub struct Polled {
    pub fd: u32,
    pub events: u32,
}

/// A byte of a list; 0 past its end.
pub(crate) fn byte(bytes: &[u8], at: usize) -> u8
    ensures { result ≡ slice_index bytes.now at }
{
    match bytes.get(at) {
        Some(byte) => *byte,
        None => 0,
    }
}

// Whether a bit is 1, counted from the lowest of the first byte.
fn has_bit(bytes: &[u8], place: u32) -> bool
    ensures { result ≡ has_bit bytes.now place }
{
    byte(bytes, (place / 8) as usize) & (1 << (place % 8)) != 0
}

// What is told of a descriptor in the first, the second and the third set.
fn set_events(set: u32) -> u32
    ensures { result ≡ set_events set }
{
    match set {
        0 => READABLE + HUNG + FAILED,
        1 => WRITABLE + FAILED,
        _ => SPECIAL,
    }
}

// The bits of one set.
fn set_bits(call: &Call) -> u32
    ensures is { result ≡ set_bits (request call.now) }
    ensures few { result ≤ 1024 }
{
    8 * set_bytes(selected_count(call.args[0]))
}

impl Polled {
    // What the place with this number has in a list of 8 bytes each.
    #[tactic(auto, unfolding(crate::specs::Polling::polled_at))]
    fn in_list(bytes: &[u8], place: u32) -> Polled
        ensures { result ≡ polled_at bytes.now place }
    {
        let at = place as usize * POLLED_BYTES as usize;
        let fd = u32::from_le_bytes([
            byte(bytes, at),
            byte(bytes, at + 1),
            byte(bytes, at + 2),
            byte(bytes, at + 3),
        ]);
        let events = u16::from_le_bytes([byte(bytes, at + 4), byte(bytes, at + 5)]);
        Polled {
            fd,
            events: u32::from(events) | (FAILED + HUNG),
        }
    }

    // The descriptor of a bit of the three sets.
    #[tactic(auto, unfolding(crate::specs::Selecting::selected_at))]
    fn in_sets(call: &Call, place: u32) -> Polled
        ensures { result ≡ selected_at (request call.now) place }
    {
        if !has_bit(call.payload.as_slice(), place) {
            return PASSED;
        }
        let bits = set_bits(call);
        if bits == 0 {
            return PASSED;
        }
        let fd = place % bits;
        if fd >= selected_count(call.args[0]) {
            return PASSED;
        }
        Polled {
            fd,
            events: set_events(place / bits),
        }
    }

    /// What a call looks at in a place.
    pub(crate) fn at(syscall: Syscall, call: &Call, place: u32) -> Polled
        requires { syscall ≡ syscall_of call.now.nr }
        ensures { result ≡ looked_at (request call.now) place }
    {
        match syscall {
            Syscall::Pselect6 => Polled::in_sets(call, place),
            _ => Polled::in_list(call.payload.as_slice(), place),
        }
    }

    /// Whether it is passed over: a number below 0.
    pub(crate) fn is_passed(self) -> bool
        ensures { result ≡ is_passed self }
    {
        self.fd >= 0x8000_0000
    }

    /// Whether one of these would be told.
    pub(crate) fn asks(self, events: u32) -> bool
        ensures { result ≡ asks self events }
    {
        self.events & events != 0
    }
}

/// How many descriptors ppoll looks at: as many as it says and its list has.
pub(crate) fn listed_count(call: &Call) -> u32
    ensures is { result ≡ listed_count (request call.now) }
    ensures few { result ≤ 408 }
{
    let listed = call.payload.as_slice().len() / POLLED_BYTES as usize;
    (polled_count(call.args[1]) as usize).min(listed) as u32
}

/// In how many places a call looks: the bits of its sets, or its list.
pub(crate) fn count_of(syscall: Syscall, call: &Call) -> u32
    requires { syscall ≡ syscall_of call.now.nr }
    ensures is { result ≡ count_as (syscall_of call.now.nr) (request call.now) }
    ensures few { result ≤ 3072 }
{
    match syscall {
        Syscall::Pselect6 => 8 * sets_bytes(&call.args),
        _ => listed_count(call),
    }
}
