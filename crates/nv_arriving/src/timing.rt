// When a wait is over.
ghost use Rattle.std.specs.Prelude.{◌≡◌, ◌+◌, ◌*◌, ◌^◌, ◌≤◌, ◌<◌, length, IfSome};
ghost use Rattle.nv_calls.specs.Calls.{request};
ghost use Rattle.nv_calls.specs.Numbers.{syscall_of};
ghost use Rattle.nv_arriving.specs.Timing.{word, time_in, at, after, is_clock, base, poll_until, sleep_until, until_of, is_past, reaches, is_reached, sleep_wants, slept};
ghost use Rattle.nv_arriving.specs.Views.{standing_of};

use crate::guests::GuestSide;
use crate::waiting::Want;
use nv_calls::errors::EINVAL;
use nv_calls::{Call, POLLED_BYTES, Syscall, polled_count, sets_bytes};

const SECOND: u128 = 1_000_000_000;

// The last second that can be told.
const LAST: u128 = 4_294_967_295;

/// When a wait is over.
#[derive(Clone, Copy)]
pub enum Until {
    /// The call has no such time.
    Never,
    /// It has one that is none.
    Bad,
    /// Seconds, and nanoseconds after them.
    At(u32, u32),
}

// A word of 32 bits.
fn word(bytes: &[u8], at: usize) -> u32
    requires { at + 4 ≤ length bytes.now }
    ensures { result ≡ word bytes.now at }
{
    u32::from_le_bytes([bytes[at], bytes[at + 1], bytes[at + 2], bytes[at + 3]])
}

// How many nanoseconds a time of 16 bytes is; nothing where it is none (clock_nanosleep(2)).
#[tactic(auto, unfolding(crate::specs::Timing::time_in, nv_kernel::specs::Serving::second))]
fn time_in(bytes: &[u8]) -> Option<u128>
    requires { length bytes.now ≡ 16 }
    ensures is { result ≡ time_in bytes.now }
    ensures few { IfSome result (λ nanos. nanos < 2 ^ 94) }
{
    let (low, high, nanos) = (word(bytes, 0), word(bytes, 4), word(bytes, 8));
    if high >= 0x8000_0000 || nanos > 999_999_999 {
        return None;
    }
    let seconds = u128::from(high) * 0x1_0000_0000 + u128::from(low);
    Some(seconds * SECOND + u128::from(nanos))
}

// A time in nanoseconds, or the last that can be told.
#[tactic(auto, unfolding(crate::specs::Timing::at, nv_kernel::specs::Serving::second))]
fn at(nanos: u128) -> Until
    ensures { result ≡ at nanos }
{
    if nanos / SECOND > LAST {
        return Until::At(LAST as u32, 999_999_999);
    }
    Until::At((nanos / SECOND) as u32, (nanos % SECOND) as u32)
}

// So long after a time.
fn after(base: u128, bytes: &[u8]) -> Until
    requires base { base < 2 ^ 65 }
    requires bytes { length bytes.now ≡ 16 }
    ensures { result ≡ after base bytes.now }
{
    match time_in(bytes) {
        None => Until::Bad,
        Some(nanos) => at(base + nanos),
    }
}

// Whether the clock of a call is one, 0 (CLOCK_REALTIME) or 1 (CLOCK_MONOTONIC).
fn is_clock(id: u32) -> bool
    ensures { result ≡ is_clock id }
{
    id <= 1
}

/// Whether the first time is at or past the second.
pub(crate) fn reaches(seconds: u32, nanos: u32, other: u32, more: u32) -> bool
    ensures { result ≡ reaches seconds nanos other more }
{
    other < seconds || (seconds == other && more <= nanos)
}

impl Until {
    /// Whether this time ends the wait.
    pub(crate) fn is_reached(self, seconds: u32, nanos: u32) -> bool
        ensures { result ≡ is_reached self seconds nanos }
    {
        match self {
            Until::At(other, more) => reaches(seconds, nanos, other, more),
            Until::Never | Until::Bad => false,
        }
    }
}

#[tactic(auto, unfolding(crate::specs::Timing::until_of, crate::specs::Timing::is_past, nv_kernel::specs::Serving::second))]
impl GuestSide {
    // What a time is counted from: now, or, with TIMER_ABSTIME (1), the clock's beginning.
    fn base(&self, flags: u32) -> u128
        ensures is { result ≡ base (standing_of self.now) flags }
        ensures few { result < 2 ^ 65 }
    {
        if flags % 2 == 1 {
            0
        } else {
            self.host.devices.now()
        }
    }

    // The time behind so many bytes.
    fn poll_until(&self, bytes: &[u8], count: u32) -> Until
        ensures { result ≡ poll_until (standing_of self.now) bytes.now count }
    {
        let start = count as usize;
        if bytes.len() != start + 16 {
            return Until::Never;
        }
        after(self.host.devices.now(), &bytes[start..])
    }

    fn sleep_until(&self, call: &Call) -> Until
        ensures { result ≡ sleep_until (standing_of self.now) (request call.now) }
    {
        let bytes = call.payload.as_slice();
        if !is_clock(call.args[0]) || bytes.len() != 16 {
            return Until::Bad;
        }
        after(self.base(call.args[1]), bytes)
    }

    /// When the wait of a call is over.
    pub(crate) fn until(&self, syscall: Syscall, call: &Call) -> Until
        requires { syscall ≡ syscall_of call.now.nr }
        ensures { result ≡ until_of (standing_of self.now) (request call.now) }
    {
        let bytes = call.payload.as_slice();
        match syscall {
            Syscall::Ppoll => self.poll_until(bytes, POLLED_BYTES * polled_count(call.args[1])),
            Syscall::Pselect6 => self.poll_until(bytes, sets_bytes(&call.args)),
            Syscall::ClockNanosleep => self.sleep_until(call),
            _ => Until::Never,
        }
    }

    /// Whether it is so late.
    pub(crate) fn is_past(&self, seconds: u32, nanos: u32) -> bool
        ensures { result ≡ is_past (standing_of self.now) seconds nanos }
    {
        u128::from(seconds) * SECOND + u128::from(nanos) <= self.host.devices.now()
    }

    /// What clock_nanosleep waits for.
    pub(crate) fn sleep_wants(&self, until: Until) -> Option<Want>
        ensures { result ≡ sleep_wants (standing_of self.now) until }
    {
        match until {
            Until::At(seconds, nanos) => if self.is_past(seconds, nanos) {
                None
            } else {
                Some(Want::Time(seconds, nanos))
            },
            Until::Never | Until::Bad => None,
        }
    }

    /// clock_nanosleep(2): where nothing more comes, the time goes by.
    pub(crate) fn sleep(&mut self, until: Until) -> i32
        ensures answer { slept (standing_of self.old) until ≡ (result, standing_of self.new) }
        ensures sockets { self.new.host.sockets ≡ self.old.host.sockets }
        ensures files { self.new.host.devices.files ≡ self.old.host.devices.files }
    {
        match until {
            Until::At(seconds, nanos) => {
                self.host.devices.reach(seconds, nanos);
                0
            }
            Until::Never | Until::Bad => EINVAL,
        }
    }
}
