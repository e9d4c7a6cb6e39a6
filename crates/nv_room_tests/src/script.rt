//! What the stations of a room publish.
ghost use Rattle.nv_calls.specs.Calls.{request};
ghost use Rattle.nv_calls.specs.Shapes.{IsShaped};
ghost use Rattle.nv_room_tests.specs.Going.{GoesOn};
ghost use Rattle.nv_room_tests.specs.Scripts.{AreCalls};

use nv_calls::{Call, Event, same};

/// `events` calls: `opening`, then `first` and `second` in turn, and `last`, which ends all threads. Each version leads for `each` of them,
/// and the last of those that lead for the rest. A lead waits at most `most` turns for a place, and a reader takes at most `most` turns in all.
#[derive(Drop)]
pub struct Script {
    pub opening: Call,
    pub first: Call,
    pub second: Call,
    pub last: Call,
    pub events: u32,
    pub each: u32,
    pub most: u32,
}

impl Script {
    /// The call of the event with this number, where it isn't the last.
    pub(crate) fn call(&self, number: u32) -> &Call
        requires { AreCalls self.now }
        ensures shaped { IsShaped (request result.now) }
        ensures goes_on { GoesOn (request result.now) }
    {
        if number == 0 {
            &self.opening
        } else if number % 2 == 1 {
            &self.first
        } else {
            &self.second
        }
    }

    /// Whether the event with this number is one that the version leads for.
    pub(crate) fn leads(&self, version: u32, number: u32) -> bool {
        number.checked_div(self.each).unwrap_or(0) <= version
    }

    /// Whether the event is the one with this number.
    pub(crate) fn has(&self, event: &Event, number: u32) -> bool
        requires { AreCalls self.now }
    {
        let call = if number.saturating_add(1) == self.events {
            &self.last
        } else {
            self.call(number)
        };
        event.stamp == number && same(call, event)
    }
}
