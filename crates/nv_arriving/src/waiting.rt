// What calls wait for, and how much of what has come they take in.
ghost use Rattle.std.specs.Prelude.{◌≡◌, ◌<◌, false, length, map, not, IfSome};
ghost use Rattle.std.specs.List.{position_from};
ghost use Rattle.nv_calls.specs.Calls.{request};
ghost use Rattle.nv_calls.specs.Numbers.{syscall_of};
ghost use Rattle.nv_arriving.specs.Arrivals.{ends, any_ends, until};
ghost use Rattle.nv_script.specs.ArrivalViews.{view as arrival_of};
ghost use Rattle.nv_arriving.specs.Views.{standing_of};

use crate::guests::GuestSide;
use crate::timing::{Until, reaches};
use nv_calls::{Call, Syscall};
use nv_script::Arrival;

/// What a call waits for.
#[derive(Clone, Copy)]
pub enum Want {
    /// Bytes for descriptor 0, or their end.
    Input,
    /// A client at this port, or that no more come.
    Client(u32),
    /// Bytes of this client, or that it has sent all.
    Data(usize),
    /// That it is so late: seconds, and nanoseconds after them.
    Time(u32, u32),
    /// That a descriptor that it looks at is ready, or that its time has come.
    Ready(Until),
}

/// What is found of a call once, when memory is taken for it: which it is, and what it takes in of the arrivals that have come.
#[derive(Clone, Copy)]
pub struct Intake {
    pub syscall: Syscall,
    /// When its wait is over.
    pub until: Until,
    /// How many it takes in, the first ones: those up to and with the one that ends its wait, or all.
    pub count: usize,
    /// The call waits, and none of them ends its wait.
    pub vain: bool,
}

impl Intake {
    /// A call that doesn't wait takes in nothing.
    pub(crate) fn nothing(syscall: Syscall, until: Until) -> Intake
        ensures { result ≡ record { syscall = syscall; until = until; count = 0; vain = false } }
    {
        Intake {
            syscall,
            until,
            count: 0,
            vain: false,
        }
    }
}

impl GuestSide {
    /// Whether a call that waits for this waits no longer once that has come.
    pub(crate) fn ends(&self, syscall: Syscall, call: &Call, want: Want, arrival: &Arrival) -> bool
        requires { syscall ≡ syscall_of call.now.nr }
        ensures { result ≡ ends (standing_of self.now) (request call.now) want (arrival_of arrival.now) }
    {
        match want {
            Want::Input => match arrival {
                Arrival::Input(_) | Arrival::InputEnd => true,
                Arrival::ClientsEnd => false,
                Arrival::Connect(_) | Arrival::Data(_, _) | Arrival::End(_) => false,
                Arrival::Time(_, _) => false,
            },
            Want::Client(port) => match arrival {
                Arrival::Input(_) | Arrival::InputEnd => false,
                Arrival::ClientsEnd => true,
                Arrival::Connect(other) => *other == port,
                Arrival::Data(_, _) | Arrival::End(_) | Arrival::Time(_, _) => false,
            },
            Want::Data(i) => match arrival {
                Arrival::Input(_) | Arrival::InputEnd | Arrival::ClientsEnd => false,
                Arrival::Connect(_) | Arrival::Time(_, _) => false,
                Arrival::Data(client, _) => *client as usize == i,
                Arrival::End(client) => *client as usize == i,
            },
            Want::Time(seconds, nanos) => match arrival {
                Arrival::Input(_) | Arrival::InputEnd | Arrival::ClientsEnd => false,
                Arrival::Connect(_) | Arrival::Data(_, _) | Arrival::End(_) => false,
                Arrival::Time(now, more) => reaches(*now, *more, seconds, nanos),
            },
            Want::Ready(until) => self.ends_poll(syscall, call, until, arrival),
        }
    }

    // The place of the first that ends the wait.
    fn first_end(
        &self,
        syscall: Syscall,
        call: &Call,
        want: Want,
        arrivals: &[Arrival],
    ) -> Option<usize>
        requires { syscall ≡ syscall_of call.now.nr }
        ensures is { result ≡ position_from (λ a. ends (standing_of self.now) (request call.now) want (arrival_of a)) 0 arrivals.now }
        ensures inside { IfSome result (λ place. place < length arrivals.now) }
    {
        arrivals
            .iter()
            .position(|arrival| self.ends(syscall, call, want, arrival))
    }

    /// What a call takes in that waits for this, where these have come; its wait is over at this time.
    pub(crate) fn intake(
        &self,
        syscall: Syscall,
        call: &Call,
        over_at: Until,
        want: Want,
        arrivals: &[Arrival],
    ) -> Intake
        requires { syscall ≡ syscall_of call.now.nr }
        ensures syscall { result.syscall ≡ syscall }
        ensures until { result.until ≡ over_at }
        ensures count { result.count ≡ until (ends (standing_of self.now) (request call.now) want) (map arrival_of arrivals.now) }
        ensures vain { result.vain ≡ not (any_ends (ends (standing_of self.now) (request call.now) want) (map arrival_of arrivals.now)) }
    {
        match self.first_end(syscall, call, want, arrivals) {
            Some(place) => Intake {
                syscall,
                until: over_at,
                count: place + 1,
                vain: false,
            },
            None => Intake {
                syscall,
                until: over_at,
                count: arrivals.len(),
                vain: true,
            },
        }
    }
}
