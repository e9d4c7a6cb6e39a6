// ppoll and select: what is ready, what ends their wait, and what they answer.
ghost use Rattle.std.specs.Prelude.{◌≡◌, ◌+◌, ◌*◌, ◌^◌, ◌≤◌, ◌<◌, [], ◌++◌, length, map, is_none};
ghost use Rattle.std.specs.List.{list_any, range_with_len};
ghost use Rattle.nv_calls.specs.Answers.{sets_bytes};
ghost use Rattle.nv_calls.specs.Calls.{request};
ghost use Rattle.nv_calls.specs.Limits.{MOST_BYTES};
ghost use Rattle.nv_calls.specs.declared.numbers.Syscall.TheVariants.{Pselect6};
ghost use Rattle.nv_calls.specs.Numbers.{syscall_of};
ghost use Rattle.nv_script.specs.ArrivalViews.{view as arrival_of};
ghost use Rattle.nv_arriving.specs.Polling.{looked_at, places, connected_events, socket_events, events, told, told_of, is_ready, ready_in, ready, comes_to, calls_at, comes_in, readies, is_source, has_source, is_at_end, ends_poll, has_bad_count, is_refused, poll_waits, poll_wants, is_closed, has_closed, refuses_closed, idle_answer, ready_ret, with_bytes, told_in, ready_bits, ready_byte, told_bytes, poll_of};
ghost use Rattle.nv_arriving.specs.Views.{standing_of};

use crate::guests::GuestSide;
use crate::polled::{Polled, byte, count_of, listed_count};
use crate::timing::Until;
use crate::waiting::Want;
use arrayvec::ArrayVec;
use nv_calls::errors::{EBADF, EINTR, EINVAL};
use nv_calls::{Bytes, Call, MOST_POLLED, Syscall, sets_bytes};
use nv_fs::polls::{HUNG, READABLE, WRITABLE, when};
use nv_script::Arrival;
use nv_sockets::Socket;

/// POLLNVAL: the descriptor isn't open.
const NOT_OPEN: u32 = 0x20;

/// POLLRDHUP: the client has sent all.
const SENT_ALL: u32 = 0x2000;

// More descriptors than can be polled; a number below 0 of those that are selected.
fn has_bad_count(syscall: Syscall, call: &Call) -> bool
    requires { syscall ≡ syscall_of call.now.nr }
    ensures { result ≡ has_bad_count (syscall_of call.now.nr) (request call.now) }
{
    match syscall {
        Syscall::Pselect6 => call.args[0] >= 0x8000_0000,
        _ => call.args[1] > MOST_POLLED,
    }
}

// So, or with a time that is none.
fn is_refused(syscall: Syscall, call: &Call, until: Until) -> bool
    requires { syscall ≡ syscall_of call.now.nr }
    ensures { result ≡ is_refused (request call.now) until }
{
    has_bad_count(syscall, call) || matches!(until, Until::Bad)
}

// What is told of a descriptor of which this may be told.
fn told(polled: Polled, events: Option<u32>) -> u32
    ensures { result ≡ told polled events }
{
    match events {
        None => NOT_OPEN,
        Some(all) => all & polled.events,
    }
}

// What comes of a connection.
fn comes_to(polled: Polled, i: usize, arrival: &Arrival) -> bool
    ensures { result ≡ comes_to polled i (arrival_of arrival.now) }
{
    match arrival {
        Arrival::Data(client, _) => *client as usize == i && polled.asks(READABLE),
        Arrival::End(client) => *client as usize == i && polled.asks(READABLE + SENT_ALL),
        Arrival::Input(_) | Arrival::InputEnd | Arrival::ClientsEnd => false,
        Arrival::Connect(_) | Arrival::Time(_, _) => false,
    }
}

// A client that connects.
fn calls_at(polled: Polled, port: u32, arrival: &Arrival) -> bool
    ensures { result ≡ calls_at polled port (arrival_of arrival.now) }
{
    match arrival {
        Arrival::Connect(other) => *other == port && polled.asks(READABLE),
        Arrival::Input(_) | Arrival::InputEnd | Arrival::ClientsEnd => false,
        Arrival::Data(_, _) | Arrival::End(_) | Arrival::Time(_, _) => false,
    }
}

// What comes of the input.
fn comes_in(polled: Polled, arrival: &Arrival) -> bool
    ensures { result ≡ comes_in polled (arrival_of arrival.now) }
{
    match arrival {
        Arrival::Input(_) => polled.asks(READABLE),
        Arrival::InputEnd => polled.asks(HUNG),
        Arrival::ClientsEnd | Arrival::Connect(_) => false,
        Arrival::Data(_, _) | Arrival::End(_) | Arrival::Time(_, _) => false,
    }
}

// Bits of what select tells, and how many of them are 1.
#[derive(Clone, Copy)]
struct Bits {
    bits: u8,
    ones: u32,
}

// What a call tells, and in how many places something is told.
#[derive(Drop)]
struct Looked {
    told: ArrayVec<u8, 816>,
    ready: u32,
}

// Adds bytes, for which there is room.
fn append(list: &mut ArrayVec<u8, 816>, bytes: &[u8])
    requires { length list.old.items + length bytes.now ≤ 816 }
    ensures { list.new.items ≡ list.old.items ++ bytes.now }
{
    match list.try_extend_from_slice(bytes) {
        Ok(()) => {}
        Err(_) => unreachable!(),
    }
}

#[tactic(auto, unfolding(crate::specs::Polling::events, crate::specs::Polling::readies, crate::specs::Polling::is_source, crate::specs::Polling::ends_poll, crate::specs::Polling::poll_waits, crate::specs::Polling::poll_of))]
impl GuestSide {
    fn connected_events(&self, i: usize) -> u32
        ensures { result ≡ connected_events (standing_of self.now) i }
    {
        let received = self.host.sockets.received(i);
        let over = self.data_over || received.over;
        let some = over || received.unread;
        WRITABLE + when(some, READABLE) + when(over, SENT_ALL)
    }

    fn socket_events(&self, socket: Socket) -> u32
        ensures { result ≡ socket_events (standing_of self.now) socket }
    {
        match socket {
            Socket::Fresh | Socket::Bound(_) => WRITABLE + HUNG,
            Socket::Listening(port) => when(self.host.sockets.next_at(port).is_some(), READABLE),
            Socket::Connected(i) => self.connected_events(i),
        }
    }

    // What may be told of a descriptor; nothing where it isn't open.
    fn events(&self, fd: u32) -> Option<u32>
        ensures { result ≡ events (standing_of self.now) fd }
    {
        match self.host.sockets.at(fd) {
            Some(socket) => Some(self.socket_events(socket)),
            None => self.host.devices.files.events(fd, self.input_over),
        }
    }

    fn told_of(&self, polled: Polled) -> u32
        ensures { result ≡ told_of (standing_of self.now) polled }
    {
        if polled.is_passed() {
            return 0;
        }
        told(polled, self.events(polled.fd))
    }

    // Whether something is told of the descriptor in a place.
    fn is_ready(&self, syscall: Syscall, call: &Call, place: u32) -> bool
        requires { syscall ≡ syscall_of call.now.nr }
        ensures { result ≡ is_ready (standing_of self.now) (request call.now) place }
    {
        self.told_of(Polled::at(syscall, call, place)) != 0
    }

    // ---- what ends its wait

    // Whether the arrival makes the descriptor ready.
    fn readies(&self, arrival: &Arrival, polled: Polled) -> bool
        ensures { result ≡ readies (standing_of self.now) (arrival_of arrival.now) polled }
    {
        if polled.is_passed() {
            return false;
        }
        match self.host.sockets.at(polled.fd) {
            None => self.host.devices.files.reads_input(polled.fd) && comes_in(polled, arrival),
            Some(Socket::Fresh) | Some(Socket::Bound(_)) => false,
            Some(Socket::Listening(port)) => calls_at(polled, port, arrival),
            Some(Socket::Connected(i)) => comes_to(polled, i, arrival),
        }
    }

    // Whether it makes one of those ready that the call looks at.
    fn readies_one(&self, syscall: Syscall, call: &Call, arrival: &Arrival) -> bool
        requires { syscall ≡ syscall_of call.now.nr }
        ensures { result ≡ list_any (λ place. readies (standing_of self.now) (arrival_of arrival.now) (looked_at (request call.now) place)) (places (request call.now)) }
    {
        (0..count_of(syscall, call)).any(|place| self.readies(
            arrival,
            Polled::at(syscall, call, place),
        ))
    }

    // Whether something may still come of the descriptor that makes it ready.
    fn is_source(&self, polled: Polled) -> bool
        ensures { result ≡ is_source (standing_of self.now) polled }
    {
        if polled.is_passed() {
            return false;
        }
        match self.host.sockets.at(polled.fd) {
            None => {
                !self.input_over
                    && (self.host.devices.files.reads_input(polled.fd)
                        && polled.asks(READABLE + HUNG))
            }
            Some(Socket::Fresh) | Some(Socket::Bound(_)) | Some(Socket::Listening(_)) => false,
            Some(Socket::Connected(i)) => !self.is_over(i) && polled.asks(READABLE + SENT_ALL),
        }
    }

    // Whether the call looks at such a one.
    fn has_source(&self, syscall: Syscall, call: &Call) -> bool
        requires { syscall ≡ syscall_of call.now.nr }
        ensures { result ≡ has_source (standing_of self.now) (request call.now) }
    {
        (0..count_of(syscall, call)).any(|place| self.is_source(Polled::at(syscall, call, place)))
    }

    // Whether the service is at its end: no client comes, and nothing comes of what is looked at.
    fn is_at_end(&self, syscall: Syscall, call: &Call) -> bool
        requires { syscall ≡ syscall_of call.now.nr }
        ensures { result ≡ is_at_end (standing_of self.now) (request call.now) }
    {
        self.clients_over && !self.has_source(syscall, call)
    }

    /// Whether the arrival ends the wait of ppoll, or of select, which is over at this time.
    pub(crate) fn ends_poll(
        &self,
        syscall: Syscall,
        call: &Call,
        until: Until,
        arrival: &Arrival,
    ) -> bool
        requires { syscall ≡ syscall_of call.now.nr }
        ensures { result ≡ ends_poll (standing_of self.now) (request call.now) until (arrival_of arrival.now) }
    {
        match arrival {
            Arrival::ClientsEnd => !self.has_source(syscall, call),
            Arrival::Time(seconds, nanos) => until.is_reached(*seconds, *nanos),
            Arrival::Input(_) | Arrival::InputEnd => self.readies_one(syscall, call, arrival),
            Arrival::Connect(_) | Arrival::Data(_, _) | Arrival::End(_) => {
                self.readies_one(syscall, call, arrival)
            }
        }
    }

    // Whether ppoll waits, or select, up to this time.
    fn poll_waits(&self, syscall: Syscall, call: &Call, until: Until) -> bool
        requires { syscall ≡ syscall_of call.now.nr }
        ensures { result ≡ poll_waits (standing_of self.now) (request call.now) until }
    {
        !is_refused(syscall, call, until)
            && (self.look(syscall, call).ready == 0 && !self.is_at_end(syscall, call))
    }

    /// What ppoll waits for, or select, up to this time.
    pub(crate) fn poll_wants(&self, syscall: Syscall, call: &Call, until: Until) -> Option<Want>
        requires { syscall ≡ syscall_of call.now.nr }
        ensures { result ≡ poll_wants (standing_of self.now) (request call.now) until }
    {
        if self.poll_waits(syscall, call, until) {
            Some(Want::Ready(until))
        } else {
            None
        }
    }

    // ---- the answer

    // What is told of so many descriptors of ppoll, from a place in its list on.
    fn look_in_list(
        &self,
        looked: &mut Looked,
        syscall: Syscall,
        call: &Call,
        place: u32,
        left: u32,
    )
        requires syscall { syscall ≡ syscall_of call.now.nr }
        requires few { place + left ≤ 408 }
        requires room { length looked.old.told.items + 2 * left ≤ 816 }
        requires counted { looked.old.ready + left ≤ 3072 }
        ensures told { looked.new.told.items ≡ looked.old.told.items ++ told_in (standing_of self.now) (request call.now) (range_with_len place left) }
        ensures ready { looked.new.ready ≡ looked.old.ready + ready_in (standing_of self.now) (request call.now) (range_with_len place left) }
        ensures counted { looked.new.ready ≤ looked.old.ready + left }
    {
        if left == 0 {
            return;
        }
        let told = self.told_of(Polled::at(syscall, call, place));
        let [low, high, _, _] = told.to_le_bytes();
        append(&mut looked.told, &[low, high]);
        looked.ready += u32::from(told != 0);
        self.look_in_list(looked, syscall, call, place + 1, left - 1);
    }

    // So many bits of the sets of select, from a place on.
    fn ready_bits(&self, syscall: Syscall, call: &Call, place: u32, left: u32) -> Bits
        requires syscall { syscall ≡ syscall_of call.now.nr }
        requires few { left ≤ 8 }
        requires fits { place + left ≤ 3072 }
        ensures bits { result.bits ≡ ready_bits (standing_of self.now) (request call.now) place left }
        ensures below { result.bits < 2 ^ left }
        ensures ones { result.ones ≡ ready_in (standing_of self.now) (request call.now) (range_with_len place left) }
        ensures few { result.ones ≤ left }
    {
        if left == 0 {
            return Bits { bits: 0, ones: 0 };
        }
        let first = self.is_ready(syscall, call, place);
        let rest = self.ready_bits(syscall, call, place + 1, left - 1);
        Bits {
            bits: u8::from(first) + 2 * rest.bits,
            ones: u32::from(first) + rest.ones,
        }
    }

    // The byte of the sets with this number. Most have no bit where there are many descriptors.
    fn ready_byte(&self, call: &Call, at: u32) -> Bits
        requires selects { syscall_of call.now.nr ≡ Pselect6 }
        requires fits { 8 * at + 8 ≤ 3072 }
        ensures bits { result.bits ≡ ready_byte (standing_of self.now) (request call.now) at }
        ensures ones { result.ones ≡ ready_in (standing_of self.now) (request call.now) (range_with_len (8 * at) 8) }
        ensures few { result.ones ≤ 8 }
    {
        if byte(call.payload.as_slice(), at as usize) == 0 {
            return Bits { bits: 0, ones: 0 };
        }
        self.ready_bits(Syscall::Pselect6, call, 8 * at, 8)
    }

    // The sets of select, with those that are ready alone.
    fn look_in_sets(&self, looked: &mut Looked, call: &Call)
        requires selects { syscall_of call.now.nr ≡ Pselect6 }
        requires empty { looked.old.told.items ≡ [] }
        requires none { looked.old.ready ≡ 0 }
        ensures told { looked.new.told.items ≡ map (ready_byte (standing_of self.now) (request call.now)) (range_with_len 0 (sets_bytes call.now.args)) }
        ensures ready { looked.new.ready ≡ ready_in (standing_of self.now) (request call.now) (range_with_len 0 (8 * sets_bytes call.now.args)) }
        ensures few { looked.new.ready ≤ 3072 }
    {
        for at in 0..sets_bytes(&call.args) {
            let found = self.ready_byte(call, at);
            append(&mut looked.told, &[found.bits]);
            looked.ready += found.ones;
        }
    }

    // What is told of all that a call looks at, and in how many places something is.
    fn look(&self, syscall: Syscall, call: &Call) -> Looked
        requires syscall { syscall ≡ syscall_of call.now.nr }
        ensures told { result.told.items ≡ told_bytes (standing_of self.now) (request call.now) }
        ensures ready { result.ready ≡ ready (standing_of self.now) (request call.now) }
        ensures few { result.ready ≤ 3072 }
    {
        let mut looked = Looked {
            told: ArrayVec::new(),
            ready: 0,
        };
        match syscall {
            Syscall::Pselect6 => self.look_in_sets(&mut looked, call),
            _ => self.look_in_list(&mut looked, syscall, call, 0, listed_count(call)),
        }
        looked
    }

    // Whether a descriptor isn't open.
    fn is_not_open(&self, fd: u32) -> bool
        ensures { result ≡ is_none (events (standing_of self.now) fd) }
    {
        match self.host.sockets.at(fd) {
            Some(_) => false,
            None => self
                .host
                .devices
                .files
                .events(fd, self.input_over)
                .is_none(),
        }
    }

    // So, where it isn't passed over.
    fn is_closed(&self, polled: Polled) -> bool
        ensures { result ≡ is_closed (standing_of self.now) polled }
    {
        !polled.is_passed() && self.is_not_open(polled.fd)
    }

    // Whether the call looks at such a one.
    fn has_closed(&self, syscall: Syscall, call: &Call) -> bool
        requires { syscall ≡ syscall_of call.now.nr }
        ensures { result ≡ has_closed (standing_of self.now) (request call.now) }
    {
        (0..count_of(syscall, call)).any(|place| self.is_closed(Polled::at(syscall, call, place)))
    }

    // Whether the call is refused for it: ppoll tells of it.
    fn refuses_closed(&self, syscall: Syscall, call: &Call) -> bool
        requires { syscall ≡ syscall_of call.now.nr }
        ensures { result ≡ refuses_closed (syscall_of call.now.nr) (standing_of self.now) (request call.now) }
    {
        match syscall {
            Syscall::Pselect6 => self.has_closed(syscall, call),
            _ => false,
        }
    }

    // Where nothing is ready: a wait that nothing ended is as one that a signal interrupts.
    fn idle_answer(&self, syscall: Syscall, call: &Call, until: Until) -> i32
        requires { syscall ≡ syscall_of call.now.nr }
        ensures { result ≡ idle_answer (standing_of self.now) (request call.now) until }
    {
        if self.is_at_end(syscall, call) {
            return EINTR;
        }
        match until {
            Until::At(seconds, nanos) => if self.is_past(seconds, nanos) {
                0
            } else {
                EINTR
            },
            Until::Never | Until::Bad => EINTR,
        }
    }

    // The result where nothing refuses the call, with what it tells. An error tells nothing.
    fn tell(&self, syscall: Syscall, call: &Call, until: Until, out: &mut Bytes) -> i32
        requires syscall { syscall ≡ syscall_of call.now.nr }
        requires empty { out.old.bytes ≡ [] }
        requires capacity { MOST_BYTES ≤ out.old.capacity }
        ensures answer { with_bytes (standing_of self.now) (request call.now) (ready_ret (standing_of self.now) (request call.now) until) ≡ (result, out.new.bytes) }
        ensures capacity { out.new.capacity ≡ out.old.capacity }
    {
        let looked = self.look(syscall, call);
        let ret = if looked.ready != 0 {
            looked.ready as i32
        } else {
            self.idle_answer(syscall, call, until)
        };
        if ret >= 0 {
            out.set(&looked.told);
        }
        ret
    }

    /// ppoll(2) and select(2) whose wait is over at this time.
    pub(crate) fn poll(&self, syscall: Syscall, call: &Call, until: Until, out: &mut Bytes) -> i32
        requires syscall { syscall ≡ syscall_of call.now.nr }
        requires empty { out.old.bytes ≡ [] }
        requires capacity { MOST_BYTES ≤ out.old.capacity }
        ensures answer { poll_of (standing_of self.now) (request call.now) until ≡ (result, out.new.bytes) }
        ensures capacity { out.new.capacity ≡ out.old.capacity }
    {
        if is_refused(syscall, call, until) {
            return EINVAL;
        }
        if self.refuses_closed(syscall, call) {
            return EBADF;
        }
        self.tell(syscall, call, until, out)
    }
}
