// The guests' side: what the kernel holds, and what won't come any more.
ghost use Rattle.std.specs.Prelude.{◌≡◌, ◌≤◌, ◌<◌, List, length, map, true, false, [], ◌∷◌, None, OnOk, IfOk};
ghost use Rattle.nv_calls.specs.Calls.{Request, request};
ghost use Rattle.nv_calls.specs.Limits.{MOST_BYTES};
ghost use Rattle.nv_calls.specs.Numbers.{syscall_of};
ghost use Rattle.nv_script.specs.Views.{setup_of};
ghost use Rattle.nv_kernel.specs.Reserved.{CanAnswer};
ghost use Rattle.nv_sockets.specs.Coming.{HasPlaces};
ghost use Rattle.nv_sockets.specs.Reserved.{CanSend};
ghost use Rattle.nv_arriving.specs.Arriving.{Standing, wants_input, is_over, wants_data, read_wants, wants_client, accept_wants, wants_on, wants_as, wants, arrive, arrive_all, unless_vain, first_standing};
ghost use Rattle.nv_arriving.specs.Timing.{until_of};
ghost use Rattle.nv_arriving.specs.Said.{said_of, settled};
ghost use Rattle.nv_arriving.specs.Telling.{Adds};
ghost use Rattle.nv_arriving.specs.Reserved.{CanTakeIn, HasRoom, IsSameBut, IsKept, with_memory};
ghost use Rattle.nv_script.specs.Arrivals as spec;
ghost use Rattle.nv_script.specs.Doings.{Says};
ghost use Rattle.nv_script.specs.ArrivalViews.{view as arrival_of};
ghost use Rattle.nv_arriving.specs.Views.{standing_of, room_of};

use crate::nonblocking::NonBlocking;
use crate::prepared::Prepared;
use crate::reserving::{connects, forget_all, input_bytes, promise_all};
use crate::timing::Until;
use crate::waiting::Want;
use nv_calls::{Call, MOST_BYTES, MOST_VECTORS, Syscall};
use nv_fs::parts::prefix;
use nv_script::{Arrival, Outside, Said, Script};
use nv_sockets::{Did, Host, Socket, Sockets, are_flags};
use std::alloc::{AllocError, Global};

/// What the kernel holds, and what won't come any more: bytes for descriptor 0, clients, and bytes of any connection.
#[derive(Drop)]
pub struct GuestSide {
    pub host: Host,
    pub input_over: bool,
    pub clients_over: bool,
    pub data_over: bool,
    /// The later calls are in the table.
    pub polls: bool,
    /// The descriptors whose calls never wait.
    pub nonblocking: NonBlocking,
    alloc: Global,
    /// Where what clients send goes that will connect.
    kept: Prepared,
}

/// Says what a call did that handed in these bytes.
pub(crate) fn say<O: Outside>(outside: &mut O, did: Did, bytes: &[u8])
    ensures says { Adds O.did outside.old outside.new (map Says (said_of did bytes.now)) }
    ensures stays { O.is_over outside.old → O.is_over outside.new }
{
    match did {
        Did::Nothing => {}
        Did::Accepted(i) => outside.say(&Said::Accepted(i)),
        Did::Sent(i, count) => {
            let sent = prefix(bytes, count);
            if !sent.is_empty() {
                outside.say(&Said::Sent(i, sent));
            }
        }
        Did::Closed(i) => outside.say(&Said::Closed(i)),
        Did::Printed(count) => {
            let printed = prefix(bytes, count);
            if !printed.is_empty() {
                outside.say(&Said::Printed(printed));
            }
        }
    }
}

// What was written to the connection that a call sent bytes to or closed is let go, and the connection itself once it is closed.
fn settle(sockets: &mut Sockets, did: Did)
    ensures net { sockets.new.net ≡ sockets.old.net }
    ensures gone { sockets.new.held.gone ≡ settled sockets.old did }
{
    match did {
        Did::Sent(i, _) | Did::Closed(i) => sockets.settle(i),
        Did::Nothing | Did::Accepted(_) | Did::Printed(_) => {}
    }
}

#[tactic(auto, unfolding(crate::specs::Arriving::wants))]
impl GuestSide {
    /// What a script gives.
    pub fn make(alloc: Global, script: &Script) -> Result<GuestSide, AllocError>
        ensures standing { IfOk result (λ made. standing_of made ≡ first_standing (setup_of script.now)) }
        ensures kept { IfOk result (λ made. IsKept (room_of made)) }
    {
        let host = Host::make(alloc, script)?;
        Ok(GuestSide {
            host,
            input_over: false,
            clients_over: false,
            data_over: false,
            polls: script.polls,
            nonblocking: NonBlocking::each_waits(),
            alloc,
            kept: Prepared::none(alloc),
        })
    }

    fn wants_input(&self, fd: u32, most: u32) -> Option<Want>
        ensures { result ≡ wants_input (standing_of self.now) fd most }
    {
        if !self.input_over && (most != 0 && self.host.devices.files.waits_on_input(fd)) {
            Some(Want::Input)
        } else {
            None
        }
    }

    pub(crate) fn is_over(&self, i: usize) -> bool
        ensures { result ≡ is_over (standing_of self.now) i }
    {
        self.data_over || self.host.sockets.is_over(i)
    }

    fn wants_data(&self, i: usize, most: u32) -> Option<Want>
        ensures { result ≡ wants_data (standing_of self.now) i most }
    {
        if !self.is_over(i) && (most != 0 && !self.host.sockets.has_unread(i)) {
            Some(Want::Data(i))
        } else {
            None
        }
    }

    fn read_wants(&self, fd: u32, most: u32, socket: Option<Socket>) -> Option<Want>
        ensures { result ≡ read_wants (standing_of self.now) fd most socket }
    {
        match socket {
            None => self.wants_input(fd, most),
            Some(Socket::Fresh) | Some(Socket::Bound(_)) | Some(Socket::Listening(_)) => None,
            Some(Socket::Connected(i)) => self.wants_data(i, most),
        }
    }

    fn wants_client(&self, port: u32) -> Option<Want>
        ensures { result ≡ wants_client (standing_of self.now) port }
    {
        if !self.clients_over
            && (self.host.sockets.free_place().is_some()
                && self.host.sockets.next_at(port).is_none())
        {
            Some(Want::Client(port))
        } else {
            None
        }
    }

    fn accept_wants(&self, flags: u32, socket: Option<Socket>) -> Option<Want>
        ensures { result ≡ accept_wants (standing_of self.now) flags socket }
    {
        match socket {
            Some(Socket::Listening(port)) => if are_flags(flags) {
                self.wants_client(port)
            } else {
                None
            },
            Some(Socket::Fresh) | Some(Socket::Bound(_)) | Some(Socket::Connected(_)) => None,
            None => None,
        }
    }

    /// What a call would wait for on the descriptor of its first argument, were it to wait.
    pub(crate) fn wants_on(&self, syscall: Syscall, call: &Call) -> Option<Want>
        ensures { result ≡ wants_on syscall (standing_of self.now) (request call.now) }
    {
        let args = call.args;
        let socket = self.host.sockets.at(args[0]);
        match syscall {
            Syscall::Read => self.read_wants(args[0], args[2], socket),
            Syscall::Readv => if args[2] > MOST_VECTORS {
                None
            } else {
                self.read_wants(args[0], args[3], socket)
            },
            Syscall::Accept => self.accept_wants(0, socket),
            Syscall::Accept4 => self.accept_wants(args[3], socket),
            _ => None,
        }
    }

    fn wants_as(&self, syscall: Syscall, call: &Call, until: Until) -> Option<Want>
        requires syscall { syscall ≡ syscall_of call.now.nr }
        requires until { until ≡ until_of (standing_of self.now) (request call.now) }
        ensures { result ≡ wants_as syscall (standing_of self.now) (request call.now) }
    {
        match syscall {
            Syscall::Ppoll | Syscall::Pselect6 => if self.polls {
                self.poll_wants(syscall, call, until)
            } else {
                None
            },
            Syscall::ClockNanosleep => if self.polls {
                self.sleep_wants(until)
            } else {
                None
            },
            _ => if self.is_nonblocking(call.args[0]) {
                None
            } else {
                self.wants_on(syscall, call)
            },
        }
    }

    /// What a call waits for, until this time; nothing where it doesn't wait.
    pub(crate) fn wants(&self, syscall: Syscall, call: &Call, until: Until) -> Option<Want>
        requires syscall { syscall ≡ syscall_of call.now.nr }
        requires until { until ≡ until_of (standing_of self.now) (request call.now) }
        ensures { result ≡ wants (standing_of self.now) (request call.now) }
    {
        if call.bad {
            return None;
        }
        self.wants_as(syscall, call, until)
    }

    // One more client connects, for which there is memory.
    fn connect(&mut self, port: u32)
        requires { HasRoom (room_of self.old) (spec.Connect port ∷ []) }
        ensures standing { standing_of self.new ≡ arrive (standing_of self.old) (spec.Connect port) }
        ensures devices { self.new.host.devices ≡ self.old.host.devices }
        ensures room { (xs : List spec.Arrival) → HasRoom (room_of self.old) (spec.Connect port ∷ xs) → HasRoom (room_of self.new) xs }
        ensures kept { IsKept (room_of self.old) → IsKept (room_of self.new) }
    {
        let inbox = self.kept.take_last();
        self.host.sockets.connect(port, inbox);
    }

    // One more arrives, for which there is memory.
    fn arrive(&mut self, arrival: &Arrival)
        requires { HasRoom (room_of self.old) (arrival_of arrival.now ∷ []) }
        ensures standing { standing_of self.new ≡ arrive (standing_of self.old) (arrival_of arrival.now) }
        ensures disk { IsSameBut self.old.host.devices.files self.new.host.devices.files }
        ensures room { (xs : List spec.Arrival) → HasRoom (room_of self.old) (arrival_of arrival.now ∷ xs) → HasRoom (room_of self.new) xs }
        ensures kept { IsKept (room_of self.old) → IsKept (room_of self.new) }
    {
        match arrival {
            Arrival::Input(bytes) => self.host.devices.files.take_in(bytes.as_slice()),
            Arrival::InputEnd => self.input_over = true,
            Arrival::ClientsEnd => self.clients_over = true,
            Arrival::Connect(port) => self.connect(*port),
            Arrival::Data(client, bytes) => self
                .host
                .sockets
                .add_data(*client as usize, bytes.as_slice()),
            Arrival::End(client) => self.host.sockets.end(*client as usize),
            Arrival::Time(seconds, nanos) => self.host.devices.reach(*seconds, *nanos),
        }
    }

    // These arrive, for which there is memory.
    fn arrive_all(&mut self, arrivals: &[Arrival])
        requires { CanTakeIn (room_of self.old) (map arrival_of arrivals.now) }
        ensures standing { standing_of self.new ≡ arrive_all (standing_of self.old) (map arrival_of arrivals.now) }
        ensures disk { IsSameBut self.old.host.devices.files self.new.host.devices.files }
        ensures none { length arrivals.now ≡ 0 → self.new.host.sockets ≡ self.old.host.sockets }
        ensures kept { IsKept (room_of self.old) → IsKept (room_of self.new) }
    {
        for arrival in arrivals {
            self.arrive(arrival);
        }
    }

    /// These arrive, for which there is memory; and where a call waits in vain nothing more comes of anything.
    pub(crate) fn take_in(&mut self, arrivals: &[Arrival], vain: bool)
        requires { CanTakeIn (room_of self.old) (map arrival_of arrivals.now) }
        ensures standing { standing_of self.new ≡ unless_vain vain (arrive_all (standing_of self.old) (map arrival_of arrivals.now)) }
        ensures served { (standing_of self.new).state.own.served ≡ (standing_of self.old).state.own.served }
        ensures clones { (standing_of self.new).state.own.crew.clones ≡ (standing_of self.old).state.own.crew.clones }
        ensures ready { (call : Request) → CanAnswer self.old.host.devices.files call → CanAnswer self.new.host.devices.files call }
        ensures sends { (call : Request) → (wants (standing_of self.old) call ≡ None → length arrivals.now ≡ 0) → CanSend self.old.host.sockets call → CanSend self.new.host.sockets call }
        ensures kept { IsKept (room_of self.old) → IsKept (room_of self.new) }
    {
        self.arrive_all(arrivals);
        self.tell_end(vain);
    }

    // What was said is let go: the console, and what was written to a connection.
    fn let_go(&mut self, did: Did)
        ensures standing { standing_of self.new ≡ standing_of self.old }
        ensures console { self.new.host.devices.files.gone ≡ length self.new.host.devices.files.state.console }
        ensures written { self.new.host.sockets.held.gone ≡ settled self.old.host.sockets did }
    {
        self.host.devices.files.let_console_go();
        settle(&mut self.host.sockets, did);
    }

    /// So, where it isn't kept.
    pub(crate) fn let_go_unless(&mut self, keeps: bool, did: Did)
        ensures standing { standing_of self.new ≡ standing_of self.old }
        ensures kept { keeps ≡ true → self.new ≡ self.old }
        ensures console { keeps ≡ false → self.new.host.devices.files.gone ≡ length self.new.host.devices.files.state.console }
        ensures written { keeps ≡ false → self.new.host.sockets.held.gone ≡ settled self.old.host.sockets did }
    {
        if !keeps {
            self.let_go(did);
        }
    }

    // Memory for so many more clients.
    fn reserve_clients(&mut self, count: usize) -> Result<(), AllocError>
        ensures standing { standing_of self.new ≡ standing_of self.old }
        ensures files { self.new.host.devices.files ≡ self.old.host.devices.files }
        ensures sockets { self.new.host.sockets ≡ with_memory self.old.host.sockets self.new.host.sockets }
        ensures places { OnOk result (HasPlaces self.new.host.sockets count) }
        ensures kept { OnOk result (length (room_of self.new).kept ≡ count) }
    {
        self.host.sockets.reserve_clients(count)?;
        self.kept = Prepared::make(self.alloc, count)?;
        Ok(())
    }

    // Memory for these.
    fn reserve_room(&mut self, arrivals: &[Arrival]) -> Result<(), AllocError>
        ensures standing { standing_of self.new ≡ standing_of self.old }
        ensures state { self.new.host.devices.files.state ≡ self.old.host.devices.files.state }
        ensures reserved { self.new.host.devices.files.reserved ≡ record self.old.host.devices.files.reserved { input = self.new.host.devices.files.reserved.input } }
        ensures gone { self.new.host.devices.files.gone ≡ self.old.host.devices.files.gone }
        ensures sockets { self.new.host.sockets ≡ with_memory self.old.host.sockets self.new.host.sockets }
        ensures takes { OnOk result (HasRoom (room_of self.new) (map arrival_of arrivals.now)) }
    {
        let bytes = input_bytes(arrivals)?;
        self.host.devices.files.reserve_input(bytes)?;
        self.reserve_clients(connects(arrivals))?;
        forget_all(&mut self.host.sockets, arrivals);
        promise_all(&mut self.host.sockets, &mut self.kept, arrivals)
    }

    // Memory for these, where there are some.
    fn reserve_some(&mut self, arrivals: &[Arrival]) -> Result<(), AllocError>
        ensures standing { standing_of self.new ≡ standing_of self.old }
        ensures state { self.new.host.devices.files.state ≡ self.old.host.devices.files.state }
        ensures reserved { self.new.host.devices.files.reserved ≡ record self.old.host.devices.files.reserved { input = self.new.host.devices.files.reserved.input } }
        ensures gone { self.new.host.devices.files.gone ≡ self.old.host.devices.files.gone }
        ensures sockets { self.new.host.sockets ≡ with_memory self.old.host.sockets self.new.host.sockets }
        ensures takes { OnOk result (CanTakeIn (room_of self.new) (map arrival_of arrivals.now)) }
    {
        if arrivals.is_empty() {
            return Ok(());
        }
        self.reserve_room(arrivals)
    }

    /// Memory for what the call leaves, and for these, which it takes in.
    pub(crate) fn reserve(
        &mut self,
        syscall: Syscall,
        call: &Call,
        arrivals: &[Arrival],
    ) -> Result<(), AllocError>
        requires syscall { syscall ≡ syscall_of call.now.nr }
        requires few { length call.now.payload.bytes ≤ MOST_BYTES }
        ensures standing { standing_of self.new ≡ standing_of self.old }
        ensures takes { OnOk result (CanTakeIn (room_of self.new) (map arrival_of arrivals.now)) }
        ensures ready { OnOk result (CanAnswer self.new.host.devices.files (request call.now)) }
        ensures sends { OnOk result (CanSend self.new.host.sockets (request call.now)) }
        ensures kept { IsKept (room_of self.old) → IsKept (room_of self.new) }
    {
        self.host.reserve(syscall, call)?;
        self.reserve_some(arrivals)
    }
}
