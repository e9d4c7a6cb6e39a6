// What a descriptor names, which are free, which ports are in use, and who waits.
ghost use Rattle.std.specs.Prelude.{◌≡◌, ◌<◌, ◌≤◌, ◌+◌, ◌==◌, [], length, is_none, IfSome, slice_index_or, None};
ghost use Rattle.std.specs.List.{position_from, list_any};
ghost use Rattle.nv_calls.specs.Answer.{answer};
ghost use Rattle.nv_sockets.specs.Sockets.{fault_of, socket_at, with_socket, free_place, socket_opened, has_port, is_used, first_at, next_at, without, with_accepted};

use crate::socket::Socket;
use crate::sockets::{FIRST_SOCKET, Sockets};
use crate::waiting::Waiting;
use nv_calls::errors::{EBADF, ENOTSOCK};

fn slot(sockets: &[Option<Socket>], place: usize) -> Option<Socket>
    ensures is { result ≡ slice_index_or sockets.now place None }
    ensures inside { IfSome result (λ _. place < length sockets.now) }
{
    if place < sockets.len() {
        sockets[place]
    } else {
        None
    }
}

// The first free one.
fn first_free(sockets: &[Option<Socket>]) -> Option<usize>
    ensures is { result ≡ position_from is_none 0 sockets.now }
    ensures inside { IfSome result (λ place. place < length sockets.now) }
{
    sockets.iter().position(|socket| socket.is_none())
}

fn has_port(socket: Option<Socket>, port: u32) -> bool
    ensures { result ≡ has_port port socket }
{
    match socket {
        Some(Socket::Bound(other)) => other == port,
        Some(Socket::Listening(other)) => other == port,
        Some(Socket::Fresh) => false,
        Some(Socket::Connected(_)) => false,
        None => false,
    }
}

fn any_has_port(sockets: &[Option<Socket>], port: u32) -> bool
    ensures { result ≡ list_any (has_port port) sockets.now }
{
    sockets.iter().any(|socket| has_port(*socket, port))
}

// The first that waits at the port.
fn first_at(waiting: &[Waiting], port: u32) -> Option<usize>
    ensures { result ≡ first_at port waiting.now }
{
    for one in waiting {
        if one.port == port {
            return Some(one.connection);
        }
    }
    None
}

// Where the first of this number waits.
fn place_of(waiting: &[Waiting], i: usize) -> Option<usize>
    ensures is { result ≡ position_from (λ one. one.connection == i) 0 waiting.now }
    ensures inside { IfSome result (λ place. place < length waiting.now) }
{
    waiting.iter().position(|one| one.connection == i)
}

// The first of this number waits no longer.
fn leave(waiting: &mut Vec<Waiting>, i: usize)
    ensures { waiting.new.items ≡ without i waiting.old.items }
{
    let Some(place) = place_of(waiting.as_slice(), i) else {
        return;
    };
    waiting.remove(place);
}

/// The error of a call whose descriptor isn't that of an open socket.
pub fn fault_of(fd: u32) -> i32
    ensures { result ≡ fault_of fd }
{
    if fd < FIRST_SOCKET { ENOTSOCK } else { EBADF }
}

#[tactic(auto, unfolding(crate::specs::Sockets::socket_at, crate::specs::Sockets::free_place, crate::specs::Sockets::is_used, crate::specs::Sockets::next_at))]
impl Sockets {
    /// The socket of a descriptor.
    pub fn at(&self, fd: u32) -> Option<Socket>
        ensures is { result ≡ socket_at self.now.net fd }
        ensures low { IfSome result (λ _. 64 ≤ fd) }
        ensures high { IfSome result (λ _. fd < 64 + length self.now.net.sockets) }
    {
        if fd < FIRST_SOCKET {
            return None;
        }
        slot(self.sockets.as_slice(), (fd - FIRST_SOCKET) as usize)
    }

    /// The descriptor names this socket from now on, or none.
    pub(crate) fn put(&mut self, fd: u32, socket: Option<Socket>)
        requires low { 64 ≤ fd }
        requires high { fd < 64 + length self.old.net.sockets }
        ensures { self.new ≡ record self.old { net = with_socket self.old.net fd socket } }
    {
        self.sockets[(fd - FIRST_SOCKET) as usize] = socket;
    }

    /// The place of the least descriptor that is free.
    pub fn free_place(&self) -> Option<usize>
        ensures is { result ≡ free_place self.now.net }
        ensures inside { IfSome result (λ place. place < length self.now.net.sockets) }
    {
        first_free(self.sockets.as_slice())
    }

    /// A new socket at this place; the answer is its descriptor.
    pub(crate) fn install(&mut self, place: usize, socket: Socket) -> i32
        requires { place < length self.old.net.sockets }
        ensures answer { socket_opened self.old.net place socket ≡ answer self.new.net result [] }
        ensures held { self.new.held ≡ self.old.held }
    {
        self.sockets[place] = Some(socket);
        (FIRST_SOCKET as usize + place) as i32
    }

    /// Whether an open socket is bound to the port.
    pub(crate) fn is_used(&self, port: u32) -> bool
        ensures { result ≡ is_used self.now.net port }
    {
        any_has_port(self.sockets.as_slice(), port)
    }

    /// The first connection that waits at the port.
    pub fn next_at(&self, port: u32) -> Option<usize>
        ensures { result ≡ next_at self.now.net port }
    {
        first_at(self.waiting.as_slice(), port)
    }

    /// The connection waits no longer.
    pub(crate) fn leave_queue(&mut self, i: usize)
        ensures net { self.new.net ≡ with_accepted self.old.net i }
        ensures held { self.new.held ≡ self.old.held }
    {
        leave(&mut self.waiting, i);
    }
}
