// socket, bind and listen.
ghost use Rattle.std.specs.Prelude.{◌≡◌, ◌+◌, ◌≤◌, ◌<◌, [], length};
ghost use Rattle.nv_calls.specs.Answer.{answer};
ghost use Rattle.nv_sockets.specs.Sockets.{are_flags, is_stream, is_tcp, is_size, port_by, port_in, socket_of, bind_to, bind_socket, bind_of, listen_socket, listen_of};

use crate::places::fault_of;
use crate::socket::Socket;
use crate::sockets::Sockets;
use nv_calls::errors::{EADDRINUSE, EINVAL, EMFILE};

const AF_INET: u32 = 2;

const IPPROTO_TCP: u32 = 6;

const SOCK_STREAM: u32 = 1;

const SOCK_NONBLOCK: u32 = 0x800;

const SOCK_CLOEXEC: u32 = 0x80000;

// SOCK_STREAM with or without SOCK_NONBLOCK and SOCK_CLOEXEC, which change nothing here.
fn is_stream(kind: u32) -> bool
    ensures { result ≡ is_stream kind }
{
    kind == SOCK_STREAM
        || kind == SOCK_STREAM | SOCK_NONBLOCK
        || kind == SOCK_STREAM | SOCK_CLOEXEC
        || kind == SOCK_STREAM | SOCK_NONBLOCK | SOCK_CLOEXEC
}

// A stream of AF_INET, by TCP or with no protocol named.
fn is_tcp(domain: u32, kind: u32, protocol: u32) -> bool
    ensures { result ≡ is_tcp domain kind protocol }
{
    domain == AF_INET && is_stream(kind) && (protocol == 0 || protocol == IPPROTO_TCP)
}

/// Whether there is no flag but SOCK_NONBLOCK and SOCK_CLOEXEC, which change nothing here.
pub fn are_flags(flags: u32) -> bool
    ensures { result ≡ are_flags flags }
{
    flags == 0
        || flags == SOCK_NONBLOCK
        || flags == SOCK_CLOEXEC
        || flags == SOCK_NONBLOCK | SOCK_CLOEXEC
}

fn is_size(size: u32) -> bool
    ensures { result ≡ is_size size }
{
    size >= 16 && size <= 128
}

// The port of an address of IPv4 that begins with these bytes.
fn port_by(a: u8, b: u8, c: u8, d: u8) -> Option<u32>
    ensures { result ≡ port_by a b c d }
{
    if a == 2 && b == 0 {
        Some(u32::from(u16::from_be_bytes([c, d])))
    } else {
        None
    }
}

fn port_in(address: &[u8]) -> Option<u32>
    ensures { result ≡ port_in address.now }
{
    if address.len() < 4 {
        return None;
    }
    port_by(address[0], address[1], address[2], address[3])
}

#[tactic(auto, unfolding(crate::specs::Sockets::socket_of, crate::specs::Sockets::bind_of, crate::specs::Sockets::listen_of))]
impl Sockets {
    /// socket(2).
    pub(crate) fn make_socket(&mut self, domain: u32, kind: u32, protocol: u32) -> i32
        ensures answer { socket_of self.old.net domain kind protocol ≡ answer self.new.net result [] }
        ensures held { self.new.held ≡ self.old.held }
    {
        if !is_tcp(domain, kind, protocol) {
            return EINVAL;
        }
        let Some(place) = self.free_place() else {
            return EMFILE;
        };
        self.install(place, Socket::Fresh)
    }

    fn bind_to(&mut self, fd: u32, port: Option<u32>) -> i32
        requires low { 64 ≤ fd }
        requires high { fd < 64 + length self.old.net.sockets }
        ensures answer { bind_to self.old.net fd port ≡ answer self.new.net result [] }
        ensures held { self.new.held ≡ self.old.held }
    {
        let Some(port) = port else {
            return EINVAL;
        };
        if self.is_used(port) {
            return EADDRINUSE;
        }
        self.put(fd, Some(Socket::Bound(port)));
        0
    }

    fn bind_socket(&mut self, fd: u32, size: u32, address: &[u8], socket: Socket) -> i32
        requires low { 64 ≤ fd }
        requires high { fd < 64 + length self.old.net.sockets }
        ensures answer { bind_socket self.old.net fd size address.now socket ≡ answer self.new.net result [] }
        ensures held { self.new.held ≡ self.old.held }
    {
        match socket {
            Socket::Fresh => {}
            Socket::Bound(_) | Socket::Listening(_) | Socket::Connected(_) => return EINVAL,
        }
        if !is_size(size) {
            return EINVAL;
        }
        let port = port_in(address);
        self.bind_to(fd, port)
    }

    /// bind(2), of an address of this size with these first bytes.
    pub(crate) fn bind(&mut self, fd: u32, size: u32, address: &[u8]) -> i32
        ensures answer { bind_of self.old.net fd size address.now ≡ answer self.new.net result [] }
        ensures held { self.new.held ≡ self.old.held }
    {
        let Some(socket) = self.at(fd) else {
            return fault_of(fd);
        };
        self.bind_socket(fd, size, address, socket)
    }

    fn listen_socket(&mut self, fd: u32, socket: Socket) -> i32
        requires low { 64 ≤ fd }
        requires high { fd < 64 + length self.old.net.sockets }
        ensures answer { listen_socket self.old.net fd socket ≡ answer self.new.net result [] }
        ensures held { self.new.held ≡ self.old.held }
    {
        match socket {
            Socket::Bound(port) => {
                self.put(fd, Some(Socket::Listening(port)));
                0
            }
            Socket::Listening(_) => 0,
            Socket::Fresh | Socket::Connected(_) => EINVAL,
        }
    }

    /// listen(2).
    pub(crate) fn listen(&mut self, fd: u32) -> i32
        ensures answer { listen_of self.old.net fd ≡ answer self.new.net result [] }
        ensures held { self.new.held ≡ self.old.held }
    {
        let Some(socket) = self.at(fd) else {
            return fault_of(fd);
        };
        self.listen_socket(fd, socket)
    }
}
