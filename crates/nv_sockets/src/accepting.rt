// accept and accept4.
ghost use Rattle.std.specs.Prelude.{◌≡◌, []};
ghost use Rattle.nv_calls.specs.Answer.{answer};
ghost use Rattle.nv_sockets.specs.Sockets.{free_place, next_at, accept_next, accept_socket, accept_flagged, accept_of};
ghost use Rattle.nv_sockets.specs.Did.{accepted_by};

use crate::binding::are_flags;
use crate::did::{Did, Outcome};
use crate::places::fault_of;
use crate::socket::Socket;
use crate::sockets::Sockets;
use nv_calls::errors::{EAGAIN, EINVAL, EMFILE};

#[tactic(auto, unfolding(crate::specs::Sockets::accept_of))]
impl Sockets {
    fn accept_next(&mut self, port: u32) -> Outcome
        ensures answer { accept_next self.old.net (free_place self.old.net) (next_at self.old.net port) ≡ answer self.new.net result.ret [] }
        ensures did { result.did ≡ accepted_by self.new.net result.ret }
        ensures held { self.new.held ≡ self.old.held }
    {
        let Some(place) = self.free_place() else {
            return Outcome::quiet(EMFILE);
        };
        let Some(i) = self.next_at(port) else {
            return Outcome::quiet(EAGAIN);
        };
        self.leave_queue(i);
        Outcome {
            ret: self.install(place, Socket::Connected(i)),
            did: Did::Accepted(i),
        }
    }

    fn accept_socket(&mut self, socket: Socket) -> Outcome
        ensures answer { accept_socket self.old.net socket ≡ answer self.new.net result.ret [] }
        ensures did { result.did ≡ accepted_by self.new.net result.ret }
        ensures held { self.new.held ≡ self.old.held }
    {
        match socket {
            Socket::Listening(port) => self.accept_next(port),
            Socket::Fresh | Socket::Bound(_) | Socket::Connected(_) => Outcome::quiet(EINVAL),
        }
    }

    fn accept_flagged(&mut self, flags: u32, socket: Socket) -> Outcome
        ensures answer { accept_flagged self.old.net flags socket ≡ answer self.new.net result.ret [] }
        ensures did { result.did ≡ accepted_by self.new.net result.ret }
        ensures held { self.new.held ≡ self.old.held }
    {
        if !are_flags(flags) {
            return Outcome::quiet(EINVAL);
        }
        self.accept_socket(socket)
    }

    /// accept(2), and accept4(2) with these flags.
    pub(crate) fn accept(&mut self, fd: u32, flags: u32) -> Outcome
        ensures answer { accept_of self.old.net fd flags ≡ answer self.new.net result.ret [] }
        ensures did { result.did ≡ accepted_by self.new.net result.ret }
        ensures held { self.new.held ≡ self.old.held }
    {
        let Some(socket) = self.at(fd) else {
            return Outcome::quiet(fault_of(fd));
        };
        self.accept_flagged(flags, socket)
    }
}
