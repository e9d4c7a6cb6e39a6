// read, write and close of sockets, and the calls by their numbers.
ghost use Rattle.std.specs.Prelude.{◌≡◌, ◌+◌, ◌≤◌, ◌<◌, true, [], ◌++◌, Some, None, min, length, nat_lt, OnOk, if◌then◌else◌};
ghost use Rattle.nv_calls.specs.Answer.{answer};
ghost use Rattle.nv_calls.specs.Calls.{request};
ghost use Rattle.nv_calls.specs.Limits.{MOST_VECTORS};
ghost use Rattle.nv_sockets.specs.Sockets.{is_going, link_at, link_output, socket_at, with_link, read_link, read_socket, with_output, write_link, write_socket, close_socket};
ghost use Rattle.nv_sockets.specs.Serving.{of_open, unless_many, answered, or_own};
ghost use Rattle.nv_sockets.specs.Reserved.{HasMemory, HoldsMore, CanWriteTo, CanWrite, can_send};
ghost use Rattle.nv_sockets.specs.declared.did.Did.TheVariants.{Nothing};
ghost use Rattle.nv_sockets.specs.Did.{at_open, sent, closed, did_beside};

use crate::did::{Did, Outcome};
use crate::socket::Socket;
use crate::sockets::Sockets;
use nv_calls::errors::{ENOSPC, ENOTCONN, EPIPE};
use nv_calls::{Bytes, Call, MOST_BYTES, MOST_VECTORS, Syscall};
use nv_fs::parts::{hand_out, prefix, refuse};
use std::alloc::AllocError;

/// How many bytes a write moves at most.
const MOST_WRITTEN: usize = 0x7fff_f000;

impl Sockets {
    fn read_connection(&mut self, i: usize, n: usize, out: &mut Bytes) -> i32
        requires few { n ≤ MOST_BYTES }
        requires capacity { MOST_BYTES ≤ out.old.capacity }
        ensures answer { read_link self.old.net i n ≡ answer self.new.net result out.new.bytes }
        ensures held { self.new.held ≡ self.old.held }
        ensures capacity { out.new.capacity ≡ out.old.capacity }
    {
        let got = hand_out(self.unread(i), 0, n, out);
        self.take_read(i, n);
        got as i32
    }

    fn read_socket(&mut self, n: usize, socket: Socket, out: &mut Bytes) -> i32
        requires few { n ≤ MOST_BYTES }
        requires capacity { MOST_BYTES ≤ out.old.capacity }
        ensures answer { read_socket self.old.net n socket ≡ answer self.new.net result out.new.bytes }
        ensures held { self.new.held ≡ self.old.held }
        ensures capacity { out.new.capacity ≡ out.old.capacity }
    {
        match socket {
            Socket::Connected(i) => self.read_connection(i, n, out),
            Socket::Fresh | Socket::Bound(_) | Socket::Listening(_) => refuse(out, ENOTCONN),
        }
    }

    fn append_to(&mut self, i: usize, bytes: &[u8])
        requires memory { HasMemory self.old i (length (link_output self.old.net i) + length bytes.now) }
        requires going { is_going self.old.net i ≡ true }
        ensures net { self.new.net ≡ with_output self.old.net i (link_output self.old.net i ++ bytes.now) }
        ensures held { self.new.held ≡ self.old.held }
    {
        let Some(p) = self.place(i) else {
            return;
        };
        let mut one = self.lift(p, i);
        one.output.append(bytes);
        self.lay(p, i, one);
    }

    fn write_connection(&mut self, i: usize, bytes: &[u8]) -> i32
        requires { HoldsMore self.old i (length bytes.now) }
        ensures answer { write_link self.old.net i bytes.now ≡ answer self.new.net result [] }
        ensures held { self.new.held ≡ self.old.held }
    {
        if bytes.len() == 0 {
            return 0;
        }
        if !self.is_going(i) {
            return EPIPE;
        }
        let used = self.written_len(i);
        if used >= self.limit {
            return ENOSPC;
        }
        let part = prefix(bytes, MOST_WRITTEN.min(self.limit - used));
        self.append_to(i, part);
        part.len() as i32
    }

    fn write_socket(&mut self, bytes: &[u8], socket: Socket) -> Outcome
        requires { CanWriteTo self.old (Some socket) (length bytes.now) }
        ensures answer { write_socket self.old.net bytes.now socket ≡ answer self.new.net result.ret [] }
        ensures did { result.did ≡ sent result.ret socket }
        ensures held { self.new.held ≡ self.old.held }
    {
        match socket {
            Socket::Connected(i) => Outcome::sent(i, self.write_connection(i, bytes)),
            Socket::Fresh | Socket::Bound(_) | Socket::Listening(_) => Outcome::quiet(EPIPE),
        }
    }

    // read(2); where the descriptor isn't that of an open socket, the kernel's own answer stands.
    fn read(&mut self, fd: u32, count: u32, own: i32, out: &mut Bytes) -> i32
        requires { MOST_BYTES ≤ out.old.capacity }
        ensures answer { or_own self.old.net own out.old.bytes (of_open self.old.net fd (read_socket self.old.net (min count MOST_BYTES))) ≡ answer self.new.net result out.new.bytes }
        ensures held { self.new.held ≡ self.old.held }
        ensures capacity { out.new.capacity ≡ out.old.capacity }
    {
        let Some(socket) = self.at(fd) else {
            return own;
        };
        self.read_socket(count.min(MOST_BYTES) as usize, socket, out)
    }

    // readv(2), of vectors that hold so many bytes together.
    fn read_vectors(&mut self, fd: u32, count: u32, capacity: u32, own: i32, out: &mut Bytes) -> i32
        requires { MOST_BYTES ≤ out.old.capacity }
        ensures answer { or_own self.old.net own out.old.bytes (unless_many count (of_open self.old.net fd (read_socket self.old.net (min capacity MOST_BYTES)))) ≡ answer self.new.net result out.new.bytes }
        ensures held { self.new.held ≡ self.old.held }
        ensures capacity { out.new.capacity ≡ out.old.capacity }
    {
        if count > MOST_VECTORS {
            return own;
        }
        self.read(fd, capacity, own, out)
    }

    // write(2).
    #[tactic(auto, unfolding(crate::specs::Reserved::CanWrite))]
    fn write(&mut self, fd: u32, bytes: &[u8], own: Outcome, out: &mut Bytes) -> Outcome
        requires { CanWrite self.old fd (length bytes.now) }
        ensures answer { or_own self.old.net own.ret out.old.bytes (of_open self.old.net fd (write_socket self.old.net bytes.now)) ≡ answer self.new.net result.ret out.new.bytes }
        ensures did { result.did ≡ at_open own.did (sent result.ret) (socket_at self.old.net fd) }
        ensures held { self.new.held ≡ self.old.held }
        ensures capacity { out.new.capacity ≡ out.old.capacity }
    {
        let Some(socket) = self.at(fd) else {
            return own;
        };
        out.set(&[]);
        self.write_socket(bytes, socket)
    }

    // writev(2), of vectors that hold these bytes.
    fn write_vectors(
        &mut self,
        fd: u32,
        count: u32,
        bytes: &[u8],
        own: Outcome,
        out: &mut Bytes,
    ) -> Outcome
        requires { CanWrite self.old fd (length bytes.now) }
        ensures answer { or_own self.old.net own.ret out.old.bytes (unless_many count (of_open self.old.net fd (write_socket self.old.net bytes.now))) ≡ answer self.new.net result.ret out.new.bytes }
        ensures did { result.did ≡ (if nat_lt MOST_VECTORS count then own.did else at_open own.did (sent result.ret) (socket_at self.old.net fd)) }
        ensures held { self.new.held ≡ self.old.held }
        ensures capacity { out.new.capacity ≡ out.old.capacity }
    {
        if count > MOST_VECTORS {
            return own;
        }
        self.write(fd, bytes, own, out)
    }

    // What was written to the connection stays, and of what comes over it nothing.
    fn close_connection(&mut self, i: usize)
        ensures net { self.new.net ≡ with_link self.old.net i (record (link_at self.old.net i) { inbox = None }) }
        ensures held { self.new.held ≡ self.old.held }
    {
        let Some(p) = self.place(i) else {
            return;
        };
        let mut one = self.lift(p, i);
        one.inbox = None;
        self.lay(p, i, one);
    }

    fn close_socket(&mut self, fd: u32, socket: Socket) -> Outcome
        requires low { 64 ≤ fd }
        requires high { fd < 64 + length self.old.net.sockets }
        ensures answer { close_socket self.old.net fd socket ≡ answer self.new.net result.ret [] }
        ensures did { result.did ≡ closed socket }
        ensures held { self.new.held ≡ self.old.held }
    {
        self.put(fd, None);
        match socket {
            Socket::Connected(i) => {
                self.close_connection(i);
                Outcome {
                    ret: 0,
                    did: Did::Closed(i),
                }
            }
            Socket::Fresh | Socket::Bound(_) | Socket::Listening(_) => Outcome::quiet(0),
        }
    }

    // close(2).
    fn close(&mut self, fd: u32, own: i32, out: &mut Bytes) -> Outcome
        ensures answer { or_own self.old.net own out.old.bytes (of_open self.old.net fd (close_socket self.old.net fd)) ≡ answer self.new.net result.ret out.new.bytes }
        ensures did { result.did ≡ at_open Nothing closed (socket_at self.old.net fd) }
        ensures held { self.new.held ≡ self.old.held }
        ensures capacity { out.new.capacity ≡ out.old.capacity }
    {
        let Some(socket) = self.at(fd) else {
            return Outcome::quiet(own);
        };
        out.set(&[]);
        self.close_socket(fd, socket)
    }

    /// What a call is answered to which the kernel without sockets gave this answer.
    pub(crate) fn answer_as(
        &mut self,
        syscall: Syscall,
        call: &Call,
        own: Outcome,
        out: &mut Bytes,
    ) -> Outcome
        requires ready { can_send syscall self.old (request call.now) }
        requires capacity { MOST_BYTES ≤ out.old.capacity }
        ensures answer { or_own self.old.net own.ret out.old.bytes (answered syscall self.old.net (request call.now)) ≡ answer self.new.net result.ret out.new.bytes }
        ensures did { result.did ≡ did_beside syscall self.old.net (request call.now) own.did result.ret self.new.net }
        ensures held { self.new.held ≡ self.old.held }
        ensures capacity { out.new.capacity ≡ out.old.capacity }
    {
        let args = call.args;
        let bytes = call.payload.as_slice();
        match syscall {
            Syscall::Socket => {
                let ret = self.make_socket(args[0], args[1], args[2]);
                Outcome::quiet(refuse(out, ret))
            }
            Syscall::Bind => {
                let ret = self.bind(args[0], args[2], bytes);
                Outcome::quiet(refuse(out, ret))
            }
            Syscall::Listen => {
                let ret = self.listen(args[0]);
                Outcome::quiet(refuse(out, ret))
            }
            Syscall::Accept => {
                out.set(&[]);
                self.accept(args[0], 0)
            }
            Syscall::Accept4 => {
                out.set(&[]);
                self.accept(args[0], args[3])
            }
            Syscall::Close => self.close(args[0], own.ret, out),
            Syscall::Read => Outcome::quiet(self.read(args[0], args[2], own.ret, out)),
            Syscall::Readv => {
                Outcome::quiet(self.read_vectors(args[0], args[2], args[3], own.ret, out))
            }
            Syscall::Write => self.write(args[0], bytes, own, out),
            Syscall::Writev => self.write_vectors(args[0], args[2], bytes, own, out),
            _ => Outcome::quiet(own.ret),
        }
    }

    fn reserve_output(&mut self, i: usize, more: usize) -> Result<(), AllocError>
        ensures net { self.new.net ≡ self.old.net }
        ensures held { self.new.held ≡ self.old.held }
        ensures ok { OnOk result (HasMemory self.new i (length (link_output self.old.net i) + more)) }
    {
        let Some(p) = self.place(i) else {
            return Ok(());
        };
        let mut one = self.lift(p, i);
        let taken = one.output.reserve(more);
        self.lay(p, i, one);
        taken
    }

    fn reserve_connection(&mut self, i: usize, n: usize) -> Result<(), AllocError>
        ensures net { self.new.net ≡ self.old.net }
        ensures held { self.new.held ≡ self.old.held }
        ensures ok { OnOk result (HoldsMore self.new i n) }
    {
        let used = self.written_len(i);
        let more = n.min(self.limit.saturating_sub(used));
        self.reserve_output(i, more)
    }

    // Memory for a write of so many bytes to the descriptor.
    #[tactic(auto, unfolding(crate::specs::Reserved::CanWrite))]
    fn reserve_write(&mut self, fd: u32, n: usize) -> Result<(), AllocError>
        ensures net { self.new.net ≡ self.old.net }
        ensures held { self.new.held ≡ self.old.held }
        ensures ok { OnOk result (CanWrite self.new fd n) }
    {
        match self.at(fd) {
            Some(Socket::Connected(i)) => self.reserve_connection(i, n),
            Some(Socket::Fresh) | Some(Socket::Bound(_)) | Some(Socket::Listening(_)) => Ok(()),
            None => Ok(()),
        }
    }

    /// Memory for what the call writes to a connection.
    pub(crate) fn reserve_as(&mut self, syscall: Syscall, call: &Call) -> Result<(), AllocError>
        ensures net { self.new.net ≡ self.old.net }
        ensures held { self.new.held ≡ self.old.held }
        ensures ready { OnOk result (can_send syscall self.new (request call.now)) }
    {
        let count = call.payload.as_slice().len();
        match syscall {
            Syscall::Write | Syscall::Writev => self.reserve_write(call.args[0], count),
            _ => Ok(()),
        }
    }
}
