// Descriptors whose calls never wait (O_NONBLOCK).
ghost use Rattle.std.specs.Prelude.{◌≡◌};
ghost use Rattle.nv_arriving.specs.NonBlocking.{each_waits, is_nonblocking_socket, with_socket};

use nv_sockets::{FIRST_SOCKET, MOST_SOCKETS};

/// Whether calls on the input never wait, and those on the socket of each descriptor.
#[derive(Clone, Copy)]
pub struct NonBlocking {
    pub input: bool,
    pub sockets: [bool; MOST_SOCKETS],
}

#[tactic(auto, unfolding(crate::specs::NonBlocking::each_waits, crate::specs::NonBlocking::is_nonblocking_socket, crate::specs::NonBlocking::with_socket))]
impl NonBlocking {
    /// Each waits.
    pub fn each_waits() -> NonBlocking
        ensures { result ≡ each_waits }
    {
        NonBlocking {
            input: false,
            sockets: [false; MOST_SOCKETS],
        }
    }

    /// Whether calls on the socket of a descriptor never wait.
    pub fn has(&self, fd: u32) -> bool
        ensures { result ≡ is_nonblocking_socket self.now fd }
    {
        if fd < FIRST_SOCKET {
            return false;
        }
        let place = (fd - FIRST_SOCKET) as usize;
        if place < MOST_SOCKETS {
            self.sockets[place]
        } else {
            false
        }
    }

    /// Calls on the socket of a descriptor never wait from now on, or do.
    pub fn set(&mut self, fd: u32, on: bool)
        ensures { self.new ≡ with_socket self.old fd on }
    {
        if fd < FIRST_SOCKET {
            return;
        }
        let place = (fd - FIRST_SOCKET) as usize;
        if place < MOST_SOCKETS {
            self.sockets[place] = on;
        }
    }
}
