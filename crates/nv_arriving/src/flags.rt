// fcntl, and whether the calls on a descriptor wait.
ghost use Rattle.std.specs.Prelude.{◌≡◌, ◌<◌, ◌^◌, IfSome};
ghost use Rattle.nv_arriving.specs.Flags.{is_nonblocking, flags, with_flags, control_of};
ghost use Rattle.nv_arriving.specs.Views.{standing_of};

use crate::guests::GuestSide;
use nv_calls::errors::{EBADF, EINVAL};
use nv_fs::polls::when;

/// O_NONBLOCK, and SOCK_NONBLOCK.
pub(crate) const NONBLOCK: u32 = 0x800;

/// O_RDWR, the access mode of a socket.
const READS_AND_WRITES: u32 = 2;

const F_GETFD: u32 = 1;

const F_SETFD: u32 = 2;

const F_GETFL: u32 = 3;

const F_SETFL: u32 = 4;

#[tactic(auto, unfolding(crate::specs::Flags::is_nonblocking, crate::specs::Flags::flags, crate::specs::Flags::control_of))]
impl GuestSide {
    /// Whether calls on the descriptor never wait.
    pub(crate) fn is_nonblocking(&self, fd: u32) -> bool
        ensures { result ≡ is_nonblocking (standing_of self.now) fd }
    {
        if self.host.sockets.at(fd).is_some() {
            return self.nonblocking.has(fd);
        }
        self.nonblocking.input && self.host.devices.files.reads_input(fd)
    }

    // The flags of a descriptor; nothing where it isn't open.
    fn flags(&self, fd: u32) -> Option<u32>
        ensures is { result ≡ flags (standing_of self.now) fd }
        ensures few { IfSome result (λ flags. flags < 2 ^ 17) }
    {
        if self.host.sockets.at(fd).is_some() {
            return Some(READS_AND_WRITES + when(self.nonblocking.has(fd), NONBLOCK));
        }
        let flags = self.host.devices.files.flags(fd)?;
        Some(flags + when(self.is_nonblocking(fd), NONBLOCK))
    }

    fn set_flags(&mut self, fd: u32, flags: u32)
        ensures standing { standing_of self.new ≡ with_flags (standing_of self.old) fd flags }
        ensures host { self.new.host ≡ self.old.host }
    {
        let on = flags & NONBLOCK != 0;
        if self.host.sockets.at(fd).is_some() {
            self.nonblocking.set(fd, on);
        } else if self.host.devices.files.reads_input(fd) {
            self.nonblocking.input = on;
        }
    }

    /// fcntl(2): no descriptor outlives exec, since there is none.
    pub(crate) fn control(&mut self, fd: u32, command: u32, value: u32) -> i32
        ensures answer { control_of (standing_of self.old) fd command value ≡ (result, standing_of self.new) }
        ensures host { self.new.host ≡ self.old.host }
    {
        let Some(flags) = self.flags(fd) else {
            return EBADF;
        };
        match command {
            F_GETFD | F_SETFD => 0,
            F_GETFL => flags as i32,
            F_SETFL => {
                self.set_flags(fd, value);
                0
            }
            _ => EINVAL,
        }
    }
}
