// The calls that are built, by their numbers.
ghost use Rattle.std.specs.Prelude.{◌≡◌};
ghost use Rattle.nv_calls.specs.Numbers.{syscall_of, slots_of, slots_by, has_range, is_local, is_later};

/// clone(2).
pub const CLONE: u32 = 220;

/// exit(2).
pub const EXIT: u32 = 93;

/// exit_group(2).
pub const EXIT_GROUP: u32 = 94;

/// A system call by Linux's numbers for RISC-V (syscalls(2)).
#[derive(Clone, Copy, Debug, PartialEq, Eq, Drop)]
pub enum Syscall {
    Getcwd,
    Dup,
    Dup3,
    Fcntl,
    Ioctl,
    Unlinkat,
    Openat,
    Close,
    Pipe2,
    Llseek,
    Read,
    Write,
    Readv,
    Writev,
    Exit,
    ExitGroup,
    Uname,
    Getpid,
    Getppid,
    Getuid,
    Geteuid,
    Getgid,
    Getegid,
    Socket,
    Bind,
    Listen,
    Accept,
    Clone,
    Accept4,
    Getrandom,
    ClockGettime64,
    ClockNanosleep,
    Pselect6,
    Ppoll,
    /// A number that isn't built.
    Unknown,
}

/// What an argument of a call is.
#[derive(Clone, Copy, Debug, PartialEq, Eq, Drop)]
pub enum Slot {
    Value,
    Address,
    Unused,
}

#[tactic(auto, unfolding(crate::specs::Numbers::syscall_of))]
impl Syscall {
    /// The call of a number.
    pub fn of(nr: u32) -> Syscall
        ensures { result ≡ syscall_of nr }
    {
        match nr {
            17 => Syscall::Getcwd,
            23 => Syscall::Dup,
            24 => Syscall::Dup3,
            25 => Syscall::Fcntl,
            29 => Syscall::Ioctl,
            35 => Syscall::Unlinkat,
            56 => Syscall::Openat,
            57 => Syscall::Close,
            59 => Syscall::Pipe2,
            62 => Syscall::Llseek,
            63 => Syscall::Read,
            64 => Syscall::Write,
            65 => Syscall::Readv,
            66 => Syscall::Writev,
            EXIT => Syscall::Exit,
            EXIT_GROUP => Syscall::ExitGroup,
            160 => Syscall::Uname,
            172 => Syscall::Getpid,
            173 => Syscall::Getppid,
            174 => Syscall::Getuid,
            175 => Syscall::Geteuid,
            176 => Syscall::Getgid,
            177 => Syscall::Getegid,
            198 => Syscall::Socket,
            200 => Syscall::Bind,
            201 => Syscall::Listen,
            202 => Syscall::Accept,
            CLONE => Syscall::Clone,
            242 => Syscall::Accept4,
            278 => Syscall::Getrandom,
            403 => Syscall::ClockGettime64,
            407 => Syscall::ClockNanosleep,
            413 => Syscall::Pselect6,
            414 => Syscall::Ppoll,
            _ => Syscall::Unknown,
        }
    }

    /// What each argument of the call is.
    pub fn slots(self) -> [Slot; 6]
        ensures { result ≡ slots_by self }
    {
        let v = Slot::Value;
        let a = Slot::Address;
        let u = Slot::Unused;
        match self {
            Syscall::Dup | Syscall::Close | Syscall::Exit | Syscall::ExitGroup | Syscall::Accept =>
                [v, u, u, u, u, u],
            Syscall::Ioctl | Syscall::Listen => [v, v, u, u, u, u],
            Syscall::Dup3 | Syscall::Fcntl | Syscall::Socket => [v, v, v, u, u, u],
            Syscall::Accept4 => [v, u, u, v, u, u],
            Syscall::Uname => [a, u, u, u, u, u],
            Syscall::Getcwd | Syscall::Pipe2 => [a, v, u, u, u, u],
            Syscall::Getrandom => [a, v, v, u, u, u],
            Syscall::ClockGettime64 => [v, a, u, u, u, u],
            Syscall::ClockNanosleep => [v, v, a, u, u, u],
            Syscall::Pselect6 => [v, a, a, a, a, u],
            Syscall::Ppoll => [a, v, a, u, u, u],
            Syscall::Unlinkat
            | Syscall::Openat
            | Syscall::Read
            | Syscall::Write
            | Syscall::Readv
            | Syscall::Writev
            | Syscall::Bind => [v, a, v, u, u, u],
            Syscall::Clone => [v, a, u, a, u, u],
            Syscall::Llseek => [v, v, v, a, v, u],
            _ => [u, u, u, u, u, u],
        }
    }

    /// Whether the call reads or writes a range of the guest's memory.
    pub fn has_range(self) -> bool
        ensures { result ≡ has_range self }
    {
        match self {
            Syscall::Getcwd
            | Syscall::Unlinkat
            | Syscall::Openat
            | Syscall::Pipe2
            | Syscall::Llseek
            | Syscall::Read
            | Syscall::Write
            | Syscall::Readv
            | Syscall::Writev
            | Syscall::Uname
            | Syscall::Bind
            | Syscall::Getrandom
            | Syscall::ClockGettime64
            | Syscall::ClockNanosleep
            | Syscall::Pselect6
            | Syscall::Ppoll => true,
            _ => false,
        }
    }
}

/// What each argument of the call with this number is. A number that isn't built has six unused arguments.
pub fn slots(nr: u32) -> [Slot; 6]
    ensures { result ≡ slots_of nr }
{
    Syscall::of(nr).slots()
}

/// Whether the process itself answers the call with this number, so that it stands in no log.
#[tactic(auto, unfolding(crate::specs::Numbers::is_local))]
pub fn is_local(nr: u32) -> bool
    ensures { result ≡ is_local nr }
{
    nr == 96 || nr == 124 || nr == 178 || nr == 214 || nr == 422
}

/// Whether only runs over scripts of the fifth form have the call with this number; in all others it isn't in the table.
#[tactic(auto, unfolding(crate::specs::Numbers::is_later))]
pub fn is_later(nr: u32) -> bool
    ensures { result ≡ is_later nr }
{
    nr == 25 || nr == 407 || nr == 413 || nr == 414
}
