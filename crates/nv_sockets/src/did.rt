// What a call did outside.
ghost use Rattle.std.specs.Prelude.{◌≡◌};
ghost use Rattle.nv_sockets.specs.declared.did.Did.TheVariants.{Nothing};
ghost use Rattle.nv_sockets.specs.Did.{sent, printed, by_result, own_did};
ghost use Rattle.nv_sockets.specs.declared.socket.Socket.TheVariants.{Connected};

use nv_calls::Syscall;

/// What a call did outside. Of the bytes that it handed in it sent or printed the first so many.
#[derive(Clone, Copy)]
pub enum Did {
    Nothing,
    /// It accepted this connection.
    Accepted(usize),
    /// It sent so many bytes to this connection.
    Sent(usize, usize),
    /// It closed this connection.
    Closed(usize),
    /// It printed so many bytes.
    Printed(usize),
}

/// The result of a call, and what it did outside.
#[derive(Clone, Copy)]
pub struct Outcome {
    pub ret: i32,
    pub did: Did,
}

fn printed(console: bool, count: usize) -> Did
    ensures { result ≡ printed console count }
{
    if console {
        Did::Printed(count)
    } else {
        Did::Nothing
    }
}

impl Outcome {
    /// Of a call that did nothing outside.
    pub fn quiet(ret: i32) -> Outcome
        ensures ret { result.ret ≡ ret }
        ensures did { result.did ≡ Nothing }
    {
        Outcome {
            ret,
            did: Did::Nothing,
        }
    }

    /// Of a write to this connection.
    pub(crate) fn sent(i: usize, ret: i32) -> Outcome
        ensures ret { result.ret ≡ ret }
        ensures did { result.did ≡ sent ret (Connected i) }
    {
        if ret < 0 {
            return Outcome::quiet(ret);
        }
        Outcome {
            ret,
            did: Did::Sent(i, ret as usize),
        }
    }

    fn written(console: bool, ret: i32) -> Outcome
        ensures ret { result.ret ≡ ret }
        ensures did { result.did ≡ by_result (printed console) ret }
    {
        if ret < 0 {
            return Outcome::quiet(ret);
        }
        Outcome {
            ret,
            did: printed(console, ret as usize),
        }
    }

    /// Of a call that the kernel without sockets answered, by whether its descriptor is the console's.
    pub(crate) fn own(syscall: Syscall, console: bool, ret: i32) -> Outcome
        ensures ret { result.ret ≡ ret }
        ensures did { result.did ≡ own_did syscall console ret }
    {
        match syscall {
            Syscall::Write | Syscall::Writev => Outcome::written(console, ret),
            _ => Outcome::quiet(ret),
        }
    }
}
