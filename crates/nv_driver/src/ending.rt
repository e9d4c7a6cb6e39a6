// How a live run ends.
ghost use Rattle.std.specs.Prelude.{◌≡◌};
ghost use Rattle.nv_driver.specs.Live.{ended_by_writes, ending_of};
ghost use Rattle.nv_driver.specs.Outcome.{ending_status};

use crate::endings::{INPUT, READ_FAULT, WRITE_FAULT};
use nv_live::Stopped;
use nv_outside::{Put, WriteFailed};
use nv_script::ArrivalCause;

/// How a live run ended, beside what its versions came to.
#[derive(Clone, Copy, Debug, PartialEq, Eq)]
pub enum Ending {
    /// Standard input ended, or the guest did before; all was written.
    Finished,
    /// A read of standard input failed.
    Unread,
    /// This line of standard input, counted from 1, was refused.
    Refused(u32, ArrivalCause),
    /// Standard input ended within this line.
    CutOff(u32),
    /// A write to standard output failed.
    Unsaid,
    /// A write of the transcript failed.
    Untold,
}

fn ended_by_writes(said: Put, told: Put) -> Ending
    ensures { result ≡ ended_by_writes said told }
{
    match (said, told) {
        (Err(WriteFailed), _) => Ending::Unsaid,
        (Ok(()), Err(WriteFailed)) => Ending::Untold,
        (Ok(()), Ok(())) => Ending::Finished,
    }
}

/// How a live run ended, by what stopped it, and whether all that was said and its transcript are written.
pub fn how_ended(stopped: Option<Stopped>, said: Put, told: Put) -> Ending
    ensures { result ≡ ending_of stopped said told }
{
    match stopped {
        Some(Stopped::Unreadable) => Ending::Unread,
        Some(Stopped::Refused(line, cause)) => Ending::Refused(line, cause),
        Some(Stopped::CutOff(line)) => Ending::CutOff(line),
        Some(Stopped::Ended | Stopped::Unwritten) | None => ended_by_writes(said, told),
    }
}

/// The status of a process that served: that of a stream that failed, or else the run's.
pub fn ending_status(ending: Ending, status: u8) -> u8
    ensures { result ≡ ending_status ending status }
{
    match ending {
        Ending::Finished => status,
        Ending::Unread => READ_FAULT,
        Ending::Refused(_, _) | Ending::CutOff(_) => INPUT,
        Ending::Unsaid | Ending::Untold => WRITE_FAULT,
    }
}
