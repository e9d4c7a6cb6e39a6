// Why bytes are no trace, and why a kernel doesn't answer as a trace says.
ghost use Rattle.std.specs.Prelude.{◌≡◌, Some};
ghost use Rattle.nv_trace.specs.Texts.{trace_text, check_text};
ghost use Rattle.nv_trace.specs.declared.fault.TraceFault.TheVariants.{Memory};
ghost use Rattle.nv_trace.specs.declared.fault.CheckFault.TheVariants as checks;

use std::alloc::{AllocError, AllocFailed};
use std::fmt;

/// Why bytes are no trace. Of several faults the first that is met is told.
#[derive(Clone, Copy, Debug, PartialEq, Eq)]
pub enum TraceFault {
    /// Fewer than twelve bytes, or others than a trace begins with.
    Magic,
    /// More events than a log may have.
    Count,
    /// The fields or the payload of this event, counted from 0, aren't there.
    Short(u32),
    /// This event is neither bad nor not bad, or its payloads are too long.
    Field(u32),
    /// Bytes after the last event.
    Extra,
    /// Want of memory.
    Memory,
}

impl fmt::Display for TraceFault {
    ghost output = { λ fault. Some (trace_text fault) };

    fn fmt<W: fmt::Write>(&self, f: &mut fmt::Formatter<W>) -> fmt::Result {
        match self {
            TraceFault::Magic => f.write_str("magic"),
            TraceFault::Count => f.write_str("count"),
            TraceFault::Short(place) => write!(f, "short {place}"),
            TraceFault::Field(place) => write!(f, "field {place}"),
            TraceFault::Extra => f.write_str("extra"),
            TraceFault::Memory => f.write_str("memory"),
        }
    }
}

impl From<AllocError> for TraceFault {
    ghost from_gives = { λ _ fault. fault ≡ Memory };

    fn from(_: AllocError) -> Self {
        TraceFault::Memory
    }
}

impl<T: Drop> From<AllocFailed<T>> for TraceFault {
    ghost from_gives = { λ _ fault. fault ≡ Memory };

    fn from(_: AllocFailed<T>) -> Self {
        TraceFault::Memory
    }
}

/// Why a kernel doesn't come to the events of a trace: the first event that has a fault, and its first fault in this order.
#[derive(Clone, Copy, Debug, PartialEq, Eq)]
pub enum CheckFault {
    /// The process has ended before this event.
    Ended(u32),
    /// No guest makes this event's call.
    Shape(u32),
    /// This event's thread doesn't live.
    Thread(u32),
    /// The kernel answers this event's call otherwise.
    Reply(u32),
    /// Want of memory.
    Memory,
}

impl fmt::Display for CheckFault {
    ghost output = { λ fault. Some (check_text fault) };

    fn fmt<W: fmt::Write>(&self, f: &mut fmt::Formatter<W>) -> fmt::Result {
        match self {
            CheckFault::Ended(place) => write!(f, "ended {place}"),
            CheckFault::Shape(place) => write!(f, "shape {place}"),
            CheckFault::Thread(place) => write!(f, "thread {place}"),
            CheckFault::Reply(place) => write!(f, "reply {place}"),
            CheckFault::Memory => f.write_str("memory"),
        }
    }
}

impl From<AllocError> for CheckFault {
    ghost from_gives = { λ _ fault. fault ≡ checks.Memory };

    fn from(_: AllocError) -> Self {
        CheckFault::Memory
    }
}
