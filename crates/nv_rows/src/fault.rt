// Why a row isn't read.
use std::alloc::{AllocError, AllocFailed};
use std::error::Error;
use std::fmt;

/// Why a row or a text with a name isn't read.
#[derive(Clone, Copy, Debug)]
pub enum RowFault {
    /// A line that has no such place.
    Line,
    /// A field that isn't there: the words or the status.
    Missing,
    /// A `$` that stands for nothing.
    Escape,
    /// A name that no text or file before it has.
    Name,
    /// What should be a number, and isn't one of its kind.
    Number,
    /// A name, or a field that stands once, for the second time.
    Twice,
    /// A field that says nothing without content, and has none.
    Empty,
    /// A line of a table that has more or fewer columns than its head.
    Columns,
    Memory,
}

impl fmt::Display for RowFault {
    fn fmt<W: fmt::Write>(&self, f: &mut fmt::Formatter<W>) -> fmt::Result {
        match self {
            RowFault::Line => write!(f, "a line out of place"),
            RowFault::Missing => write!(f, "no words or no status"),
            RowFault::Escape => write!(f, "a $ that stands for nothing"),
            RowFault::Name => write!(f, "an unknown name"),
            RowFault::Number => write!(f, "not a number"),
            RowFault::Twice => write!(f, "a name or a field that stands twice"),
            RowFault::Empty => write!(f, "a field without its content"),
            RowFault::Columns => write!(f, "a table's line of other columns"),
            RowFault::Memory => write!(f, "no memory"),
        }
    }
}

impl Error for RowFault {}

impl From<AllocError> for RowFault {
    fn from(_error: AllocError) -> RowFault {
        RowFault::Memory
    }
}

impl<T: Drop> From<AllocFailed<T>> for RowFault {
    fn from(_error: AllocFailed<T>) -> RowFault {
        RowFault::Memory
    }
}
