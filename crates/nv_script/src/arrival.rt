// What comes from outside.

/// The most bytes of an arrival: its line, of which each byte takes two digits, has at most 4,096 bytes with its newline, so that a pipe takes
/// it whole.
pub const MOST_ARRIVAL: usize = 2000;

/// What comes from outside. Clients are numbered from 0 in the order in which they connect.
#[derive(Drop)]
pub enum Arrival {
    /// Bytes for descriptor 0.
    Input(Vec<u8>),
    /// Nothing more comes for descriptor 0.
    InputEnd,
    /// No more clients connect.
    ClientsEnd,
    /// A client connects to this port.
    Connect(u32),
    /// Bytes from this client.
    Data(u32, Vec<u8>),
    /// This client has sent all.
    End(u32),
    /// It is so many seconds after the beginning of 1970 (clock_gettime(2), CLOCK_REALTIME), and nanoseconds after them.
    Time(u32, u32),
}

/// Why a line is no arrival that may come next. Of several causes the first in this order is told.
#[derive(Clone, Copy, Debug, PartialEq, Eq)]
pub enum ArrivalCause {
    /// The first word is none of an arrival's.
    Word,
    /// Wrong fields, or a number or a hexadecimal text that isn't one, or bytes of which there are none.
    Shape,
    /// A port or nanoseconds off their limits, or a client that hasn't come.
    Range,
    /// Bytes or an end of what has ended.
    Twice,
    /// More than 2,000 bytes, or one client more than may come.
    Long,
}
