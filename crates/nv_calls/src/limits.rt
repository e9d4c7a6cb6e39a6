//! The limits of a run.

/// How many bytes a call hands in and out together at most.
pub const MOST_BYTES: u32 = 4096;

/// How many vectors are read at most: IOV_MAX (limits.h(0p)).
pub const MOST_VECTORS: u32 = 1024;

/// How many bytes of a path are read; a path of so many has no end among them.
pub const MOST_PATH: usize = 256;

/// How many bytes of a socket's address are read: those of an address of IPv4 (ip(7)).
pub const MOST_ADDRESS: u32 = 16;

/// How many descriptors a call polls at most: as many as fit, with a time and with the answer, into the bytes of a call (poll(2),
/// RLIMIT_NOFILE).
pub const MOST_POLLED: u32 = 408;

/// How many descriptors a call selects among at most: FD_SETSIZE (select(2)).
pub const MOST_SELECTED: u32 = 1024;

/// The bytes of a time in seconds and nanoseconds, of what a descriptor is polled for, and of what is told of one (poll(2)).
pub const TIME_BYTES: u32 = 16;

pub const POLLED_BYTES: u32 = 8;

pub const EVENTS_BYTES: u32 = 2;

/// The thread that lives at the start.
pub const FIRST_THREAD: u32 = 100;

/// How many threads live at once at most.
pub const MOST_THREADS: usize = 8;

/// How many entries a log has at most.
pub const MOST_EVENTS: u32 = 500_000_000;
