//! Recorded logs: their bytes, and whether a kernel answers as they say.
//! Types: `TraceFault`, `CheckFault`; functions `write`, `read`, `check`.
//! Proved: `write` writes the log's trace, `read` gives the log of which the bytes are the trace, or the first fault; no
//! trace begins another. `check` accepts just the logs that the kernel would answer so.
#![tactic(auto)]

mod checking;
mod fault;
mod fields;
mod laws;
mod live;
mod reading;
mod writing;

pub use checking::check;
pub use fault::{CheckFault, TraceFault};
pub use laws::no_trace_begins_another;
pub use reading::read;
pub use writing::write;
