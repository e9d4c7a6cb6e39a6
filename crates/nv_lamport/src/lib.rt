//! One log out of the lanes of a room: a reader merges them by the events' numbers.
//! Types: `Polled`; function `poll_merged`.
//! Proved: it gives the log's next event, or waits for a cause that it looked at in this call.
#![tactic(auto)]

mod reads;

pub use reads::{Polled, poll_merged};
