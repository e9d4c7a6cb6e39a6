//! The plain monitor: one version after another, on one thread, with planned changes of the leader.
//! Types: `Turned`; function `run`.
//! Proved: `run` gives the sequential monitor's account for every kernel and filter, from what the kernel was made over where that
//! tells how it goes on.
#![tactic(auto)]

mod leading;
mod running;

pub use leading::{Turned, lead_all, take_turn};
pub use running::run;
