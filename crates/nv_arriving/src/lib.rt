//! The kernel of a run whose input arrives: what comes from outside isn't known when it is made. Calls wait for it, ppoll and
//! select for several things at once.
//! Types: `Want`, `Intake`, `Until`, `NonBlocking`, `Polled`, `GuestSide`, `Guests` (what answers where input arrives),
//! `ArrivingKernel`; `Listed`, where a script lists all that comes, and `ScriptedKernel` over it.
//! Proved: it answers by its definition, though it takes from outside in the middle of a run; what comes later changes
//! nothing of what was served; where nothing comes, in runs without the later calls, it is the kernel of scripts.
#![tactic(auto)]

mod answering;
mod arrivals;
mod flags;
mod guests;
mod kernel;
mod later;
mod laws;
mod listed;
mod nonblocking;
mod polled;
mod polling;
mod prepared;
mod reserving;
mod scripted;
mod timing;
mod waiting;

pub use answering::Guests;
pub use guests::GuestSide;
pub use kernel::{ArrivingKernel, ScriptedKernel, arriving, connections, files, into_outside};
pub use laws::{doings_go_on, nothing_comes, nothing_listed};
pub use listed::Nothing;
pub use nonblocking::NonBlocking;
pub use polled::Polled;
pub use scripted::Listed;
pub use timing::Until;
pub use waiting::{Intake, Want};
