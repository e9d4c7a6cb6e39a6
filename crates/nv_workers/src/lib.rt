//! A run: versions beside each other on threads of the host, each with its seat in one room.
//! Types: `Terms`, the trait `Gate`, `Worker`, `Turn`, `Stock`, `Ran`; functions `staff`, `run_all`, `run_staffed`, `gather`, `end`.
//! Proved, if it returns: the log and the standings are the sequential monitor's with the room's planned lengths and those at
//! which leaders handed over on demand, whichever thread took which turn, from what the kernel was made over where that tells how
//! it goes on; the spans of all versions cover the log.
#![tactic(auto)]

mod dealing;
mod follows;
mod gate;
mod leads;
mod ran;
mod running;
mod sleepers;
mod staffing;
mod terms;
mod worker;

pub use gate::{Gate, OpenGate, VersionNumber};
pub use ran::{NotRun, Ran, end, gather, run_all, run_staffed};
pub use staffing::{Stock, staff};
pub use terms::Terms;
pub use worker::{Turn, Worker};
