//! A guest: a machine as a version file loads it, with its threads and heap, and the calls that it makes.
//! Types: `Guest`, `Asked`, `GuestFault`.
//! Proved: `make` is the definition of a loaded program; `call_of` gives the call that registers and memory spell, which is
//! shaped, or that a range of it isn't the guest's; `answer` stores an answer's bytes where they may be written.
#![tactic(auto)]

mod answers;
mod block;
mod calls;
mod guest;
mod heap;
mod load;
mod outcome;
mod paths;
mod threads;
mod vectors;

pub use guest::Guest;
pub use outcome::{Asked, GuestFault};
