//! Which chunks of a room's pool a payload has.
//! Types: `Pool`.
//! Proved: it says the first chunk of each payload, and whether one more fits beside those that are still read, as defined.
#![tactic(auto)]

mod calls;
mod pool;

pub use pool::Pool;
