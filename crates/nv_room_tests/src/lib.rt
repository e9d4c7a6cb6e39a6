//! Tests of the ring, of the change of leader and of a planned hand-over, on threads of the host; and what they run: a room by threads,
//! in which each version leads in its turn and the others read, and a change of leader and a planned hand-over step by step.
//! Types: `Script`, what the stations publish and when they lead.
//! Proved: the conditions of the room's steps hold, and the tests do nothing undefined. What they assert is run.
#![tactic(auto)]

mod calls;
mod changing;
mod handing;
mod lives;
mod running;
mod script;
#[cfg(test)]
mod tests;

pub use calls::{clone, exit_group, getuid, kernel, of_thread, write};
pub use changing::change_leader;
pub use handing::hand_over;
pub use running::{all_cross, run, serve_all};
pub use script::Script;
