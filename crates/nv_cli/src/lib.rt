//! The top call, `varan`: it reads a command line, does what it asks for, and says what that came to.
//! Functions: `varan`; `varan_over`, over the streams of a live run; `varan_calmly`, over files and a sink that never fail; specs/Headline lists all that is to be believed.
//! Proved, if it returns: the clauses `answers`, `completes` and `rejects`, which stand on one page, nv_driver/specs/Due.
//! `run`, `record` and `gen` have their versions on threads that wait for each other: that these return isn't proved.
#![tactic(auto)]

mod beside;
mod calm;
mod nowhere;
mod process;
mod recording;
mod serving;
mod top;

pub use calm::varan_calmly;
pub use nv_driver::{Cause, Ending, Place, Refusal};
pub use process::{exit_status, program};
pub use serving::Left;
pub use top::{varan, varan_over};
