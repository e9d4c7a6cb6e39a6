//! Filters: classic BPF over a pair of calls (McCanne and Jacobson 1993), verified, read and written.
//! Types: `Op`, `Action`, `Filter`, `FilterFault`.
//! Proved: `verify` and `read` accept just the filters of the definition, else give the first fault; what `write` writes is
//! read back.
#![tactic(auto)]

mod action;
mod filter;
mod op;
mod reading;
mod writing;

pub use action::{Action, Arithmetic, Comparison, Operand, Register, decode};
pub use filter::{Filter, verify};
pub use op::{FilterFault, MOST_OPS, Op};
pub use reading::read;
pub use writing::write;
