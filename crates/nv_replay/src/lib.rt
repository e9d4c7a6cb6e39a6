//! One version: how it follows a log and how it leads; the accounts of whole runs, as definitions with their laws.
//! Types: `Fate`, `Spans`, `Standing`, `Version`, `Followed`, `Led`, `Account`.
//! Proved: `follow`, `lead` and `answered` are one step of the definitions of following and leading, `follow_all` is the
//! whole of following. specs/Sequence and Monitor define the sequential monitor, which no function here runs.
#![tactic(auto)]

mod account;
mod fate;
mod judging;
mod laws;
mod spans;
mod standing;
mod taking;
mod version;
mod whole_log;

pub use account::Account;
pub use fate::Fate;
pub use laws::{let_go_alone, unplanned_is_plain};
pub use spans::Spans;
pub use standing::Standing;
pub use version::{Followed, Led, Version};
pub use whole_log::follow_all;
