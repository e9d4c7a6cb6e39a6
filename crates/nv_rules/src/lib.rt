//! What a filter says of a follower's call that isn't the event's.
//! Types: `Pair`, `Verdict`.
//! Proved: `value` is the filter's value on the pair; `verdict` is the table of verdicts.
#![tactic(auto)]

mod judging;
mod machine;
mod outcome;
mod pair;
mod running;

pub use judging::verdict;
pub use outcome::Verdict;
pub use pair::{Pair, pair_of};
pub use running::value;
