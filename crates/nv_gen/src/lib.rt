//! Large runs from a number: version files, script and rules, and the line that sums a run up.
//! Types: `Made`, `Totals`; functions `make`, `summary`; laws: one a function.
//! Proved: `make` gives the files of the number as specs/Made and Programs define them; `summary` gives its line. Each
//! version makes its defined course of calls, ends as the number says and fits the default memory; the script and the
//! filter are accepted.
#![tactic(auto)]

mod code;
mod laws;
mod made;
mod measures;
mod totals;
mod version;

pub use laws::{
    programs_stand_in_order, rules_are_read, script_is_read, versions_fit_the_default_memory,
    versions_keep_their_courses,
};
pub use made::{Made, make};
pub use totals::{Totals, summary};
