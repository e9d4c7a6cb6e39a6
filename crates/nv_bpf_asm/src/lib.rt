//! The assembler of filters: a rule text to a filter, or its first faulty line.
//! Types: `RuleCause`, `RuleFault`; function `assemble`; specs/Assembled is the language's meaning.
//! Proved: `assemble` gives the filter of the text, or the first fault in order with its line.
#![tactic(auto)]

mod assembling;
mod fault;
mod forms;
mod label;
mod labels;
mod statements;
mod targets;

pub use assembling::assemble;
pub use fault::{RuleCause, RuleFault};
