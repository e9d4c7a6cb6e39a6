//! The assembler of RV32IMA programs: a text to a program, or its first faulty line.
//! Types: `AsmCause`, `AsmFault`; function `assemble`; specs/Assembled is the language's meaning.
//! Proved: `assemble` gives the program of the text, or the least faulty line with its first cause; `nv_elf::write` takes
//! every such program.
#![tactic(auto)]

mod assembling;
mod code;
mod fault;
mod forms;
mod labels;
mod laying;
mod numbers;
mod place;
mod placed;
mod statements;
mod strings;

pub use assembling::assemble;
pub use fault::{AsmCause, AsmFault};
