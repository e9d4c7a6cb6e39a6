//! One instruction of RV32IMA on registers and memory (RISC-V Unprivileged ISA, chapters 2, 7 and 8).
//! Types: `Regs`, `FaultKind`, `Stepped`, `Went`.
//! Proved: `step` is the definition of one instruction, with its faults in their order; after a call or a fault nothing
//! has changed. `execute` is that of an instruction at hand, with its address apart from the registers.
#![tactic(auto)]

mod alu;
mod outcome;
mod regs;
mod stepping;

pub use outcome::{FaultKind, Stepped, Went};
pub use regs::Regs;
pub use stepping::{execute, step};
