//! The instructions of RV32IMA: a word read as an instruction, an instruction written as a word (RISC-V manual, chapter 24).
//! Types: `Op`, `Form`, `Insn`; specs/Table has the rows.
//! Proved: `decode` is the table, and nothing off it; `encode` is its inverse both ways; no word belongs to two rows.
#![tactic(auto)]

mod decoding;
mod encoding;
mod fields;
mod laws;
mod op;

pub use decoding::{decode, operation};
pub use encoding::encode;
pub use fields::{immediate, rd, rs1, rs2};
pub use laws::rows_are_apart;
pub use op::{Form, Insn, Op};
