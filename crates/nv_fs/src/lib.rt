//! Files as guests' calls see them: descriptors, shared open files, files in memory, pipes and the console.
//! Types: `FileSystem`, `Opened`; `Blocks`, a file's bytes in blocks of 4,096, of which one that was never written takes no memory
//! and reads as zeros; module `parts`: parts of bytes, and bytes for which there is memory.
//! Proved: each call gives the answer, the bytes and the state of its definition; the `reserve_` calls change nothing that
//! can be seen, and the call after them can't fail; what was let go of the console is still part of it in contracts. Reads and
//! writes of blocks are those of a list of bytes.
#![tactic(auto)]

mod block;
mod blocks;
mod closing;
mod coming;
mod copying;
mod disk;
mod ends;
mod finding;
mod holding;
mod open_file;
mod opening;
pub mod parts;
pub mod polls;
mod reading;
mod resolving;
mod seeking;
mod tables;
mod telling;
mod writing;

pub use blocks::Blocks;
pub use disk::{DESCRIPTORS, FileSystem};
pub use telling::Opened;
