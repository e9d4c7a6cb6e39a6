//! A guest's memory: bytes, and regions with their rights.
//! Types: `Width`, `Access`, `Right`, `Region`, `Memory`.
//! Proved: a load, store or copy is that of the list of bytes; it is refused where no region has the range with the right,
//! and then nothing has changed; an instruction that is known, by its address or its place, is what its word spells.
#![tactic(auto)]

mod bytes;
mod decoded;
mod memory;
mod ranges;
mod region;
mod rights;

pub use memory::Memory;
pub use region::{Access, Region, Right, Width};
