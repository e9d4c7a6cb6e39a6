//! A version over a recorded log, brought to a point, the kernel at that point, and what there is to show of both: threads, registers,
//! descriptors, memory.
//! Types: `TracePoint`; functions `bring`, `kernel_after`, `show`, `put_end`; specs/Points and Shown have what they mean.
//! Proved: the version and the kernel are the definition's after just those events or instructions; `show` writes just that
//! text, without memory.
#![tactic(auto)]

mod descriptors;
mod dump;
mod head;
mod kernels;
mod points;
mod threads;
mod whole;

pub use head::put_end;
pub use kernels::kernel_after;
pub use points::{TracePoint, bring};
pub use whole::show;
