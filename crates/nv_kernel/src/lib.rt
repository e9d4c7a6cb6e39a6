//! The kernel, which keeps the log of what it served, over what answers its calls; and what answers a profile of Linux's calls without sockets.
//! Types: `Answers`, `FromScript`, `KeepsAll` and `Foretold` (traits of what answers), `Kernel`; `Devices`, which answers over what a script gives, and `ScriptKernel` over it.
//! Proved: over whatever answers by its definition a kernel meets the laws of `SyscallKernel`; the devices do, with the definition of every call
//! (`serve`); a call for which `reserve` took the memory can't fail.
#![tactic(auto)]

mod answers;
mod clock;
mod constants;
mod crew;
mod devices;
mod kernel;
mod random;
mod replying;
pub mod spare;

pub use answers::{Answers, Foretold, FromScript, KeepsAll};
pub use constants::constant;
pub use devices::Devices;
pub use kernel::{Kernel, ScriptKernel};
