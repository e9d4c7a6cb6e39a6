//! System calls, their replies, the log of both, and the lists that a long log is kept in; the trait of a kernel that answers calls.
//! Types: `Syscall` and `Slot` (the table of calls), `Call`, `Reply`, `Event`, `Bytes`; `Past` (a list whose beginning may be let
//! go), `Table` (one of which any item may be let go), `Whole` (one for proofs alone); the traits `SyscallKernel`, `Recorded` (a
//! kernel that keeps all that it did), `Scripted`.
//! Proved: the table's functions give the table's rows, and `same` and `shaped` are their definitions. A kernel's laws are
//! clauses of the trait: the log grows by just the call served, with the reply that what the kernel knows gives, and what it
//! learns from outside changes nothing that was served. In contracts a `Past` and a `Table` are the whole list, whatever was
//! let go; what is read of them is what that list has there.
#![tactic(auto)]

mod answers;
mod bytes;
mod calls;
pub mod errors;
mod kernel;
mod limits;
mod numbers;
mod past;
mod shapes;
mod table;
mod threads;
mod whole;

pub use answers::{polled_count, selected_count, set_bytes, sets_bytes};
pub use bytes::Bytes;
pub use calls::{Call, Event, Reply, same};
pub use kernel::{Recorded, Scripted, SyscallKernel};
pub use limits::{
    EVENTS_BYTES, FIRST_THREAD, MOST_ADDRESS, MOST_BYTES, MOST_EVENTS, MOST_PATH, MOST_POLLED,
    MOST_SELECTED, MOST_THREADS, MOST_VECTORS, POLLED_BYTES, TIME_BYTES,
};
pub use numbers::{CLONE, EXIT, EXIT_GROUP, Slot, Syscall, is_later, is_local, slots};
pub use past::Past;
pub use shapes::shaped;
pub use table::Table;
pub use threads::{is_of_threads, made};
pub use whole::Whole;
