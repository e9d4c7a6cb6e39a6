//! The kernel of a run: nv_kernel's, and sockets over the connections that a script states.
//! Types: `Connection` with its `Inbox`, `SocketKernel`; below it `Host`, `Outcome` and `Did` (what a call did outside), `Sockets`, `Socket`, `Received` and `Waiting`, on which kernels stand.
//! Proved: it meets the laws of `SyscallKernel` with the definition of serving with sockets; `write_connections` writes
//! just the text of what each connection was sent; a connection that the guests have closed may be let go, and no other.
#![tactic(auto)]

mod accepting;
mod binding;
mod changing;
mod coming;
mod connection;
mod did;
mod host;
mod inbox;
mod kernel;
mod moving;
mod places;
mod replying;
mod settling;
mod socket;
mod sockets;
mod waiting;
mod writing;

pub use binding::are_flags;
pub use coming::Received;
pub use connection::Connection;
pub use did::{Did, Outcome};
pub use host::Host;
pub use inbox::Inbox;
pub use kernel::{SocketKernel, connections};
pub use socket::Socket;
pub use sockets::{FIRST_SOCKET, MOST_SOCKETS, Sockets};
pub use waiting::Waiting;
pub use writing::{put_connections, write_connections};
