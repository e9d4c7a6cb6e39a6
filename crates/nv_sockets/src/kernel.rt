// The kernel with sockets.
ghost use Rattle.std.specs.Prelude.{◌≡◌, ℕ, map, slice_index};
ghost use Rattle.nv_sockets.specs.Kernel.{links_after};
ghost use Rattle.nv_sockets.specs.Views.{link_of, gone_of};

use crate::connection::Connection;
use crate::host::Host;
use nv_kernel::Kernel;

/// The kernel of a process with sockets, over what a script gives.
pub type SocketKernel = Kernel<Host>;

/// The connections of the script, in its order, each with what was written to it.
pub fn connections(kernel: &SocketKernel) -> &[Connection]
    ensures links { map link_of result.now ≡ links_after kernel.now.setup kernel.now.log }
    ensures gone { (i : ℕ) → slice_index (map gone_of result.now) i ≡ 0 }
{
    kernel.answers().sockets.connections()
}
