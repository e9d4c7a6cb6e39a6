// One connection of those that are there: where it is, taken out to be changed, and put back.
ghost use Rattle.std.specs.Prelude.{◌≡◌, false, length, IfSome, IfNone, slice_index};
ghost use Rattle.nv_sockets.specs.declared.connection.Connection.{Connection};
ghost use Rattle.nv_sockets.specs.Sockets.{is_going, link_output};
ghost use Rattle.nv_sockets.specs.Reserved.{is_there};
ghost use Rattle.nv_sockets.specs.Changes.{IsAt, IsLink, changed_at};

use crate::connection::Connection;
use crate::sockets::Sockets;
use nv_calls::Past;
use std::alloc::Global;

// What is in its place meanwhile.
fn blank(alloc: Global) -> Connection
    ensures { result.inbox ≡ None }
{
    Connection {
        port: 0,
        inbox: None,
        output: Past::new(alloc),
    }
}

impl Sockets {
    /// The place of a connection among those that are there.
    pub(crate) fn place(&self, i: usize) -> Option<usize>
        ensures there { IfSome result (λ p. IsAt self.now p i) }
        ensures not_there { IfNone result (is_there self.now.held.there i ≡ false) }
        ensures closed { IfNone result (is_going self.now.net i ≡ false) }
        ensures gone { IfNone result (slice_index self.now.held.gone i ≡ length (link_output self.now.net i)) }
    {
        self.connections.place(i)
    }

    /// The connection at a place, of this number.
    pub(crate) fn connection(&self, p: usize, _i: usize) -> &Connection
        requires { IsAt self.now p _i }
        ensures { IsLink self.now _i result.now }
    {
        self.connections.at(p)
    }

    /// So, to be changed and put back.
    pub(crate) fn lift(&mut self, p: usize, _i: usize) -> Connection
        requires { IsAt self.old p _i }
        ensures is { IsLink self.old _i result }
        ensures at { IsAt self.new p _i }
        ensures rest { (c : Connection) → changed_at self.new _i c ≡ changed_at self.old _i c }
    {
        self.connections.replace(p, blank(self.alloc))
    }

    /// This one is in the place of the one that was there.
    pub(crate) fn lay(&mut self, p: usize, _i: usize, one: Connection)
        requires { IsAt self.old p _i }
        ensures { self.new ≡ changed_at self.old _i one }
    {
        let _ = self.connections.replace(p, one);
    }
}
