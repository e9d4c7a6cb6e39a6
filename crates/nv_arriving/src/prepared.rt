// Where what clients send goes that will connect.
ghost use Rattle.std.specs.Prelude.{◌≡◌, ◌+◌, ◌<◌, ◌++◌, [], ◌∷◌, false, length, slice_index, slice_set, OnOk, IfOk};

use nv_sockets::Inbox;
use std::alloc::{AllocError, Global};
use std::marker::Model;

/// Inboxes for clients that will connect, that of the last one first, over which nothing has come. In contracts it is for how many bytes
/// each has memory.
#[derive(Drop)]
pub(crate) struct Prepared {
    inboxes: Vec<Inbox>,
}

impl Model for Prepared {
    ghost use Rattle.std.specs.Prelude.{ℕ, List, map};
    ghost use Rattle.nv_arriving.specs.Prepared.{AreNew, promised_by};

    ghost Value = { List ℕ };

    ghost view = { λ p. map promised_by p.inboxes.items };

    ghost invariant = { λ p. AreNew p.inboxes.items };
}

impl Prepared {
    /// None.
    pub(crate) fn none(alloc: Global) -> Prepared
        ensures { result ≡ [] }
    {
        Prepared {
            inboxes: Vec::new(alloc),
        }
    }

    /// So many.
    pub(crate) fn make(alloc: Global, count: usize) -> Result<Prepared, AllocError>
        ensures { IfOk result (λ made. length made ≡ count) }
    {
        let mut inboxes = Vec::new(alloc);
        for _place in 0..count {
            inboxes.push(Inbox::new(alloc))?;
        }
        Ok(Prepared { inboxes })
    }

    /// How many there are.
    pub(crate) fn len(&self) -> usize
        ensures { result ≡ length self.now }
    {
        self.inboxes.len()
    }

    /// Memory for so many bytes more in one of them.
    pub(crate) fn promise(&mut self, place: usize, count: usize) -> Result<(), AllocError>
        requires { place < length self.old }
        ensures len { length self.new ≡ length self.old }
        ensures ok { OnOk result (self.new ≡ slice_set self.old place (slice_index self.old place + count)) }
    {
        self.inboxes[place].promise(count)
    }

    /// The last of them.
    pub(crate) fn take_last(&mut self) -> Inbox
        requires { 0 < length self.old }
        ensures rest { self.old ≡ self.new ++ result.promised ∷ [] }
        ensures new { result.inbox ≡ record { unread = []; over = false } }
    {
        let Some(last) = self.inboxes.pop() else {
            unreachable!()
        };
        last
    }
}
