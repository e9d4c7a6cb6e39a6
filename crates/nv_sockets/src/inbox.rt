// What comes over a connection, until it is read.
ghost use Rattle.std.specs.Prelude.{◌≡◌, ◌≤◌, ◌+◌, true, false, [], ◌++◌, length, drop, vec_len, vec_capacity, OnOk, OnErr};

use std::alloc::{AllocError, Global};
use std::marker::Model;

/// The bytes that have come and aren't read yet, whether the client has sent all, and for how many bytes more memory was taken.
#[derive(Drop)]
pub struct Inbox {
    /// What has come, of which the first ones may be read.
    bytes: Vec<u8>,
    /// How many of them are read.
    taken: usize,
    over: bool,
    promised: usize,
}

impl Model for Inbox {
    ghost use Rattle.std.specs.Prelude.{◌≤◌, ◌+◌, length, drop, vec_capacity};
    ghost use Rattle.nv_sockets.specs.Inboxes.{Room};

    ghost Value = { Room };

    ghost view = { λ b. record { inbox = record { unread = drop b.taken b.bytes.items; over = b.over }; promised = b.promised } };

    ghost invariant = { λ b. (b.taken ≤ length b.bytes.items) × (length b.bytes.items + b.promised ≤ vec_capacity b.bytes) };
}

// Drops the first bytes, which keeps the memory.
fn drop_prefix(held: &mut Vec<u8>, n: usize)
    requires { n ≤ length held.old.items }
    ensures items { held.new.items ≡ drop n held.old.items }
    ensures capacity { vec_capacity held.new ≡ vec_capacity held.old }
{
    let rest = held.as_slice().len() - n;
    held.as_mut_slice().rotate_left(n);
    held.truncate(rest);
}

// Adds bytes for which there is memory.
fn append(held: &mut Vec<u8>, bytes: &[u8])
    requires { vec_len held.old + length bytes.now ≤ vec_capacity held.old }
    ensures items { held.new.items ≡ held.old.items ++ bytes.now }
    ensures capacity { vec_capacity held.old ≤ vec_capacity held.new }
{
    match held.extend_from_slice(bytes) {
        Ok(()) => {}
        Err(_) => unreachable!(),
    }
}

impl Inbox {
    /// Nothing has come yet.
    pub fn new(alloc: Global) -> Inbox
        ensures { result ≡ record { inbox = record { unread = []; over = false }; promised = 0 } }
    {
        Inbox {
            bytes: Vec::new(alloc),
            taken: 0,
            over: false,
            promised: 0,
        }
    }

    /// All has come.
    pub fn of(bytes: Vec<u8>) -> Inbox
        ensures { result ≡ record { inbox = record { unread = bytes.items; over = true }; promised = 0 } }
    {
        Inbox {
            bytes,
            taken: 0,
            over: true,
            promised: 0,
        }
    }

    /// What isn't read yet.
    pub fn unread(&self) -> &[u8]
        ensures { result.now ≡ self.now.inbox.unread }
    {
        &self.bytes[self.taken..]
    }

    /// Whether the client has sent all.
    pub fn is_over(&self) -> bool
        ensures { result ≡ self.now.inbox.over }
    {
        self.over
    }

    // What is read has no bytes any more.
    fn give_up(&mut self)
        ensures { self.new ≡ self.old }
    {
        drop_prefix(&mut self.bytes, self.taken);
        self.taken = 0;
    }

    // So, if that is more than what isn't read.
    fn give_up_most(&mut self)
        ensures { self.new ≡ self.old }
    {
        if self.taken > self.bytes.len() - self.taken {
            self.give_up();
        }
    }

    // Memory for so many bytes in all.
    fn take_memory(&mut self, wanted: usize) -> Result<(), AllocError>
        requires { self.old.promised ≤ wanted }
        ensures inbox { self.new.inbox ≡ self.old.inbox }
        ensures ok { OnOk result (self.new.promised ≡ wanted) }
        ensures err { OnErr result (self.new.promised ≡ self.old.promised) }
    {
        self.bytes.reserve(wanted)?;
        self.promised = wanted;
        Ok(())
    }

    /// Memory for so many bytes more.
    pub fn promise(&mut self, n: usize) -> Result<(), AllocError>
        ensures inbox { self.new.inbox ≡ self.old.inbox }
        ensures ok { OnOk result (self.new.promised ≡ self.old.promised + n) }
        ensures err { OnErr result (self.new.promised ≡ self.old.promised) }
    {
        self.give_up_most();
        if n > usize::MAX - self.promised {
            return Err(AllocError);
        }
        self.take_memory(self.promised + n)
    }

    /// The memory that was taken isn't kept for anything.
    pub fn forget(&mut self)
        ensures { self.new ≡ record self.old { promised = 0 } }
    {
        self.promised = 0;
    }

    /// More has come, for which memory was taken.
    pub fn add(&mut self, bytes: &[u8])
        requires { length bytes.now ≤ self.old.promised }
        ensures inbox { self.new.inbox ≡ record self.old.inbox { unread = self.old.inbox.unread ++ bytes.now } }
        ensures promised { self.new.promised + length bytes.now ≡ self.old.promised }
    {
        append(&mut self.bytes, bytes);
        self.promised -= bytes.len();
    }

    /// So many of the bytes are read.
    pub fn take(&mut self, n: usize)
        ensures inbox { self.new.inbox ≡ record self.old.inbox { unread = drop n self.old.inbox.unread } }
        ensures promised { self.new.promised ≡ self.old.promised }
    {
        if n >= self.bytes.len() - self.taken {
            self.bytes.clear();
            self.taken = 0;
        } else {
            self.taken += n;
        }
    }

    /// The client has sent all.
    pub fn end(&mut self)
        ensures { self.new ≡ record self.old { inbox = record self.old.inbox { over = true } } }
    {
        self.over = true;
    }
}
