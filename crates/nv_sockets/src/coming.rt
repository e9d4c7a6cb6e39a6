// Clients that connect while a run goes on, and what they send.
ghost use Rattle.std.specs.Prelude.{◌≡◌, ◌≢◌, ◌≤◌, ◌<◌, ◌+◌, ◌==◌, ℕ, true, false, not, Some, [], ◌∷◌, ◌++◌, length, drop, is_some, option_map, vec_len, vec_capacity, OnOk};
ghost use Rattle.nv_sockets.specs.Sockets.{unread_in, unread_of, has_unread, over_in, is_over, is_going, with_inbox};
ghost use Rattle.nv_sockets.specs.Coming.{connected, with_data, ended, came_over, HasInput, HasPlaces};
ghost use Rattle.nv_sockets.specs.Inboxes.{inbox_in, promised_in, with_more, with_less, with_end};

use crate::inbox::Inbox;
use crate::sockets::{Sockets, fresh};
use crate::waiting::Waiting;
use std::alloc::AllocError;

/// What has come over a connection: some of it isn't read yet; nothing more comes.
#[derive(Clone, Copy)]
pub struct Received {
    pub unread: bool,
    pub over: bool,
}

// One more, for which there is memory.
fn add_waiting(waiting: &mut Vec<Waiting>, one: Waiting)
    requires { vec_len waiting.old < vec_capacity waiting.old }
    ensures items { waiting.new.items ≡ waiting.old.items ++ one ∷ [] }
    ensures capacity { vec_capacity waiting.old ≤ vec_capacity waiting.new }
{
    match waiting.push(one) {
        Ok(()) => {}
        Err(_) => unreachable!(),
    }
}

// More has come over a connection, if it isn't closed.
fn add_to(inbox: &mut Option<Inbox>, bytes: &[u8])
    requires { is_some inbox.old ≡ true → length bytes.now ≤ promised_in inbox.old }
    ensures inbox { inbox_in inbox.new ≡ option_map (with_more bytes.now) (inbox_in inbox.old) }
    ensures promised { is_some inbox.old ≡ true → promised_in inbox.new + length bytes.now ≡ promised_in inbox.old }
{
    match inbox {
        Some(inbox) => inbox.add(bytes),
        None => {}
    }
}

fn end_of(inbox: &mut Option<Inbox>)
    ensures inbox { inbox_in inbox.new ≡ option_map with_end (inbox_in inbox.old) }
    ensures promised { promised_in inbox.new ≡ promised_in inbox.old }
{
    match inbox {
        Some(inbox) => inbox.end(),
        None => {}
    }
}

fn promise_to(inbox: &mut Option<Inbox>, n: usize) -> Result<(), AllocError>
    ensures inbox { inbox_in inbox.new ≡ inbox_in inbox.old }
    ensures ok { OnOk result (is_some inbox.old ≡ true → promised_in inbox.new ≡ promised_in inbox.old + n) }
    ensures grows { promised_in inbox.old ≤ promised_in inbox.new }
{
    match inbox {
        Some(inbox) => inbox.promise(n),
        None => Ok(()),
    }
}

fn forget_in(inbox: &mut Option<Inbox>)
    ensures inbox { inbox_in inbox.new ≡ inbox_in inbox.old }
    ensures promised { promised_in inbox.new ≡ 0 }
{
    match inbox {
        Some(inbox) => inbox.forget(),
        None => {}
    }
}

fn take_from(inbox: &mut Option<Inbox>, n: usize)
    ensures inbox { inbox_in inbox.new ≡ option_map (with_less n) (inbox_in inbox.old) }
    ensures promised { promised_in inbox.new ≡ promised_in inbox.old }
{
    match inbox {
        Some(inbox) => inbox.take(n),
        None => {}
    }
}

fn unread_in(inbox: &Option<Inbox>) -> &[u8]
    ensures { result.now ≡ unread_in (inbox_in inbox.now) }
{
    match inbox {
        Some(inbox) => inbox.unread(),
        None => &[],
    }
}

fn over_in(inbox: &Option<Inbox>) -> bool
    ensures { result ≡ over_in (inbox_in inbox.now) }
{
    match inbox {
        Some(inbox) => inbox.is_over(),
        None => true,
    }
}

fn received_in(inbox: &Option<Inbox>) -> Received
    ensures unread { result.unread ≡ not (length (unread_in (inbox_in inbox.now)) == 0) }
    ensures over { result.over ≡ over_in (inbox_in inbox.now) }
{
    Received {
        unread: unread_in(inbox).len() != 0,
        over: over_in(inbox),
    }
}

impl Sockets {
    /// What has come over a connection and isn't read yet; nothing where it is closed.
    pub fn unread(&self, i: usize) -> &[u8]
        ensures { result.now ≡ unread_of self.now.net i }
    {
        match self.place(i) {
            Some(p) => unread_in(&self.connection(p, i).inbox),
            None => &[],
        }
    }

    /// Whether something has come over a connection that isn't read yet.
    pub fn has_unread(&self, i: usize) -> bool
        ensures { result ≡ has_unread self.now.net i }
    {
        !(self.unread(i).len() == 0)
    }

    /// Whether nothing more comes over a connection: the client has sent all, or it is closed.
    pub fn is_over(&self, i: usize) -> bool
        ensures { result ≡ is_over self.now.net i }
    {
        match self.place(i) {
            Some(p) => over_in(&self.connection(p, i).inbox),
            None => true,
        }
    }

    /// Both, for who asks for both of many connections.
    pub fn received(&self, i: usize) -> Received
        ensures unread { result.unread ≡ has_unread self.now.net i }
        ensures over { result.over ≡ is_over self.now.net i }
    {
        match self.place(i) {
            Some(p) => received_in(&self.connection(p, i).inbox),
            None => Received {
                unread: false,
                over: true,
            },
        }
    }

    /// Whether the guests haven't closed a connection.
    pub fn is_going(&self, i: usize) -> bool
        ensures { result ≡ is_going self.now.net i }
    {
        match self.place(i) {
            Some(p) => self.connection(p, i).inbox.is_some(),
            None => false,
        }
    }

    /// Memory for so many bytes more of what comes over a connection.
    pub fn promise(&mut self, i: usize, n: usize) -> Result<(), AllocError>
        ensures others { self.new ≡ record self.old { promised = self.new.promised } }
        ensures keeps { (j m : ℕ) → HasInput self.old j m → HasInput self.new j m }
        ensures ok { OnOk result ((m : ℕ) → HasInput self.old i m → HasInput self.new i (m + n)) }
    {
        let Some(p) = self.place(i) else {
            return Ok(());
        };
        let mut one = self.lift(p, i);
        let taken = promise_to(&mut one.inbox, n);
        self.lay(p, i, one);
        taken
    }

    /// The memory that was taken for what comes over a connection isn't kept for anything.
    pub fn forget(&mut self, i: usize)
        ensures others { self.new ≡ record self.old { promised = self.new.promised } }
        ensures keeps { (j m : ℕ) → j ≢ i → HasInput self.old j m → HasInput self.new j m }
    {
        let Some(p) = self.place(i) else {
            return;
        };
        let mut one = self.lift(p, i);
        forget_in(&mut one.inbox);
        self.lay(p, i, one);
    }

    /// More has come over a connection. What comes over one that is closed is lost.
    pub fn add_data(&mut self, i: usize, bytes: &[u8])
        requires { HasInput self.old i (length bytes.now) }
        ensures others { self.new ≡ record self.old { net = with_data self.old.net i bytes.now; promised = self.new.promised } }
        ensures keeps { (j n : ℕ) → HasInput self.old j (came_over i bytes.now j + n) → HasInput self.new j n }
    {
        let Some(p) = self.place(i) else {
            return;
        };
        let mut one = self.lift(p, i);
        add_to(&mut one.inbox, bytes);
        self.lay(p, i, one);
    }

    /// The client has sent all.
    pub fn end(&mut self, i: usize)
        ensures others { self.new ≡ record self.old { net = ended self.old.net i } }
        ensures keeps { (j n : ℕ) → HasInput self.old j n → HasInput self.new j n }
    {
        let Some(p) = self.place(i) else {
            return;
        };
        let mut one = self.lift(p, i);
        end_of(&mut one.inbox);
        self.lay(p, i, one);
    }

    /// So many of the bytes that have come are read.
    pub(crate) fn take_read(&mut self, i: usize, n: usize)
        ensures { self.new ≡ record self.old { net = with_inbox self.old.net i (λ inbox. record inbox { unread = drop n inbox.unread }) } }
    {
        let Some(p) = self.place(i) else {
            return;
        };
        let mut one = self.lift(p, i);
        take_from(&mut one.inbox, n);
        self.lay(p, i, one);
    }

    /// Memory for so many more connections.
    pub fn reserve_clients(&mut self, count: usize) -> Result<(), AllocError>
        ensures others { self.new ≡ record self.old { places = self.new.places; waits = self.new.waits } }
        ensures ok { OnOk result (HasPlaces self.new count) }
    {
        self.waiting.reserve(count)?;
        self.connections.reserve(count)
    }

    /// One more client has connected; what it sends goes to this.
    pub fn connect(&mut self, port: u32, inbox: Inbox)
        requires places { HasPlaces self.old 1 }
        requires inbox { inbox.inbox ≡ record { unread = []; over = false } }
        ensures net { self.new.net ≡ connected self.old.net port }
        ensures held { self.new.held ≡ record { there = self.old.held.there ++ length self.old.net.links ∷ []; gone = self.old.held.gone ++ 0 ∷ [] } }
        ensures promised { self.new.promised ≡ self.old.promised ++ inbox.promised ∷ [] }
        ensures places { self.old.places ≤ self.new.places }
        ensures waits { self.old.waits ≤ self.new.waits }
        ensures keeps { (j n : ℕ) → j < length self.old.net.links → HasInput self.old j n → HasInput self.new j n }
        ensures own { (n : ℕ) → n ≤ inbox.promised → HasInput self.new (length self.old.net.links) n }
    {
        let connection = self.connections.len();
        add_waiting(&mut self.waiting, Waiting { port, connection });
        self.connections.push(fresh(self.alloc, port, inbox));
    }
}
