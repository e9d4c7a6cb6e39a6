// The sockets and the connections, and what they are at the start.
ghost use Rattle.std.specs.Prelude.{◌≡◌, ◌≤◌, ◌<◌, ℕ, [], ◌∷◌, ◌++◌, length, Some, IfOk, OnOk, map, slice_index};
ghost use Rattle.nv_sockets.specs.Sockets.{socket_count, output_limit, no_sockets};
ghost use Rattle.nv_sockets.specs.Reserved.{IsWhole, AllThere};
ghost use Rattle.nv_sockets.specs.Serving.{first_net, link_from, waiting_from};
ghost use Rattle.nv_sockets.specs.Views.{link_of, gone_of, promised_of, incoming_of};

use crate::connection::Connection;
use crate::inbox::Inbox;
use crate::socket::Socket;
use crate::waiting::Waiting;
use nv_calls::{Past, Table};
use nv_fs::DESCRIPTORS;
use std::alloc::{AllocError, Global};
use std::marker::Model;

/// How many descriptors sockets have in runs that don't have the later calls.
const SOCKETS: usize = 64;

/// How many they have in runs that do.
pub const MOST_SOCKETS: usize = 960;

/// The first of them, after those of files.
pub const FIRST_SOCKET: u32 = DESCRIPTORS as u32;

/// How many bytes a connection takes in runs that don't have the later calls.
const OUTPUT: usize = 1_048_576;

/// The sockets of a run, with the descriptors that name them, and the connections. Each connection waits at its port until it is accepted.
#[derive(Drop)]
pub struct Sockets {
    pub(crate) sockets: Vec<Option<Socket>>,
    pub(crate) waiting: Vec<Waiting>,
    pub(crate) connections: Table<Connection>,
    pub(crate) limit: usize,
    pub(crate) alloc: Global,
}

impl Model for Sockets {
    ghost use Rattle.nv_sockets.specs.Reserved.{Buffered};

    ghost Value = { Buffered };

    ghost use Rattle.nv_sockets.specs.Views.{buffered_of};

    ghost view = { buffered_of };

    ghost use Rattle.std.specs.Prelude.{◌≤◌, length};
    ghost use Rattle.nv_sockets.specs.Reserved.{Keeps};
    ghost use Rattle.nv_sockets.specs.Views.{net_of, held_of};

    ghost invariant = { λ s. Keeps (net_of s) (held_of s) × (length s.sockets.items ≤ 960) };
}

#[tactic(auto, unfolding(crate::specs::Sockets::socket_count))]
fn socket_count(polls: bool) -> usize
    ensures is { result ≡ socket_count polls }
    ensures few { result ≤ 960 }
{
    if polls { MOST_SOCKETS } else { SOCKETS }
}

#[tactic(auto, unfolding(crate::specs::Sockets::output_limit))]
fn output_limit(polls: bool) -> usize
    ensures { result ≡ output_limit polls }
{
    if polls { usize::MAX } else { OUTPUT }
}

#[tactic(auto, unfolding(crate::specs::Sockets::no_sockets))]
fn no_sockets(alloc: Global, polls: bool) -> Result<Vec<Option<Socket>>, AllocError>
    ensures is { IfOk result (λ made. made.items ≡ no_sockets polls) }
    ensures few { IfOk result (λ made. length made.items ≤ 960) }
{
    vec![in alloc; None; socket_count(polls)]
}

// All wait, with the numbers from 0 on.
fn queue(alloc: Global, stated: &[(u32, Vec<u8>)]) -> Result<Vec<Waiting>, AllocError>
    ensures { IfOk result (λ made. made.items ≡ waiting_from 0 (map incoming_of stated.now)) }
{
    let mut made = Vec::new(alloc);
    for i in 0..stated.len() {
        made.push(Waiting {
            port: stated[i].0,
            connection: i,
        })?;
    }
    Ok(made)
}

/// A connection to which nothing was written, with what has come over it.
pub(crate) fn fresh(alloc: Global, port: u32, inbox: Inbox) -> Connection
    ensures link { link_of result ≡ record { port = port; inbox = Some inbox.inbox; output = [] } }
    ensures gone { gone_of result ≡ 0 }
    ensures promised { promised_of result ≡ inbox.promised }
{
    Connection {
        port,
        inbox: Some(inbox),
        output: Past::new(alloc),
    }
}

// One more, with all that it sends.
fn add_stated(
    alloc: Global,
    made: &mut Table<Connection>,
    port: u32,
    input: &[u8],
) -> Result<(), AllocError>
    ensures links { OnOk result (map link_of made.new.items ≡ map link_of made.old.items ++ link_from (port, input.now) ∷ []) }
    ensures gone { OnOk result (map gone_of made.new.items ≡ map gone_of made.old.items ++ 0 ∷ []) }
    ensures numbers { OnOk result (made.new.numbers ≡ made.old.numbers ++ length made.old.items ∷ []) }
{
    let bytes = Vec::from_slice(alloc, input)?;
    made.reserve(1)?;
    made.push(fresh(alloc, port, Inbox::of(bytes)));
    Ok(())
}

// The connections, to which nothing was written.
fn begun(alloc: Global, stated: &[(u32, Vec<u8>)]) -> Result<Table<Connection>, AllocError>
    ensures links { IfOk result (λ made. map link_of made.items ≡ map link_from (map incoming_of stated.now)) }
    ensures there { IfOk result (λ made. AllThere made.numbers (length made.items)) }
    ensures gone { IfOk result (λ made. (i : ℕ) → slice_index (map gone_of made.items) i ≡ 0) }
{
    let mut made = Table::new(alloc);
    for (port, input) in stated {
        add_stated(alloc, &mut made, *port, input.as_slice())?;
    }
    Ok(made)
}

impl Sockets {
    /// No socket, and these connections, each by its port and what it sends; whether the later calls are in the table.
    pub fn make(
        alloc: Global,
        polls: bool,
        stated: &Vec<(u32, Vec<u8>)>,
    ) -> Result<Sockets, AllocError>
        ensures net { IfOk result (λ made. made.net ≡ first_net polls (map incoming_of stated.now.items)) }
        ensures whole { IfOk result (λ made. IsWhole made) }
    {
        let sockets = no_sockets(alloc, polls)?;
        let waiting = queue(alloc, stated.as_slice())?;
        let connections = begun(alloc, stated.as_slice())?;
        Ok(Sockets {
            sockets,
            waiting,
            connections,
            limit: output_limit(polls),
            alloc,
        })
    }

    /// How many connections came.
    pub fn clients(&self) -> usize
        ensures { result ≡ length self.now.net.links }
    {
        self.connections.len()
    }

    /// The connections, in their order, each with all that was written to it.
    pub fn connections(&self) -> &[Connection]
        requires { IsWhole self.now }
        ensures links { map link_of result.now ≡ self.now.net.links }
        ensures gone { (i : ℕ) → slice_index (map gone_of result.now) i ≡ 0 }
    {
        self.connections.kept()
    }
}
