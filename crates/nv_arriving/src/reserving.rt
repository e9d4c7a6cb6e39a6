// How much memory arrivals need, and the taking of it.
ghost use Rattle.std.specs.Prelude.{◌≡◌, ◌≤◌, ◌<◌, ◌+◌, ◌-◌, ℕ, suc, length, map, [], ◌∷◌, slice_index, OnOk, IfOk};
ghost use Rattle.nv_sockets.specs.Coming.{came_over, HasInput};
ghost use Rattle.nv_script.specs.ArrivalViews.{view as arrival_of};
ghost use Rattle.nv_arriving.specs.Reserved.{input_bytes, connects, data_of};

use crate::prepared::Prepared;
use nv_script::Arrival;
use nv_sockets::Sockets;
use std::alloc::AllocError;

// Together, where memory can be of that size.
fn together(count: usize, more: usize) -> Result<usize, AllocError>
    ensures { IfOk result (λ sum. sum ≡ count + more) }
{
    match count.checked_add(more) {
        Some(sum) => Ok(sum),
        None => Err(AllocError),
    }
}

// How many bytes one brings for descriptor 0.
fn brings(arrival: &Arrival) -> usize
    ensures { result ≡ input_bytes (arrival_of arrival.now ∷ []) }
{
    match arrival {
        Arrival::Input(bytes) => bytes.as_slice().len(),
        Arrival::InputEnd | Arrival::ClientsEnd | Arrival::Connect(_) => 0,
        Arrival::Data(_, _) | Arrival::End(_) | Arrival::Time(_, _) => 0,
    }
}

/// How many bytes come for descriptor 0.
pub(crate) fn input_bytes(arrivals: &[Arrival]) -> Result<usize, AllocError>
    ensures { IfOk result (λ count. count ≡ input_bytes (map arrival_of arrivals.now)) }
{
    let mut count: usize = 0;
    for arrival in arrivals {
        count = together(count, brings(arrival))?;
    }
    Ok(count)
}

fn is_client(arrival: &Arrival) -> usize
    ensures is { result ≡ connects (arrival_of arrival.now ∷ []) }
    ensures few { result ≤ 1 }
{
    match arrival {
        Arrival::Connect(_) => 1,
        Arrival::Input(_) | Arrival::InputEnd | Arrival::ClientsEnd => 0,
        Arrival::Data(_, _) | Arrival::End(_) | Arrival::Time(_, _) => 0,
    }
}

/// How many clients connect.
pub(crate) fn connects(arrivals: &[Arrival]) -> usize
    ensures is { result ≡ connects (map arrival_of arrivals.now) }
    ensures few { result ≤ length arrivals.now }
{
    let mut count: usize = 0;
    for arrival in arrivals {
        count += is_client(arrival);
    }
    count
}

fn forget(sockets: &mut Sockets, arrival: &Arrival)
    ensures { sockets.new ≡ record sockets.old { promised = sockets.new.promised } }
{
    match arrival {
        Arrival::Data(client, _) => sockets.forget(*client as usize),
        Arrival::Input(_) | Arrival::InputEnd | Arrival::ClientsEnd => {}
        Arrival::Connect(_) | Arrival::End(_) | Arrival::Time(_, _) => {}
    }
}

/// Of the clients that these come from memory is kept for nothing any more: what was taken for a call that wasn't served doesn't add up.
pub(crate) fn forget_all(sockets: &mut Sockets, arrivals: &[Arrival])
    ensures { sockets.new ≡ record sockets.old { promised = sockets.new.promised } }
{
    for arrival in arrivals {
        forget(sockets, arrival);
    }
}

// Memory for these bytes of a client that will connect, which so many do before it.
fn promise_next(kept: &mut Prepared, before: usize, bytes: &[u8]) -> Result<(), AllocError>
    ensures len { length kept.new ≡ length kept.old }
    ensures ok { OnOk result ((p : ℕ) → p < length kept.old → came_over before bytes.now (length kept.old - suc p) + slice_index kept.old p ≤ slice_index kept.new p) }
{
    let count = kept.len();
    if before < count {
        kept.promise(count - 1 - before, bytes.len())
    } else {
        Ok(())
    }
}

// Memory for these bytes of a client, which is there or will connect.
fn promise_client(
    sockets: &mut Sockets,
    kept: &mut Prepared,
    i: usize,
    bytes: &[u8],
) -> Result<(), AllocError>
    ensures others { sockets.new ≡ record sockets.old { promised = sockets.new.promised } }
    ensures len { length kept.new ≡ length kept.old }
    ensures data { OnOk result ((j n : ℕ) → HasInput sockets.old j n → HasInput sockets.new j (came_over i bytes.now j + n)) }
    ensures kept { OnOk result ((p : ℕ) → p < length kept.old → came_over i bytes.now (length sockets.old.net.links + length kept.old - suc p) + slice_index kept.old p ≤ slice_index kept.new p) }
{
    let there = sockets.clients();
    if i < there {
        sockets.promise(i, bytes.len())
    } else {
        promise_next(kept, i - there, bytes)
    }
}

fn promise(sockets: &mut Sockets, kept: &mut Prepared, arrival: &Arrival) -> Result<(), AllocError>
    ensures others { sockets.new ≡ record sockets.old { promised = sockets.new.promised } }
    ensures len { length kept.new ≡ length kept.old }
    ensures data { OnOk result ((j n : ℕ) → HasInput sockets.old j n → HasInput sockets.new j (data_of j (arrival_of arrival.now ∷ []) + n)) }
    ensures kept { OnOk result ((p : ℕ) → p < length kept.old → data_of (length sockets.old.net.links + length kept.old - suc p) (arrival_of arrival.now ∷ []) + slice_index kept.old p ≤ slice_index kept.new p) }
{
    match arrival {
        Arrival::Data(client, bytes) => promise_client(
            sockets,
            kept,
            *client as usize,
            bytes.as_slice(),
        ),
        Arrival::Input(_) | Arrival::InputEnd | Arrival::ClientsEnd => Ok(()),
        Arrival::Connect(_) | Arrival::End(_) | Arrival::Time(_, _) => Ok(()),
    }
}

/// Memory for what comes from clients, of those that are there and of those that will connect.
pub(crate) fn promise_all(
    sockets: &mut Sockets,
    kept: &mut Prepared,
    arrivals: &[Arrival],
) -> Result<(), AllocError>
    ensures others { sockets.new ≡ record sockets.old { promised = sockets.new.promised } }
    ensures len { length kept.new ≡ length kept.old }
    ensures data { OnOk result ((j : ℕ) → HasInput sockets.new j (data_of j (map arrival_of arrivals.now))) }
    ensures kept { OnOk result ((p : ℕ) → p < length kept.new → data_of (length sockets.new.net.links + length kept.new - suc p) (map arrival_of arrivals.now) ≤ slice_index kept.new p) }
{
    for arrival in arrivals {
        promise(sockets, kept, arrival)?;
    }
    Ok(())
}
