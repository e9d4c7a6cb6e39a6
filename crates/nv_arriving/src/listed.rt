// What a script lists, which has all come when the kernel is made.
ghost use Rattle.std.specs.Prelude.{◌≡◌, IfOk, map};
ghost use Rattle.nv_script.specs.ArrivalViews.{view as arrival_of};

use nv_calls::Past;
use nv_live::Telling;
use nv_script::{Arrival, Outside, Said};
use std::alloc::{AllocError, Global};

/// An outside from which nothing comes, and which tells nothing of what is said.
#[derive(Drop)]
pub struct Nothing;

impl Outside for Nothing {
    ghost did = { λ _ _ _. ⊥ };

    ghost is_over = { λ _. Unit {0} };

    fn next(&mut self, _alloc: Global) -> Result<Option<Arrival>, AllocError> {
        Ok(None)
    }

    fn say(&mut self, _said: &Said<'_>) {}

    fn waits_to(&mut self, _seconds: u32, _nanos: u32) {}

    fn hands_over(&mut self, _length: usize) -> bool {
        false
    }
}

impl Telling for Nothing {
    ghost use Rattle.nv_live.specs.Telling.{nothing_code};

    ghost Told = { Unit {0} };

    ghost told_code = { nothing_code };

    ghost told = { λ _. tt };
}

// The same arrival, in memory of its own.
fn copy(alloc: Global, arrival: &Arrival) -> Result<Arrival, AllocError>
    ensures { IfOk result (λ made. arrival_of made ≡ arrival_of arrival.now) }
{
    Ok(match arrival {
        Arrival::Input(bytes) => Arrival::Input(bytes.as_slice().to_vec(alloc)?),
        Arrival::InputEnd => Arrival::InputEnd,
        Arrival::ClientsEnd => Arrival::ClientsEnd,
        Arrival::Connect(port) => Arrival::Connect(*port),
        Arrival::Data(client, bytes) => Arrival::Data(*client, bytes.as_slice().to_vec(alloc)?),
        Arrival::End(client) => Arrival::End(*client),
        Arrival::Time(seconds, nanos) => Arrival::Time(*seconds, *nanos),
    })
}

// The same arrivals, in memory of their own.
pub(crate) fn copies(alloc: Global, arrivals: &[Arrival]) -> Result<Past<Arrival>, AllocError>
    ensures same { IfOk result (λ made. map arrival_of made.items ≡ map arrival_of arrivals.now) }
    ensures gone { IfOk result (λ made. made.gone ≡ 0) }
{
    let mut made = Past::new(alloc);
    for arrival in arrivals {
        made.reserve(1)?;
        made.push(copy(alloc, arrival)?);
    }
    Ok(made)
}
