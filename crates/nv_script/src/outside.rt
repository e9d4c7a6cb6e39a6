// What a run takes from outside and what it says to it.
ghost use Rattle.std.specs.Prelude.{◌≡◌, ◌++◌, ◌∷◌, [], List, Ok, None};
ghost use Rattle.nv_script.specs.Doings.{Doing, Says, handing};
ghost use Rattle.nv_script.specs.ArrivalViews.{said_view, taking};

use crate::arrival::Arrival;
use std::alloc::{AllocError, Global};

/// What a run says to the outside. Clients are numbered from 0 in the order in which they connect, those of the script first.
#[derive(Drop)]
pub enum Said<'a> {
    /// This client is accepted.
    Accepted(usize),
    /// Some bytes for this client.
    Sent(usize, &'a [u8]),
    /// This client's descriptor is closed.
    Closed(usize),
    /// Some bytes for the console.
    Printed(&'a [u8]),
}

/// The outside of a run, both ways: one object, so that its one order of what was done has what was taken and what was said.
pub trait Outside: Drop {
    /// Between that object and this one these were done, in order.
    ghost did: { Self → Self → List Doing → Type 0 };

    /// Nothing more comes.
    ghost is_over: { Self → Type 0 };

    /// The next arrival, which may be waited for; nothing where nothing more comes.
    fn next(&mut self, alloc: Global) -> Result<Option<Arrival>, AllocError>
        ensures took { (first : Self) (done : List Doing) → did first self.old done → did first self.new (done ++ taking result) }
        ensures ends { result ≡ Ok None → is_over self.new }
        ensures stays { is_over self.old → is_over self.new };

    /// Says this. What fails is kept, and nothing more comes then.
    fn say(&mut self, said: &Said<'_>)
        ensures said { (first : Self) (done : List Doing) → did first self.old done → did first self.new (done ++ Says (said_view said.now) ∷ []) }
        ensures stays { is_over self.old → is_over self.new };

    /// Whether an operator's word has come, and wasn't told before, that the leader is to give up the lead: that it does so at this
    /// length of the log is told then.
    fn hands_over(&mut self, length: usize) -> bool
        ensures told { (first : Self) (done : List Doing) → did first self.old done → did first self.new (done ++ handing result length) }
        ensures stays { is_over self.old → is_over self.new };

    /// A call is about to wait for what comes, and waits at most up to this time, in seconds and nanoseconds since 1970: for whoever tells the time.
    fn waits_to(&mut self, seconds: u32, nanos: u32)
        ensures waits { (first : Self) (done : List Doing) → did first self.old done → did first self.new done }
        ensures stays { is_over self.old → is_over self.new };
}
