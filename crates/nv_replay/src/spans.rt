// The parts of a log that a version has led.
ghost use Rattle.std.specs.Prelude.{◌≡◌, ◌<◌, [], ◌∷◌, ◌++◌, length, IfOk};
ghost use Rattle.nv_replay.specs.Spans.{grown, EndBy, MOST_SPANS};

use std::alloc::{AllocError, Global};
use std::marker::Model;

/// How many parts of a log a version leads at most: one, and one more for each planned length.
const MOST_SPANS: usize = 9;

/// The parts of a log that a version has led: each covers the events from its first number to below its second.
#[derive(Drop)]
pub struct Spans {
    held: Vec<(u32, u32)>,
}

impl Model for Spans {
    ghost use Rattle.std.specs.Prelude.{◌≤◌, ℕ, List, vec_capacity};
    ghost use Rattle.nv_replay.specs.Spans.{MOST_SPANS};

    ghost Value = { List (ℕ × ℕ) };

    ghost view = { λ s. s.held.items };

    ghost invariant = { λ s. MOST_SPANS ≤ vec_capacity s.held };
}

impl Spans {
    /// None yet, with memory for the most.
    pub fn make(alloc: Global) -> Result<Spans, AllocError>
        ensures { IfOk result (λ s. s ≡ []) }
    {
        let held = Vec::with_capacity(alloc, MOST_SPANS)?;
        Ok(Spans { held })
    }

    /// One more begins at this event.
    pub fn begin(&mut self, at: u32)
        requires { length self.old < MOST_SPANS }
        ensures { self.new ≡ self.old ++ (at, at) ∷ [] }
    {
        match self.held.push((at, at)) {
            Ok(()) => {}
            Err(_) => unreachable!(),
        }
    }

    /// The last one has one event more.
    pub fn grow(&mut self)
        requires { EndBy 499999999 self.old }
        ensures { self.new ≡ grown self.old }
    {
        let count = self.held.len();
        if count > 0 {
            self.held[count - 1].1 += 1;
        }
    }

    /// In order.
    pub fn as_slice(&self) -> &[(u32, u32)]
        ensures { result.now ≡ self.now }
    {
        self.held.as_slice()
    }
}
