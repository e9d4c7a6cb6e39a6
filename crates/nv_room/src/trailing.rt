//! How the lanes follow the events.
ghost use Rattle.std.specs.Prelude.{◌≡◌, ℕ, ◌+◌, ◌<◌, ◌≤◌, ◌++◌, List, [], ◌∷◌, length, sum, cond, ◌==◌, IfOk};
ghost use Rattle.std.specs.Int.{w32, cast_signed};
ghost use Rattle.nv_calls.specs.Limits.{MOST_EVENTS};
ghost use Rattle.nv_words.specs.Spelling.{low, high};
ghost use Rattle.nv_room.specs.Lanes.{noted_by};
ghost use Rattle.nv_pool.specs.Pool.{count_of};
ghost use Rattle.nv_room.specs.Trails.{Trails};

use crate::lanes::Lanes;
use crate::spot::PLACE_WORDS;
use crate::trail::Trail;
use nv_pool::Pool;
use std::alloc::{AllocError, Global};

/// How many numbers fit a half of a word.
const HALF: u64 = 4294967296;

fn low(word: u64) -> u32
    ensures { result ≡ low word }
{
    (word % HALF) as u32
}

fn high(word: u64) -> u32
    ensures { result ≡ high word }
{
    (word / HALF) as u32
}

// The word where it is the one wanted, else what was kept.
fn kept(old: u64, wanted: u32, i: u32, word: u64) -> u64
    ensures { result ≡ cond (i == wanted) word old }
{
    if i == wanted { word } else { old }
}

fn note(lanes: &mut Lanes, first: u64, sixth: u64)
    requires { sum lanes.old.counts < MOST_EVENTS }
    ensures { lanes.new ≡ noted_by lanes.old (low first) (high first) (cast_signed w32 (low sixth)) }
{
    lanes.note_call(low(first), high(first), low(sixth).cast_signed());
}

impl Trail {
    /// Before any event, in a room of so many places a lane.
    pub(crate) fn start(alloc: Global, places: u32) -> Result<Trail, AllocError>
        requires { (2 ≤ places) × (places ≤ 1024) }
        ensures { IfOk result (λ t. Trails places t [] []) }
    {
        Ok(Trail {
            lanes: Lanes::start(),
            pool: Pool::make(alloc, 2 * places + 8, places)?,
            first: 0,
            sixth: 0,
        })
    }

    /// One more word of the next event.
    pub(crate) fn keep(&mut self, i: u32, word: u64)
        ensures { (c : ℕ) (seen : List (List ℕ)) (words : List ℕ) → i ≡ length words → Trails c self.old seen words → Trails c self.new seen (words ++ word ∷ []) }
    {
        self.first = kept(self.first, 0, i, word);
        self.sixth = kept(self.sixth, 5, i, word);
    }

    /// The next event, which has so many words that were all kept, is seen.
    pub(crate) fn pass(&mut self, words: u32)
        requires few { (sum self.old.lanes.counts < MOST_EVENTS) × (count_of self.old.pool < MOST_EVENTS) }
        requires words { (6 ≤ words) × (words ≤ 518) }
        ensures { (c : ℕ) (seen : List (List ℕ)) (written : List ℕ) → words ≡ length written → Trails c self.old seen written → Trails c self.new (seen ++ written ∷ []) [] }
    {
        note(&mut self.lanes, self.first, self.sixth);
        self.pool.add(8 * (words - PLACE_WORDS));
    }
}
