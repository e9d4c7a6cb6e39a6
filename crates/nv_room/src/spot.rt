//! The words of one event.
ghost use Rattle.std.specs.Prelude.{◌≡◌, ◌+◌, ◌*◌, ◌%◌, ◌<◌, ◌≤◌, length, slice_index};
ghost use Rattle.nv_room.specs.Placement.{slot, pool_word, pool_chunks, spot, table_words};

/// How many words of an event stand in a place; the others stand in the pool.
pub const PLACE_WORDS: u32 = 6;

/// How many words a chunk has.
const CHUNK_WORDS: u32 = 64;

/// How many lanes there are.
const LANES: u32 = 8;

/// Where an event stands: the place of its lane, and the first of its chunks.
#[derive(Clone, Copy, Debug, PartialEq, Eq, Drop)]
pub struct Spot {
    pub lane: u32,
    pub place: u32,
    pub first: u32,
}

impl Spot {
    /// The table's word that has the word `j` of the event, in the table of so many stations and places a lane.
    pub fn word(&self, stations: u32, places: u32, j: u32) -> usize
        requires lane { self.now.lane < 8 }
        requires place { self.now.place < places }
        requires first { self.now.first < pool_chunks places }
        requires sizes { (stations ≤ 16) × (places ≤ 1024) }
        requires small { j < 518 }
        ensures { result ≡ spot stations places self.now.lane self.now.place self.now.first j }
    {
        if j < PLACE_WORDS {
            self.word_of_place(stations, places, j)
        } else {
            self.word_of_pool(stations, places, j - PLACE_WORDS)
        }
    }

    #[tactic(auto, unfolding(crate::specs::Placement::slot))]
    fn word_of_place(&self, stations: u32, places: u32, j: u32) -> usize
        requires { (self.now.lane < 8) × (self.now.place < places) × (stations ≤ 16) × (places ≤ 1024) × (j < 6) }
        ensures { result ≡ slot stations places self.now.lane self.now.place j }
    {
        ((self.lane * places + self.place) * PLACE_WORDS + j + 8 * (stations + 2)) as usize
    }

    // An event has fewer words than the pool, so it passes the pool's end at most once.
    #[tactic(auto, unfolding(crate::specs::Placement::pool_word))]
    fn word_of_pool(&self, stations: u32, places: u32, i: u32) -> usize
        requires { (self.now.first < pool_chunks places) × (stations ≤ 16) × (places ≤ 1024) × (i < 512) }
        ensures { result ≡ pool_word stations places self.now.first (i + 6) }
    {
        let words = CHUNK_WORDS * (2 * places + 8);
        let at = wrapped(CHUNK_WORDS * self.first + i, words);
        (at + (LANES * places * PLACE_WORDS + 8 * (stations + 2))) as usize
    }
}

// A number that is less than two turns, within its turn.
fn wrapped(at: u32, turn: u32) -> u32
    requires { at < 2 * turn }
    ensures { result ≡ at % turn }
{
    if at < turn { at } else { at - turn }
}
