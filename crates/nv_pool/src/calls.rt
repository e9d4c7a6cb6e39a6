//! What a pool is asked.
ghost use Rattle.std.specs.Prelude.{◌≡◌, ℕ, ◌+◌, ◌%◌, ◌<◌, ◌≤◌, ◌-◌, ◌⊎◌, ◌↔◌, ◌++◌, List, [], ◌∷◌, length, IfOk, IsTrue};
ghost use Rattle.nv_pool.specs.Chunks.{chunks_of, chunks_of_first, chunks_of_rest, first_chunk};
ghost use Rattle.nv_pool.specs.Pool.{chunks_of_pool, places_of, count_of, Holds};

use crate::pool::Pool;
use std::alloc::{AllocError, Global};

// The chunks of a payload of so many bytes: eight bytes a word, 64 words a chunk.
fn chunks_of(bytes: u32) -> u32
    requires { bytes ≤ 4096 }
    ensures is { result ≡ chunks_of bytes }
    ensures few { result ≤ 8 }
{
    bytes.div_ceil(8).div_ceil(64)
}

// Where a number is in a ring of this size. Only one that has come round is divided.
fn within(at: u32, size: u32) -> u32
    requires { 0 < size }
    ensures { result ≡ at % size }
{
    if at < size { at } else { at % size }
}

// So many places back from this one in a ring of this size.
fn back(at: u32, count: u32, size: u32) -> u32
    requires { (at < size) × (0 < count) × (count ≤ size) }
    ensures { (result < size) × ((result + count ≡ at) ⊎ (result + count ≡ at + size)) }
{
    if count <= at {
        at - count
    } else {
        size - (count - at)
    }
}

impl Pool {
    /// So many chunks, for events of which so many are looked back at.
    pub fn make(alloc: Global, chunks: u32, places: u32) -> Result<Pool, AllocError>
        requires chunks { 0 < chunks }
        requires places { 0 < places }
        ensures sizes { IfOk result (λ p. (chunks_of_pool p ≡ chunks) × (places_of p ≡ places)) }
        ensures empty { IfOk result (λ p. Holds p []) }
        ensures count { IfOk result (λ p. count_of p ≡ 0) }
    {
        let starts = vec![in alloc; 0u32; places as usize]?;
        Ok(Pool {
            chunks,
            places,
            count: 0,
            total: 0,
            at: 0,
            first: 0,
            starts,
        })
    }

    /// A payload of so many bytes comes after all others: the first of its chunks.
    pub fn add(&mut self, bytes: u32) -> u32
        requires bytes { bytes ≤ 4096 }
        requires few { count_of self.old < 500000000 }
        ensures first { (sizes : List ℕ) → Holds self.old sizes → result ≡ first_chunk (chunks_of_pool self.old) sizes (length sizes) }
        ensures after { (sizes : List ℕ) → Holds self.old sizes → Holds self.new (sizes ++ bytes ∷ []) }
        ensures count { count_of self.new ≡ count_of self.old + 1 }
        ensures same { (chunks_of_pool self.new ≡ chunks_of_pool self.old) × (places_of self.new ≡ places_of self.old) }
    {
        let first = self.first;
        let chunks = chunks_of(bytes);
        self.starts[self.at as usize] = self.total;
        self.total += chunks;
        self.count += 1;
        self.at = within(self.at + 1, self.places);
        self.first = within(first + chunks, self.chunks);
        first
    }

    /// Whether the chunks of the payloads from `floor` on and of one more, of so many bytes, are no more than there are.
    pub fn fits(&self, bytes: u32, floor: u32) -> bool
        requires bytes { bytes ≤ 4096 }
        requires floor { floor ≤ count_of self.now }
        requires near { count_of self.now ≤ floor + places_of self.now }
        ensures { (sizes : List ℕ) → Holds self.now sizes → IsTrue result ↔ (chunks_of_rest sizes floor + chunks_of bytes ≤ chunks_of_pool self.now) }
    {
        self.total - self.start(floor) + chunks_of(bytes) <= self.chunks
    }

    /// How many events were added.
    pub fn count(&self) -> u32
        ensures { result ≡ count_of self.now }
    {
        self.count
    }

    /// The first chunk of a payload that comes after all others.
    pub fn next(&self) -> u32
        ensures is { (sizes : List ℕ) → Holds self.now sizes → result ≡ first_chunk (chunks_of_pool self.now) sizes (length sizes) }
        ensures below { result < chunks_of_pool self.now }
    {
        self.first
    }

    // The chunks of all events before this one.
    fn start(&self, event: u32) -> u32
        requires event { event ≤ count_of self.now }
        requires near { count_of self.now ≤ event + places_of self.now }
        ensures is { (sizes : List ℕ) → Holds self.now sizes → result ≡ chunks_of_first sizes event }
        ensures most { result ≤ self.now.total }
    {
        let later = self.count - event;
        if later == 0 {
            self.total
        } else {
            self.starts[back(self.at, later, self.places) as usize]
        }
    }
}
