//! The chunks, as far as a log tells.
ghost use Rattle.std.specs.Prelude.{◌≡◌, ◌*◌, ◌%◌, ◌<◌, ◌≤◌, length};
ghost use Rattle.nv_pool.specs.Chunks.{AllUpTo};

/// Where the payloads of events begin in a ring of chunks. It looks back at as many events as there are places:
/// `starts` has the chunks of all events before each of these, `total` those of all. `at` is where the next event is kept in
/// `starts`, and `first` where its chunks begin: both go round, so that no event costs a division.
#[derive(Drop)]
pub struct Pool {
    pub(crate) chunks: u32,
    pub(crate) places: u32,
    pub(crate) count: u32,
    pub(crate) total: u32,
    pub(crate) at: u32,
    pub(crate) first: u32,
    pub(crate) starts: Vec<u32>,
    ghost sizes: { (0 < chunks) × (0 < places) × (length starts.items ≡ places) },
    ghost few: { (count ≤ 500000000) × (total ≤ 8 * count) },
    ghost turns: { (at ≡ count % places) × (first ≡ total % chunks) },
    ghost early: { (at ≤ count) × (first ≤ total) },
    ghost starts_are: { AllUpTo total starts.items },
}
