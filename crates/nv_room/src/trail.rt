//! What a seat keeps of the events.
ghost use Rattle.std.specs.Prelude.{◌≡◌, ℕ, ◌+◌, ◌<◌, ◌≤◌, ◌++◌, List, [], ◌∷◌, length, sum, if◌then◌else◌, ◌==◌};
ghost use Rattle.std.specs.Int.{w32, cast_signed};
ghost use Rattle.nv_words.specs.Spelling.{low, high};
ghost use Rattle.nv_room.specs.Lanes.{noted_by};

use crate::lanes::Lanes;
use nv_pool::Pool;

/// The lanes and the chunks after the events that were seen, and of the next event the first word and the sixth, which tell its thread,
/// its number and its result.
#[derive(Drop)]
pub struct Trail {
    pub(crate) lanes: Lanes,
    pub(crate) pool: Pool,
    pub(crate) first: u64,
    pub(crate) sixth: u64,
}
