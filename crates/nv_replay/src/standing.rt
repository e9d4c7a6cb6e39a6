// What there is to tell of a version.
use crate::{Fate, Spans};

/// What there is to tell of a version.
#[derive(Drop)]
pub struct Standing {
    /// How it ended, once it has.
    pub fate: Option<Fate>,
    /// How many events of the log it has consumed or led.
    pub seen: u32,
    /// The parts of the log that it led.
    pub led: Spans,
    /// How often a rule answered it otherwise than the log, or passed an event over.
    pub rewrites: u64,
}
