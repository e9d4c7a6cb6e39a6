// The streams of a live run.

/// What a live run reads, what it writes, and what its transcript is written into.
#[derive(Drop)]
pub struct Streams<I, O, T> {
    pub input: I,
    pub output: O,
    pub transcript: T,
}
