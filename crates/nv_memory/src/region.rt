// What is asked of a memory.

/// The addresses from `start` to below `end`, and what may be done there.
#[derive(Clone, Copy, Debug, PartialEq, Eq)]
pub struct Region {
    pub start: u32,
    pub end: u32,
    pub read: bool,
    pub write: bool,
    pub execute: bool,
}

/// What is to be done with the bytes of a range.
#[derive(Clone, Copy, Debug, PartialEq, Eq)]
pub enum Right {
    Read,
    Write,
    Execute,
}

/// How many bytes a load or a store moves.
#[derive(Clone, Copy, Debug, PartialEq, Eq)]
pub enum Width {
    One,
    Two,
    Four,
}

/// A range that doesn't lie in one region with the right that was asked for: its first address.
#[derive(Clone, Copy, Debug, PartialEq, Eq)]
pub struct Access(pub u32);
