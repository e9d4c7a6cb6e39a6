// What a line asks for that needs no other threads.
use crate::asked::{Job, LineFault, Look, Trail};
use crate::names::Name;

/// What a line asks for that needs no other threads, or why it asks for nothing.
#[derive(Clone, Copy)]
pub enum Task<'a> {
    /// The words are refused, or memory was wanted while they were read.
    Refuse(LineFault),
    /// A command over one file.
    Use(Job<'a>),
    /// A version that follows a trace.
    Replay(Trail<'a>),
    /// A version at a point of a trace.
    Inspect(Look<'a>),
    /// How a command is used, or each of them.
    Help(Option<Name>),
}
