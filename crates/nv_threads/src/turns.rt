// What is asked of a process, and what it comes to.
use nv_machine::FaultKind;

/// Whose call is wanted.
#[derive(Clone, Copy, Debug, PartialEq, Eq)]
pub enum Want {
    /// The next one, of any thread.
    Any,
    /// The next one of this thread.
    Only(u32),
}

/// What a process has come to.
#[derive(Clone, Copy, Debug, PartialEq, Eq)]
pub enum Came {
    /// A call of this thread.
    Asked(u32),
    /// A fault of this thread, at the instruction that faulted or wasn't run.
    Fault { kind: FaultKind, tid: u32, pc: u32 },
}

/// How far a process has gone on while no call of it was wanted yet.
#[derive(Clone, Copy, Debug, PartialEq, Eq, Drop)]
pub enum Ahead {
    /// It stays where it was.
    Stays,
    /// It has gone on, to where the same calls and faults come next.
    Goes,
    /// It has come to what comes next, whichever call is wanted.
    Comes(Came),
}
