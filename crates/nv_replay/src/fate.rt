// How a version ended.
use nv_threads::FaultKind;

/// How a version ended.
#[derive(Clone, Copy, Debug, PartialEq, Eq, Drop)]
pub enum Fate {
    /// Its process exited, with this status.
    Exited(u8),
    /// A fault of this thread, at this instruction.
    Fault {
        kind: FaultKind,
        tid: u32,
        pc: u32,
    },
    /// As a follower it made another call than the log has, and no rule permits it: the call's thread and number, the
    /// event's place in the log, and the value of the rules.
    Refused {
        tid: u32,
        nr: u32,
        stamp: u32,
        verdict: u32,
    },
    /// As the leader it made a call for which there was no memory.
    Memory,
    /// As a follower it was let go: the leader had waited for it too long.
    LetGo,
}
