// How a step ends.

/// Why a guest stopped. `Budget`, `Deadlock` and `Calls` are a monitor's; a step gives the others.
#[derive(Clone, Copy, Debug, PartialEq, Eq)]
pub enum FaultKind {
    /// The word at the program counter is no instruction.
    Illegal,
    /// A jump or a taken branch to an address that isn't a multiple of 4.
    Misaligned,
    /// The four bytes at the program counter may not be executed.
    Fetch,
    /// The bytes may not be read.
    Load,
    /// The bytes may not be written.
    Store,
    /// An EBREAK.
    Breakpoint,
    /// The guest has run as many instructions as it may.
    Budget,
    /// No thread of the guest can go on.
    Deadlock,
    /// The guest has made as many calls as it may.
    Calls,
}

/// How a step ended.
#[derive(Clone, Copy, Debug, PartialEq, Eq)]
pub enum Stepped {
    /// The instruction was carried out.
    On,
    /// The instruction is an ECALL.
    Call,
    Fault(FaultKind),
}

/// Where an instruction goes on, or how it ended, where its address stands apart from the registers.
#[derive(Clone, Copy, Debug, PartialEq, Eq)]
pub enum Went {
    /// To the instruction behind it.
    Past,
    /// To the address that was given back, which may be any.
    To,
    /// The instruction is an ECALL.
    Call,
    Fault(FaultKind),
}
