//! What a run answers.

/// How a run of a program ends. This project's own.
#[derive(Clone, Copy, Debug, PartialEq, Eq)]
pub enum End {
    /// It halts with this status.
    Halted(u8),
    /// It would take a step more than it may.
    Going,
    /// It commits the error of this kind.
    Error(u8),
}

/// Why a run does not come to such an end. This project's own.
#[derive(Clone, Copy, Debug, PartialEq, Eq)]
pub enum RunErr {
    /// A call began while as many were active as may be.
    TooDeep,
    /// A call of a port failed.
    PortFailed,
    /// No memory was found.
    OutOfMemory,
}
