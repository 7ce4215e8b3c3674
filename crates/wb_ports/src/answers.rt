//! How a call on an object of the outside is refused.
ghost use Rattle.std.specs.Prelude.{◌≡◌};

use std::alloc::{AllocError, AllocFailed};
use wb_base::OutOfMemory;

/// The call failed, which the object has counted. This project's own.
#[derive(Clone, Copy, Debug, PartialEq, Eq)]
pub struct Failed;

/// Why a call that also takes memory was refused. This project's own.
#[derive(Clone, Copy, Debug, PartialEq, Eq)]
pub enum PortErr {
    /// The call failed, which the object has counted.
    Failed,
    /// No memory was found.
    OutOfMemory,
}

impl From<OutOfMemory> for PortErr {
    ghost use Rattle.wb_ports.specs.declared.answers.PortErr.TheVariants.{OutOfMemory};

    ghost from_gives = { λ _ e. e ≡ OutOfMemory };

    fn from(_: OutOfMemory) -> Self {
        PortErr::OutOfMemory
    }
}

impl From<Failed> for PortErr {
    ghost use Rattle.wb_ports.specs.declared.answers.PortErr.TheVariants.{Failed};

    ghost from_gives = { λ _ e. e ≡ Failed };

    fn from(_: Failed) -> Self {
        PortErr::Failed
    }
}

impl From<AllocError> for PortErr {
    ghost use Rattle.wb_ports.specs.declared.answers.PortErr.TheVariants.{OutOfMemory};

    ghost from_gives = { λ _ e. e ≡ OutOfMemory };

    fn from(_: AllocError) -> Self {
        PortErr::OutOfMemory
    }
}

impl<T: Drop> From<AllocFailed<T>> for PortErr {
    ghost use Rattle.wb_ports.specs.declared.answers.PortErr.TheVariants.{OutOfMemory};

    ghost from_gives = { λ _ e. e ≡ OutOfMemory };

    fn from(_: AllocFailed<T>) -> Self {
        PortErr::OutOfMemory
    }
}
