//! How calls on a pool are refused.
ghost use Rattle.std.specs.Prelude.{◌≡◌};

use std::alloc::{AllocError, AllocFailed};
use wb_base::Fault;

/// Why a string was not added to a pool.
#[derive(Clone, Copy, Debug, PartialEq, Eq)]
pub enum PoolErr {
    /// It has more than 99 bytes, which is fault 15.
    TooLong,
    /// It is new, and its number would be past 32,767, which is fault 28 (5).
    Full,
    /// No memory was found.
    OutOfMemory,
}

impl From<AllocError> for PoolErr {
    ghost use Rattle.web_pool.specs.declared.refusals.PoolErr.TheVariants.{OutOfMemory};

    ghost from_gives = { λ _ e. e ≡ OutOfMemory };

    fn from(_: AllocError) -> Self {
        PoolErr::OutOfMemory
    }
}

impl<T: Drop> From<AllocFailed<T>> for PoolErr {
    ghost use Rattle.web_pool.specs.declared.refusals.PoolErr.TheVariants.{OutOfMemory};

    ghost from_gives = { λ _ e. e ≡ OutOfMemory };

    fn from(_: AllocFailed<T>) -> Self {
        PoolErr::OutOfMemory
    }
}

/// Why the listing of a pool ended before its end.
#[derive(Clone, Copy, Debug, PartialEq, Eq)]
pub enum PoolTypeErr {
    /// The pool has a fault.
    Fault(Fault),
    /// A call on the sink failed, which the sink has counted.
    Failed,
}
