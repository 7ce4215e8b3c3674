//! Why a run stops, and how a statement goes on.
ghost use Rattle.std.specs.Prelude.{◌≡◌};
ghost use Rattle.pas_run.specs.inner.Doings as spec;
ghost use Rattle.pas_run.specs.inner.Running as running;

use crate::Refused;
use std::alloc::{AllocError, AllocFailed};
use wb_base::OutOfMemory;

// Why a statement is the last one of a run.
#[derive(Clone, Copy, Debug, PartialEq, Eq)]
pub(crate) enum Stop {
    // The run halts with this status.
    Halted(u8),
    // It would take one step more.
    Going,
    // It commits an error of this kind.
    Wrong(u8),
    // Too many calls are active.
    TooDeep,
    // A call of a port failed.
    PortFailed,
    // No memory was found.
    OutOfMemory,
}

impl Stop {
    // Whether a run that stops so came to an end, and was not cut off.
    pub(crate) fn is_end(self) -> bool
        ensures { result ≡ spec.is_end self }
    {
        match self {
            Stop::PortFailed | Stop::OutOfMemory => false,
            Stop::Halted(_) | Stop::Going | Stop::Wrong(_) | Stop::TooDeep => true,
        }
    }
}

// How a statement goes on.
#[derive(Clone, Copy, Debug, PartialEq, Eq)]
pub(crate) enum Flow {
    // Behind itself.
    Next,
    // Behind the loop around it.
    Leaves,
    // At a label of a list around it.
    Jump(u32),
}

// How a statement goes on that did something: behind itself.
pub(crate) fn next_behind(done: Result<(), Stop>) -> Result<Flow, Stop>
    ensures { result ≡ running.next_behind done }
{
    match done {
        Ok(()) => Ok(Flow::Next),
        Err(why) => Err(why),
    }
}

// What a step of a file answers, or why the run stops.
pub(crate) fn stopped<T: Drop>(answer: Result<T, Refused>) -> Result<T, Stop>
    ensures { result ≡ spec.stopped answer }
{
    Ok(answer?)
}

impl From<Refused> for Stop {
    ghost use Rattle.std.specs.Prelude.{◌≡◌};
    ghost use Rattle.pas_run.specs.inner.Doings.{stop_by};

    ghost from_gives = { λ refused e. e ≡ stop_by refused };

    fn from(refused: Refused) -> Self {
        match refused {
            Refused::Wrong(kind) => Stop::Wrong(kind),
            Refused::Failed => Stop::PortFailed,
        }
    }
}

impl From<OutOfMemory> for Stop {
    ghost use Rattle.std.specs.Prelude.{◌≡◌};
    ghost use Rattle.pas_run.specs.declared.ends.Stop.TheVariants.{OutOfMemory};

    ghost from_gives = { λ _ e. e ≡ OutOfMemory };

    fn from(_: OutOfMemory) -> Self {
        Stop::OutOfMemory
    }
}

impl From<AllocError> for Stop {
    ghost use Rattle.std.specs.Prelude.{◌≡◌};
    ghost use Rattle.pas_run.specs.declared.ends.Stop.TheVariants.{OutOfMemory};

    ghost from_gives = { λ _ e. e ≡ OutOfMemory };

    fn from(_: AllocError) -> Self {
        Stop::OutOfMemory
    }
}

impl<T: Drop> From<AllocFailed<T>> for Stop {
    ghost use Rattle.std.specs.Prelude.{◌≡◌};
    ghost use Rattle.pas_run.specs.declared.ends.Stop.TheVariants.{OutOfMemory};

    ghost from_gives = { λ _ e. e ≡ OutOfMemory };

    fn from(_: AllocFailed<T>) -> Self {
        Stop::OutOfMemory
    }
}
