//! Why checking stops.
ghost use Rattle.std.specs.Prelude.{◌≡◌, ◌<◌, ◌^◌};
ghost use Rattle.std.specs.Result.{OkIff};
ghost use Rattle.pas_tokens.specs.Cutting.{wrong};
ghost use Rattle.pas_tokens.specs.Tokens.{fault_in};
ghost use Rattle.pas_syntax.specs.Parse.{left_out as left_out_part};
ghost use Rattle.pas_scopes.specs.Stopping.{wrong_in, stop_before, found_before, maybe_found_before, demanded};

use std::alloc::{AllocError, AllocFailed};
use wb_base::faults::{PASCAL_LEFT_OUT, WRONG_TYPE};
use wb_base::{Fault, FileTag, OutOfMemory, WorkErr};

/// Why checking stops.
#[derive(Clone, Copy)]
pub enum Stop {
    /// No memory was found.
    OutOfMemory,
    /// A token shows this fault.
    Fault(Fault),
    /// Something is missing before the token behind what was looked at, which shows that as a wrong type.
    Missing,
}

impl Stop {
    // This, where the token behind what was looked at stands in this line.
    fn before(self, line: u32) -> Stop
        ensures { result ≡ stop_before line self }
    {
        match self {
            Stop::Missing => fault(WRONG_TYPE, line),
            stop => stop,
        }
    }
}

/// What was found of a part, where the token behind it stands in this line.
pub fn before<T>(line: u32, found: Result<T, Stop>) -> Result<T, Stop>
    ensures { result ≡ found_before line found }
{
    match found {
        Ok(value) => Ok(value),
        Err(stop) => Err(stop.before(line)),
    }
}

// What was found of a part, where the token behind it stands in this line, if that is known.
pub(crate) fn maybe_before<T>(line: Option<u32>, found: Result<T, Stop>) -> Result<T, Stop>
    ensures { result ≡ maybe_found_before line found }
{
    match line {
        Some(line) => before(line, found),
        None => found,
    }
}

/// What is wrong with a token: a fault, and of what is left out which part.
#[derive(Clone, Copy)]
pub struct Wrong {
    /// The number of the fault.
    pub code: u16,
    /// Which part is left out, or 0.
    pub which: u8,
}

// A token in this line shows what is wrong with it.
pub(crate) fn shown(wrong: Wrong, line: u32) -> Stop
    ensures { result ≡ Stop.Fault (fault_in line (wrong_in wrong)) }
{
    Stop::Fault(Fault {
        code: wrong.code,
        file: FileTag::Pas,
        line,
        which: wrong.which,
    })
}

/// A token in this line shows this fault.
pub fn fault(code: u16, line: u32) -> Stop
    ensures { result ≡ Stop.Fault (fault_in line (wrong code)) }
{
    shown(Wrong { code, which: 0 }, line)
}

// A token in this line shows a part of Pascal that is left out.
pub(crate) fn left_out(which: u8, line: u32) -> Stop
    ensures { result ≡ Stop.Fault (fault_in line (left_out_part which)) }
{
    shown(
        Wrong {
            code: PASCAL_LEFT_OUT,
            which,
        },
        line,
    )
}

/// A count as a number of 32 bits; more than fit are more than there is memory for.
pub fn count_of(count: usize) -> Result<u32, OutOfMemory>
    ensures { OkIff result (count < 2 ^ 32) count }
{
    u32::try_from(count).map_err(|_| OutOfMemory)
}

/// Refuses what does not hold by this fault of a token in this line.
pub fn demand(holds: bool, code: u16, line: u32) -> Result<(), Stop>
    ensures { result ≡ demanded holds code line }
{
    if holds {
        Ok(())
    } else {
        Err(fault(code, line))
    }
}

impl From<Stop> for WorkErr {
    ghost use Rattle.std.specs.Prelude.{◌≡◌};
    ghost use Rattle.pas_scopes.specs.Stopping.{work_err};

    ghost from_gives = { λ stop e. e ≡ work_err stop };

    fn from(stop: Stop) -> Self {
        match stop {
            Stop::OutOfMemory => WorkErr::OutOfMemory,
            Stop::Fault(fault) => WorkErr::Fault(fault),
            Stop::Missing => WorkErr::Fault(Fault {
                code: WRONG_TYPE,
                file: FileTag::Pas,
                line: 0,
                which: 0,
            }),
        }
    }
}

impl From<AllocError> for Stop {
    ghost use Rattle.std.specs.Prelude.{◌≡◌};
    ghost use Rattle.pas_scopes.specs.declared.stop.Stop.TheVariants.{OutOfMemory};

    ghost from_gives = { λ _ e. e ≡ OutOfMemory };

    fn from(_: AllocError) -> Self {
        Stop::OutOfMemory
    }
}

impl<T: Drop> From<AllocFailed<T>> for Stop {
    ghost use Rattle.std.specs.Prelude.{◌≡◌};
    ghost use Rattle.pas_scopes.specs.declared.stop.Stop.TheVariants.{OutOfMemory};

    ghost from_gives = { λ _ e. e ≡ OutOfMemory };

    fn from(_: AllocFailed<T>) -> Self {
        Stop::OutOfMemory
    }
}

impl From<OutOfMemory> for Stop {
    ghost use Rattle.std.specs.Prelude.{◌≡◌};
    ghost use Rattle.pas_scopes.specs.declared.stop.Stop.TheVariants.{OutOfMemory};

    ghost from_gives = { λ _ e. e ≡ OutOfMemory };

    fn from(_: OutOfMemory) -> Self {
        Stop::OutOfMemory
    }
}
