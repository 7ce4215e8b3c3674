//! Why work went no further.
ghost use Rattle.std.specs.Prelude.{◌≡◌};

use tangle_core::TangleErr;
use wb_base::{Fault, OutOfMemory, WorkErr};
use wb_ports::PortErr;
use web_pool::PoolTypeErr;

/// What stopped work on its way.
#[derive(Clone, Copy)]
pub enum Stop {
    /// A call of the shelf failed.
    Shelf,
    /// A call of the console failed.
    Console,
    /// A call of a port failed.
    Port,
    /// No memory was found.
    OutOfMemory,
}

/// Why work went no further.
#[derive(Clone, Copy)]
pub enum Halt {
    /// An input has a fault.
    Fault(Fault),
    /// The work was stopped.
    Stopped(Stop),
}

// A `PortErr` comes from the shelf alone.
impl From<PortErr> for Stop {
    ghost use Rattle.web2c_cli.specs.inner.Reaching.{stop_by_port};

    ghost from_gives = { λ err stop. stop ≡ stop_by_port err };

    fn from(err: PortErr) -> Self {
        match err {
            PortErr::Failed => Stop::Shelf,
            PortErr::OutOfMemory => Stop::OutOfMemory,
        }
    }
}

impl From<OutOfMemory> for Stop {
    ghost use Rattle.web2c_cli.specs.declared.halt.Stop.TheVariants.{OutOfMemory};

    ghost from_gives = { λ _ stop. stop ≡ OutOfMemory };

    fn from(_: OutOfMemory) -> Self {
        Stop::OutOfMemory
    }
}

impl From<OutOfMemory> for Halt {
    ghost use Rattle.web2c_cli.specs.declared.halt.Stop.TheVariants.{OutOfMemory};
    ghost use Rattle.web2c_cli.specs.declared.halt.Halt.TheVariants.{Stopped};

    ghost from_gives = { λ _ halt. halt ≡ Stopped OutOfMemory };

    fn from(_: OutOfMemory) -> Self {
        Halt::Stopped(Stop::OutOfMemory)
    }
}

impl From<Stop> for Halt {
    ghost use Rattle.web2c_cli.specs.declared.halt.Halt.TheVariants.{Stopped};

    ghost from_gives = { λ stop halt. halt ≡ Stopped stop };

    fn from(stop: Stop) -> Self {
        Halt::Stopped(stop)
    }
}

impl From<TangleErr> for Halt {
    ghost use Rattle.web2c_cli.specs.inner.Reaching.{halt_by_tangling};

    ghost from_gives = { λ err halt. halt ≡ halt_by_tangling err };

    fn from(err: TangleErr) -> Self {
        match err {
            TangleErr::Fault(fault) => Halt::Fault(fault),
            TangleErr::Failed => Halt::Stopped(Stop::Shelf),
            TangleErr::OutOfMemory => Halt::Stopped(Stop::OutOfMemory),
        }
    }
}

impl From<WorkErr> for Halt {
    ghost use Rattle.web2c_cli.specs.inner.Running.{halt_by_work};

    ghost from_gives = { λ err halt. halt ≡ halt_by_work err };

    fn from(err: WorkErr) -> Self {
        match err {
            WorkErr::Fault(fault) => Halt::Fault(fault),
            WorkErr::OutOfMemory => Halt::Stopped(Stop::OutOfMemory),
        }
    }
}

// What the listing of a pool is printed on is the console alone.
impl From<PoolTypeErr> for Halt {
    ghost use Rattle.web2c_cli.specs.inner.Reaching.{halt_by_listing};

    ghost from_gives = { λ err halt. halt ≡ halt_by_listing err };

    fn from(err: PoolTypeErr) -> Self {
        match err {
            PoolTypeErr::Fault(fault) => Halt::Fault(fault),
            PoolTypeErr::Failed => Halt::Stopped(Stop::Console),
        }
    }
}
