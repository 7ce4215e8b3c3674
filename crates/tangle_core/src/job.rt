//! What the tangle job is asked for, and what it answers.
ghost use Rattle.std.specs.Prelude.{◌≡◌};

use crate::EmitErr;
use wb_base::{Fault, Options, OutOfMemory, Text, WorkErr};
use wb_ports::{Failed, PortErr};

/// What is to be tangled.
#[derive(Drop)]
pub struct Job {
    /// The name of the web.
    pub web: Text,
    /// The name of the change file, if there is one.
    pub change: Option<Text>,
    /// The name of the Pascal file without its end `.p`, and of the pool without its end `.pool`.
    pub base: Text,
    /// The options.
    pub options: Options,
}

/// A copy of the Pascal text, for whoever goes on with it.
#[derive(Drop)]
pub struct TextCopy {
    /// The text: at most its first 16,777,217 bytes.
    pub kept: Text,
    /// Whether the copy is wanted. One that is not stays as it was.
    pub wanted: bool,
    /// Whether no memory was found for the copy.
    pub refused: bool,
}

/// What was tangled.
#[derive(Clone, Copy, Debug, PartialEq, Eq)]
pub struct Done {
    /// The number of the lines of the Pascal file.
    pub lines: u32,
    /// The number of the strings of the pool.
    pub strings: u32,
    /// Whether no output was specified: the web has no Pascal text without a name.
    pub no_output: bool,
}

/// Why a web was not tangled.
#[derive(Clone, Copy, Debug, PartialEq, Eq)]
pub enum TangleErr {
    /// The web or its change file has this fault.
    Fault(Fault),
    /// A call of the shelf failed, which the shelf has counted.
    Failed,
    /// No memory was found.
    OutOfMemory,
}

impl From<OutOfMemory> for TangleErr {
    ghost use Rattle.tangle_core.specs.declared.job.TangleErr.TheVariants.{OutOfMemory};

    ghost from_gives = { λ _ err. err ≡ OutOfMemory };

    fn from(_: OutOfMemory) -> Self {
        TangleErr::OutOfMemory
    }
}

impl From<WorkErr> for TangleErr {
    ghost use Rattle.tangle_core.specs.inner.Refusing.{by_work};

    ghost from_gives = { λ err other. other ≡ by_work err };

    fn from(err: WorkErr) -> Self {
        match err {
            WorkErr::Fault(fault) => TangleErr::Fault(fault),
            WorkErr::OutOfMemory => TangleErr::OutOfMemory,
        }
    }
}

impl From<PortErr> for TangleErr {
    ghost use Rattle.tangle_core.specs.inner.Refusing.{by_port};

    ghost from_gives = { λ err other. other ≡ by_port err };

    fn from(err: PortErr) -> Self {
        match err {
            PortErr::Failed => TangleErr::Failed,
            PortErr::OutOfMemory => TangleErr::OutOfMemory,
        }
    }
}

impl From<EmitErr> for TangleErr {
    ghost use Rattle.tangle_core.specs.inner.Refusing.{by_emission};

    ghost from_gives = { λ err other. other ≡ by_emission err };

    fn from(err: EmitErr) -> Self {
        match err {
            EmitErr::Fault(fault) => TangleErr::Fault(fault),
            EmitErr::Failed => TangleErr::Failed,
        }
    }
}

impl From<Failed> for TangleErr {
    ghost use Rattle.tangle_core.specs.declared.job.TangleErr.TheVariants.{Failed};

    ghost from_gives = { λ _ err. err ≡ Failed };

    fn from(_: Failed) -> Self {
        TangleErr::Failed
    }
}
