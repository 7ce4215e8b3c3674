//! Why a step of a file is not made.
ghost use Rattle.std.specs.Prelude.{◌≡◌};

use wb_ports::Failed;

/// Why a step of a file is not made. This project's own.
#[derive(Clone, Copy, Debug, PartialEq, Eq)]
pub enum Refused {
    /// The step is an error of this kind.
    Wrong(u8),
    /// A call of the port failed.
    Failed,
}

impl From<Failed> for Refused {
    ghost use Rattle.pas_run.specs.declared.refusals.Refused.TheVariants.{Failed};

    ghost from_gives = { λ _ e. e ≡ Failed };

    fn from(_: Failed) -> Self {
        Refused::Failed
    }
}
