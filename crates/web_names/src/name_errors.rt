//! Why a name is refused.

ghost use Rattle.std.specs.Prelude.{◌≡◌};

use std::alloc::{AllocError, AllocFailed};

/// Why a name is refused. Each variant but the last two stands for one fault of a web; `Full` is the limit of names
/// or of section names.
#[derive(Clone, Copy, Debug, PartialEq, Eq)]
pub enum NameErr {
    /// A numeric macro's name appeared as an ordinary identifier before.
    Appeared,
    /// The name is a macro already.
    Before,
    /// Another ordinary identifier has the same compared form.
    Conflict,
    /// No section name begins with the prefix.
    NoMatch,
    /// Several section names begin with the prefix.
    Ambiguous,
    /// Of this section name and another, one begins with the other.
    Incompatible,
    /// As many names are held as may be.
    Full,
    /// No memory was found.
    OutOfMemory,
}

impl From<AllocError> for NameErr {
    ghost use Rattle.web_names.specs.declared.name_errors.NameErr.TheVariants.{OutOfMemory};

    ghost from_gives = { λ _ e. e ≡ OutOfMemory };

    fn from(_: AllocError) -> Self {
        NameErr::OutOfMemory
    }
}

impl<T: Drop> From<AllocFailed<T>> for NameErr {
    ghost use Rattle.web_names.specs.declared.name_errors.NameErr.TheVariants.{OutOfMemory};

    ghost from_gives = { λ _ e. e ≡ OutOfMemory };

    fn from(_: AllocFailed<T>) -> Self {
        NameErr::OutOfMemory
    }
}
