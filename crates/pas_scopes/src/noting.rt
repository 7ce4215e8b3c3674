//! The first fault that is noted, where checking goes on behind it.
ghost use Rattle.std.specs.Prelude.{◌≡◌, ◌≢◌, Err, IfOk, OnOk, OnErr};
ghost use Rattle.pas_scopes.specs.declared.stop.Stop.TheVariants as stop;
ghost use Rattle.pas_scopes.specs.DeclaredSoFar.{first_noted};

use crate::stop::Stop;
use wb_base::{Fault, OutOfMemory};

/// Notes why checking stops in a part, where it is the first fault. Want of memory is handed on.
pub fn note(noted: &mut Option<Fault>, found: Result<(), Stop>) -> Result<(), OutOfMemory>
    ensures noted { OnOk result (noted.new ≡ first_noted noted.old found) }
    ensures ok { IfOk result (λ _. found ≢ Err stop.OutOfMemory) }
    ensures err { OnErr result (noted.new ≡ noted.old) }
{
    match found {
        Ok(()) | Err(Stop::Missing) => Ok(()),
        Err(Stop::OutOfMemory) => Err(OutOfMemory),
        Err(Stop::Fault(fault)) => {
            if noted.is_none() {
                *noted = Some(fault);
            }
            Ok(())
        }
    }
}
