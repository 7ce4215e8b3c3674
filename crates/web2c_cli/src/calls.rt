//! Calls of the shelf and the console as parts of the work.
ghost use Rattle.std.specs.Prelude.{◌≡◌, false, IfErr};
ghost use Rattle.wb_ports.specs.Counts.{CountsFailure};
ghost use Rattle.wb_ports.specs.Files.{SameFiles};
ghost use Rattle.wb_ports.specs.Held.{WhereTold};
ghost use Rattle.web2c_cli.specs.inner.Reaching.{Loading, Printing, is_by_shelf, is_by_console, is_by_port};

use crate::halt::Stop;
use std::alloc::Global;
use wb_base::Text;
use wb_ports::{Failed, Shelf, Sink};

/// Loads a file.
pub fn load<S: Shelf>(alloc: Global, name: &[u8], shelf: &mut S) -> Result<Text, Stop>
    ensures work { Loading name.now result (S.last_failure shelf.new) (S.files shelf.old) (S.files shelf.new) }
    ensures same { WhereTold SameFiles (S.files shelf.old) (S.files shelf.new) }
    ensures is_open { S.is_open shelf.new ≡ S.is_open shelf.old }
    ensures cause { CountsFailure (is_by_shelf result) (S.faults shelf.old) (S.faults shelf.new) }
    ensures quiet { (is_by_console result ≡ false) × (is_by_port result ≡ false) }
{
    let text = shelf.load(alloc, name)?;
    Ok(text)
}

/// Prints a text; of an empty one the console hears nothing.
pub fn print<K: Sink>(con: &mut K, text: &[u8]) -> Result<(), Stop>
    ensures work { Printing text.now result (K.held con.old) (K.held con.new) }
    ensures cause { CountsFailure (is_by_console result) (K.faults con.old) (K.faults con.new) }
    ensures err { IfErr result (λ stop. stop ≡ Stop.Console) }
    ensures frame { K.frame con.new ≡ K.frame con.old }
{
    if text.is_empty() {
        return Ok(());
    }
    match con.write(text) {
        Ok(()) => Ok(()),
        Err(Failed) => Err(Stop::Console),
    }
}
