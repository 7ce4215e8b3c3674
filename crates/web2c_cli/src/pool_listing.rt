//! From a pool on the shelf to its listing on the console.
ghost use Rattle.std.specs.Prelude.{◌≡◌, ℕ, List, Option, false};
ghost use Rattle.wb_ports.specs.Counts.{CountsFailure};
ghost use Rattle.wb_ports.specs.PortState.{PortState};
ghost use Rattle.tangle_core.specs.Job.{world_of};
ghost use Rattle.web2c_cli.specs.inner.Reaching.{ListingPool, PrintingListing};
ghost use Rattle.web2c_cli.specs.inner.Reaching.{is_halted_by_shelf, is_halted_by_console, is_halted_by_port};

use crate::calls::load;
use crate::halt::Halt;
use std::alloc::Global;
use wb_ports::{Shelf, Sink};
use web_pool::pooltype;

/// Loads a pool and prints its listing.
pub fn list_pool<S: Shelf, K: Sink>(
    alloc: Global,
    name: &[u8],
    shelf: &mut S,
    con: &mut K,
) -> Result<(), Halt>
    ensures work { (ports : List (Option PortState)) → ListingPool name.now result (S.last_failure shelf.new)
        (world_of (S.files shelf.old) (K.held con.old) ports) (world_of (S.files shelf.new) (K.held con.new) ports) }
    ensures is_open { S.is_open shelf.new ≡ S.is_open shelf.old }
    ensures shelf_cause { CountsFailure (is_halted_by_shelf result) (S.faults shelf.old) (S.faults shelf.new) }
    ensures con_cause { CountsFailure (is_halted_by_console result) (K.faults con.old) (K.faults con.new) }
    ensures no_port { is_halted_by_port result ≡ false }
    ensures frame { K.frame con.new ≡ K.frame con.old }
{
    let pool = load(alloc, name, shelf)?;
    print_listing(pool.bytes(), con)
}

// Prints the listing of a pool.
fn print_listing<K: Sink>(pool: &[u8], con: &mut K) -> Result<(), Halt>
    ensures work { PrintingListing pool.now result (K.held con.old) (K.held con.new) }
    ensures cause { CountsFailure (is_halted_by_console result) (K.faults con.old) (K.faults con.new) }
    ensures quiet { (is_halted_by_shelf result ≡ false) × (is_halted_by_port result ≡ false) }
    ensures frame { K.frame con.new ≡ K.frame con.old }
{
    pooltype(pool, con)?;
    Ok(())
}
