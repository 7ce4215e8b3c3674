//! From a web on the shelf to its Pascal file and its pool.
ghost use Rattle.std.specs.Prelude.{◌≡◌, ◌⊎◌, ℕ, List, Option, false, IfOk, IsErrOf};
ghost use Rattle.wb_ports.specs.Counts.{CountsFailure};
ghost use Rattle.wb_ports.specs.PortState.{PortState};
ghost use Rattle.tangle_core.specs.Job.{world_of};
ghost use Rattle.web2c_cli.specs.Program.{job_of};
ghost use Rattle.web2c_cli.specs.declared.halt.Halt.TheVariants.{Stopped};
ghost use Rattle.web2c_cli.specs.inner.Reading.{order_by};
ghost use Rattle.web2c_cli.specs.inner.Reaching.{Tangling, TellingNoOutput, is_by_shelf, is_by_console, is_by_port};
ghost use Rattle.web2c_cli.specs.inner.Reaching.{is_halted_by_shelf, is_halted_by_console, is_halted_by_port};

use crate::calls::print;
use crate::command_line::Order;
use crate::file_names::output_name;
use crate::halt::{Halt, Stop};
use crate::texts::copy_of;
use std::alloc::Global;
use tangle_core::{Job, TextCopy, tangle};
use wb_base::{OutOfMemory, Text};
use wb_ports::{Shelf, Sink};

// The line that tells that a web has no Pascal text without a name.
const NO_OUTPUT_LINE: &[u8] = b"! No output was specified.\n";

/// Tangles the web of an order, with its change file, if there is one, and tells where no output was specified.
pub fn tangle_web<S: Shelf, K: Sink>(
    alloc: Global,
    order: &Order<'_>,
    shelf: &mut S,
    con: &mut K,
) -> Result<(), Halt>
    requires { S.is_open shelf.old ≡ false }

    ensures work { (ports : List (Option PortState)) →
        Tangling (order_by order.now) result (S.last_failure shelf.new)
        (world_of (S.files shelf.old) (K.held con.old) ports) (world_of (S.files shelf.new) (K.held con.new) ports) }
    ensures closed { IsErrOf result (Stopped Stop.Shelf) ⊎ (S.is_open shelf.new ≡ false) }
    ensures shelf_cause { CountsFailure (is_halted_by_shelf result) (S.faults shelf.old) (S.faults shelf.new) }
    ensures con_cause { CountsFailure (is_halted_by_console result) (K.faults con.old) (K.faults con.new) }
    ensures no_port { is_halted_by_port result ≡ false }
    ensures frame { K.frame con.new ≡ K.frame con.old }
{
    let job = job_of(alloc, order)?;
    let mut copy = TextCopy {
        kept: Text::new(alloc),
        wanted: false,
        refused: false,
    };
    let done = tangle(alloc, &job, &mut copy, shelf)?;
    tell_no_output(done.no_output, con)?;
    Ok(())
}

// Tells that no output was specified, where it is so.
fn tell_no_output<K: Sink>(no_output: bool, con: &mut K) -> Result<(), Stop>
    ensures work { TellingNoOutput no_output result (K.held con.old) (K.held con.new) }
    ensures cause { CountsFailure (is_by_console result) (K.faults con.old) (K.faults con.new) }
    ensures quiet { (is_by_shelf result ≡ false) × (is_by_port result ≡ false) }
    ensures frame { K.frame con.new ≡ K.frame con.old }
{
    if no_output {
        print(con, NO_OUTPUT_LINE)
    } else {
        Ok(())
    }
}

// What the order asks to tangle.
fn job_of(alloc: Global, order: &Order<'_>) -> Result<Job, OutOfMemory>
    ensures { IfOk result (λ job. job ≡ job_of (order_by order.now)) }
{
    let change = match order.names.second {
        Some(name) => Some(copy_of(alloc, name)?),
        None => None,
    };
    Ok(Job {
        web: copy_of(alloc, order.names.first)?,
        change,
        base: output_name(alloc, order.names.first, b"")?,
        options: order.settings.options(),
    })
}
