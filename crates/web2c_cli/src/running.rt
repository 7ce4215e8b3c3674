//! From a Pascal program on the shelf to its run over ports.
ghost use Rattle.std.specs.Prelude.{◌≡◌, ◌≤◌, List, Option, Ok, true, false, length, map, IfOk};
ghost use Rattle.wb_base.specs.FaultAt.{fault_at};
ghost use Rattle.wb_base.specs.declared.faults.TheConstants.{FILE_RULE};
ghost use Rattle.wb_base.specs.declared.places.FileTag.TheVariants.{Pas};
ghost use Rattle.wb_ports.specs.Counts.{CountsFailure};
ghost use Rattle.wb_ports.specs.Files.{Files};
ghost use Rattle.pas_typed.specs.TypedViews.{program_view};
ghost use Rattle.tangle_core.specs.Job.{world_of};
ghost use Rattle.web2c_cli.specs.inner.Reading.{order_by};
ghost use Rattle.web2c_cli.specs.inner.Reaching.{is_by_shelf, is_by_console, is_by_port};
ghost use Rattle.web2c_cli.specs.inner.Reaching.{is_halted_by_shelf, is_halted_by_console, is_halted_by_port};
ghost use Rattle.web2c_cli.specs.inner.Reaching.{is_refused};
ghost use Rattle.web2c_cli.specs.inner.Running.{pascal_by, ending_of, Playing, TellingEnd, Running, RunningText};
ghost use Rattle.web2c_cli.specs.inner.Running.{RunningProgram, CountsPorts, IsWorkDone};

use crate::calls::{load, print};
use crate::command_line::Order;
use crate::ending::Ending;
use crate::halt::{Halt, Stop};
use crate::pascal::{Pascal, read_pascal};
use crate::status::Status;
use pas_rules::Typed;
use pas_run::{End, RunErr, run};
use std::alloc::Global;
use wb_base::faults::FILE_RULE;
use wb_base::{Fault, FileTag};
use wb_ports::{Port, Shelf, Sink};

/// Loads the program of an order, runs it over the ports, and tells how its run ended.
pub fn run_program<S: Shelf, K: Sink>(
    alloc: Global,
    order: &Order<'_>,
    shelf: &mut S,
    con: &mut K,
    ports: &mut Vec<Box<dyn Port>>,
) -> Result<Status, Halt>
    ensures work { RunningProgram (order_by order.now) result (S.last_failure shelf.new)
        (world_of (S.files shelf.old) (K.held con.old)
        (map (λ port. (Port-box port).told port.value) ports.old.items))
        (world_of (S.files shelf.new) (K.held con.new)
        (map (λ port. (Port-box port).told port.value) ports.new.items)) }
    ensures statuses { IfOk result IsWorkDone }
    ensures is_open { S.is_open shelf.new ≡ S.is_open shelf.old }
    ensures shelf_cause { CountsFailure (is_halted_by_shelf result) (S.faults shelf.old) (S.faults shelf.new) }
    ensures con_cause { CountsFailure (is_halted_by_console result) (K.faults con.old) (K.faults con.new) }
    ensures port_cause { CountsPorts (is_halted_by_port result)
        (map (λ port. (Port-box port).failures port.value) ports.old.items)
        (map (λ port. (Port-box port).failures port.value) ports.new.items) }
    ensures frame { K.frame con.new ≡ K.frame con.old }
    ensures kept { is_refused result ≡ true → ports.new.items ≡ ports.old.items }
{
    let text = load(alloc, order.names.first, shelf)?;
    run_text(alloc, order, text.bytes(), con, ports)
}

// Reads the program of a text, runs it over the ports, and tells how its run ended.
fn run_text<K: Sink>(
    alloc: Global,
    order: &Order<'_>,
    text: &[u8],
    con: &mut K,
    ports: &mut Vec<Box<dyn Port>>,
) -> Result<Status, Halt>
    ensures work { (files : Option Files) → RunningText (order_by order.now) text.now result
        (world_of files (K.held con.old) (map (λ port. (Port-box port).told port.value) ports.old.items))
        (world_of files (K.held con.new) (map (λ port. (Port-box port).told port.value) ports.new.items)) }
    ensures statuses { IfOk result IsWorkDone }
    ensures con_cause { CountsFailure (is_halted_by_console result) (K.faults con.old) (K.faults con.new) }
    ensures port_cause { CountsPorts (is_halted_by_port result)
        (map (λ port. (Port-box port).failures port.value) ports.old.items)
        (map (λ port. (Port-box port).failures port.value) ports.new.items) }
    ensures quiet { is_halted_by_shelf result ≡ false }
    ensures frame { K.frame con.new ≡ K.frame con.old }
    ensures kept { is_refused result ≡ true → ports.new.items ≡ ports.old.items }
{
    let pascal = read_pascal(alloc, text)?;
    run_pascal(alloc, order, &pascal, con, ports)
}

// Runs a program over the ports, if there are enough, and tells how its run ended.
fn run_pascal<K: Sink>(
    alloc: Global,
    order: &Order<'_>,
    pascal: &Pascal,
    con: &mut K,
    ports: &mut Vec<Box<dyn Port>>,
) -> Result<Status, Halt>
    ensures work { (files : Option Files) → Running (order_by order.now) (pascal_by pascal.now) result
        (world_of files (K.held con.old) (map (λ port. (Port-box port).told port.value) ports.old.items))
        (world_of files (K.held con.new) (map (λ port. (Port-box port).told port.value) ports.new.items)) }
    ensures statuses { IfOk result IsWorkDone }
    ensures con_cause { CountsFailure (is_halted_by_console result) (K.faults con.old) (K.faults con.new) }
    ensures port_cause { CountsPorts (is_halted_by_port result)
        (map (λ port. (Port-box port).failures port.value) ports.old.items)
        (map (λ port. (Port-box port).failures port.value) ports.new.items) }
    ensures quiet { is_halted_by_shelf result ≡ false }
    ensures frame { K.frame con.new ≡ K.frame con.old }
    ensures kept { is_refused result ≡ true → ports.new.items ≡ ports.old.items }
{
    if ports.len() < pascal.program.file_count() as usize {
        return Err(Halt::Fault(too_few_ports(pascal.line)));
    }
    let steps = order.settings.steps();
    let ending = play(alloc, &pascal.program, steps, ports)?;
    let status = tell_end(alloc, steps, ending, con)?;
    Ok(status)
}

// The fault of a program for whose files there are too few ports.
fn too_few_ports(line: u32) -> Fault
    ensures { result ≡ fault_at FILE_RULE (record { file = Pas; line = line }) }
{
    Fault {
        code: FILE_RULE,
        file: FileTag::Pas,
        line,
        which: 0,
    }
}

// Runs a program over the ports, within a bound of steps.
fn play(
    alloc: Global,
    program: &Typed,
    steps: u32,
    ports: &mut Vec<Box<dyn Port>>,
) -> Result<Ending, Stop>
    requires { length program.now.files ≤ length ports.old.items }

    ensures work { Playing (program_view program.now) steps result
        (map (λ port. (Port-box port).told port.value) ports.old.items)
        (map (λ port. (Port-box port).told port.value) ports.new.items) }
    ensures cause { CountsPorts (is_by_port result)
        (map (λ port. (Port-box port).failures port.value) ports.old.items)
        (map (λ port. (Port-box port).failures port.value) ports.new.items) }
    ensures quiet { (is_by_shelf result ≡ false) × (is_by_console result ≡ false) }
{
    ending_of(run(alloc, program, u64::from(steps), ports))
}

// What the answer of a run becomes.
fn ending_of(outcome: Result<End, RunErr>) -> Result<Ending, Stop>
    ensures { result ≡ ending_of outcome }
{
    match outcome {
        Ok(End::Halted(status)) => Ok(Ending::Halted(status)),
        Ok(End::Going) => Ok(Ending::Going),
        Ok(End::Error(kind)) => Ok(Ending::Error(kind)),
        Err(RunErr::TooDeep) => Ok(Ending::TooDeep),
        Err(RunErr::PortFailed) => Err(Stop::Port),
        Err(RunErr::OutOfMemory) => Err(Stop::OutOfMemory),
    }
}

// Tells how a run ended, within this bound of steps.
fn tell_end<K: Sink>(alloc: Global, steps: u32, ending: Ending, con: &mut K) -> Result<Status, Stop>
    ensures work { TellingEnd steps ending result (K.held con.old) (K.held con.new) }
    ensures statuses { IfOk result IsWorkDone }
    ensures cause { CountsFailure (is_by_console result) (K.faults con.old) (K.faults con.new) }
    ensures quiet { (is_by_shelf result ≡ false) × (is_by_port result ≡ false) }
    ensures frame { K.frame con.new ≡ K.frame con.old }
{
    let line = ending.line(alloc, steps)?;
    print(con, line.bytes())?;
    Ok(ending.status())
}
