//! The top call: what the program does with its words.
ghost use Rattle.std.specs.Prelude.{◌≡◌, ◌≢◌, ◌⊎◌, ◌≤◌, false, true, map, IfOk, IfErr, IsErrOf};
ghost use Rattle.wb_ports.specs.Counts.{CountsFailure, Rose};
ghost use Rattle.pas_run.specs.WholeRuns.{SomeRose};
ghost use Rattle.tangle_core.specs.Work.{by_shelf, by_console, by_port, by_memory};
ghost use Rattle.tangle_core.specs.Job.{world_of};
ghost use Rattle.web2c_cli.specs.Status.{number_of};
ghost use Rattle.web2c_cli.specs.CommandLine.{usage, request_of, names_files, asks_for_run};
ghost use Rattle.web2c_cli.specs.Runs.{NoPortFailed};
ghost use Rattle.web2c_cli.specs.Program.{EndsAs, StopsBy, fault_line, file_name};
ghost use Rattle.web2c_cli.specs.declared.halt.Halt.TheVariants.{Stopped};
ghost use Rattle.web2c_cli.specs.inner.Reading.{names_by, order_by, request_as};
ghost use Rattle.web2c_cli.specs.inner.Reaching.{Reporting, status_of, is_by_shelf, is_by_console, is_by_port};
ghost use Rattle.web2c_cli.specs.inner.Reaching.{is_halted_by_shelf, is_halted_by_console, is_halted_by_port};
ghost use Rattle.web2c_cli.specs.inner.Reaching.{is_refused};
ghost use Rattle.web2c_cli.specs.inner.Running.{Commanded, ConcludesAs, CountsPorts, IsOwn, IsWorkDone};

use crate::calls::print;
use crate::command_line::{Names, Order, Request, read_request};
use crate::command_table::Command;
use crate::file_names::{code_name, output_name};
use crate::halt::{Halt, Stop};
use crate::pool_listing::list_pool;
use crate::running::run_program;
use crate::status::Status;
use crate::tangling::tangle_web;
use crate::texts::copy_of;
use std::alloc::Global;
use wb_base::{Fault, FileTag, OutOfMemory, Text, Words};
use wb_ports::{Port, Shelf, Sink};

// The line that tells how to call the program.
const USAGE_LINE: &[u8] =
    b"usage: web2c tangle|pooltype|convert|chain|prun|crun|gen [options] names\n";

/// Does what the words ask for, which are those of the command line without the program's own name, and answers the
/// status for the program to end with: 0 where the work was done, 1 where an input has a fault, 2 where the command
/// line is faulty, 3 where a call on the shelf, the console or a port failed, 4 where no memory was found; and of the
/// run of a program 5 where it went on at its bound of steps, 6 where it committed an error, 7 where its calls nested
/// too deep.
///
/// `tangle WEB [CH]` reads the web and the change file from the shelf and leaves the Pascal file there, and behind it
/// the pool, if the web has a string for it; a line tells of a web without output. `pooltype POOL` reads the pool and
/// prints its listing. `prun PAS FILE...` reads a Pascal program and runs it over the ports, of which the k-th becomes
/// its k-th parameter; those behind are dropped, and fewer than it has parameters are a fault. A line tells how the run
/// ended. A fault is one line on the console. One of the change file, the web or the program leaves every file and port
/// as it was; one of the expansion leaves the Pascal file with the lines finished before it; one of a pool comes behind
/// its listing. A faulty command line is answered by the usage line. Nothing else is printed. No file is open
/// afterwards, but after status 3 one may be. The ports are left as they were by all but `prun`. This project's own.
pub fn run<S: Shelf, K: Sink>(
    alloc: Global,
    words: &Words,
    shelf: &mut S,
    con: &mut K,
    ports: &mut Vec<Box<dyn Port>>,
) -> u8
    requires { S.is_open shelf.old ≡ false }

    // A run that ends by itself has done the work of its words: its status, console text, files and ports are those of
    // it.
    ensures finished { result ≢ number_of Status.Failed → result ≢ number_of Status.OutOfMemory →
        EndsAs (request_of words.now) result
        (world_of (S.files shelf.old) (K.held con.old)
        (map (λ port. (Port-box port).told port.value) ports.old.items))
        (world_of (S.files shelf.new) (K.held con.new)
        (map (λ port. (Port-box port).told port.value) ports.new.items)) }

    // Memory that was not found stopped the work, at a load, before an act or in the run of a program.
    ensures out_of_memory { result ≡ number_of Status.OutOfMemory → StopsBy (request_of words.now) by_memory
        (world_of (S.files shelf.old) (K.held con.old)
        (map (λ port. (Port-box port).told port.value) ports.old.items))
        (world_of (S.files shelf.new) (K.held con.new)
        (map (λ port. (Port-box port).told port.value) ports.new.items)) }

    // A failed call stopped the work: one of the shelf, one of the console, or one of a port.
    ensures failed { result ≡ number_of Status.Failed →
        (Rose (S.faults shelf.old) (S.faults shelf.new) × (K.faults con.new ≡ K.faults con.old)
        × NoPortFailed (map (λ port. (Port-box port).failures port.value) ports.old.items)
        (map (λ port. (Port-box port).failures port.value) ports.new.items)
        × StopsBy (request_of words.now) (by_shelf (S.last_failure shelf.new))
        (world_of (S.files shelf.old) (K.held con.old)
        (map (λ port. (Port-box port).told port.value) ports.old.items))
        (world_of (S.files shelf.new) (K.held con.new)
        (map (λ port. (Port-box port).told port.value) ports.new.items)))
        ⊎ (Rose (K.faults con.old) (K.faults con.new) × (S.faults shelf.new ≡ S.faults shelf.old)
        × NoPortFailed (map (λ port. (Port-box port).failures port.value) ports.old.items)
        (map (λ port. (Port-box port).failures port.value) ports.new.items)
        × StopsBy (request_of words.now) by_console
        (world_of (S.files shelf.old) (K.held con.old)
        (map (λ port. (Port-box port).told port.value) ports.old.items))
        (world_of (S.files shelf.new) (K.held con.new)
        (map (λ port. (Port-box port).told port.value) ports.new.items)))
        ⊎ (SomeRose (map (λ port. (Port-box port).failures port.value) ports.old.items)
        (map (λ port. (Port-box port).failures port.value) ports.new.items)
        × (S.faults shelf.new ≡ S.faults shelf.old) × (K.faults con.new ≡ K.faults con.old)
        × StopsBy (request_of words.now) by_port
        (world_of (S.files shelf.old) (K.held con.old)
        (map (λ port. (Port-box port).told port.value) ports.old.items))
        (world_of (S.files shelf.new) (K.held con.new)
        (map (λ port. (Port-box port).told port.value) ports.new.items))) }
    ensures none_failed { result ≢ number_of Status.Failed →
        (S.faults shelf.new ≡ S.faults shelf.old) × (K.faults con.new ≡ K.faults con.old)
        × NoPortFailed (map (λ port. (Port-box port).failures port.value) ports.old.items)
        (map (λ port. (Port-box port).failures port.value) ports.new.items) }

    ensures statuses { result ≤ number_of Status.TooDeep }
    ensures closed { result ≢ number_of Status.Failed → S.is_open shelf.new ≡ false }
    ensures frame { K.frame con.new ≡ K.frame con.old }

    // Only the run of a program touches the ports, and none does where the input has a fault.
    ensures ports { asks_for_run (request_of words.now) ≡ false → ports.new.items ≡ ports.old.items }
    ensures refused { result ≡ number_of Status.Refused → ports.new.items ≡ ports.old.items }

    // On a faulty command line the shelf is not called, and no memory is wanted; no other answers the usage status.
    ensures usage { request_of words.now ≡ usage → (result ≢ number_of Status.OutOfMemory) × (shelf.new ≡ shelf.old) }
    ensures usage_only { result ≡ number_of Status.Usage → request_of words.now ≡ usage }
{
    status_of(perform(alloc, &read_request(words), shelf, con, ports)).number()
}

// The status of a run that ended by itself, or was stopped.
fn status_of(outcome: Result<Status, Stop>) -> Status
    ensures { result ≡ status_of outcome }
{
    match outcome {
        Ok(status) => status,
        Err(Stop::Shelf | Stop::Console | Stop::Port) => Status::Failed,
        Err(Stop::OutOfMemory) => Status::OutOfMemory,
    }
}

// Does the work of a request.
fn perform<S: Shelf, K: Sink>(
    alloc: Global,
    request: &Request<'_>,
    shelf: &mut S,
    con: &mut K,
    ports: &mut Vec<Box<dyn Port>>,
) -> Result<Status, Stop>
    requires { S.is_open shelf.old ≡ false }

    ensures work { ConcludesAs (request_as request.now) result (S.last_failure shelf.new)
        (world_of (S.files shelf.old) (K.held con.old)
        (map (λ port. (Port-box port).told port.value) ports.old.items))
        (world_of (S.files shelf.new) (K.held con.new)
        (map (λ port. (Port-box port).told port.value) ports.new.items)) }
    ensures statuses { IfOk result IsOwn }
    ensures closed { IsErrOf result Stop.Shelf ⊎ (S.is_open shelf.new ≡ false) }
    ensures shelf_cause { CountsFailure (is_by_shelf result) (S.faults shelf.old) (S.faults shelf.new) }
    ensures con_cause { CountsFailure (is_by_console result) (K.faults con.old) (K.faults con.new) }
    ensures port_cause { CountsPorts (is_by_port result)
        (map (λ port. (Port-box port).failures port.value) ports.old.items)
        (map (λ port. (Port-box port).failures port.value) ports.new.items) }
    ensures frame { K.frame con.new ≡ K.frame con.old }
    ensures ports { asks_for_run (request_as request.now) ≡ false → ports.new.items ≡ ports.old.items }
    ensures refused { IfOk result (λ status. number_of status ≡ number_of Status.Refused →
        ports.new.items ≡ ports.old.items) }
    ensures usage { request_as request.now ≡ usage →
        (shelf.new ≡ shelf.old) × IfErr result (λ stop. stop ≡ Stop.Console) }
    ensures usage_only { IfOk result (λ status. number_of status ≡ number_of Status.Usage →
        request_as request.now ≡ usage) }
{
    match request {
        Request::Usage => {
            print(con, USAGE_LINE)?;
            Ok(Status::Usage)
        }
        Request::Ordered(order) => match work(alloc, order, shelf, con, ports) {
            Ok(status) => Ok(status),
            Err(Halt::Fault(fault)) => report(alloc, order, &fault, con),
            Err(Halt::Stopped(stop)) => Err(stop),
        },
    }
}

// Does the work of a command, but for the printing of a fault.
fn work<S: Shelf, K: Sink>(
    alloc: Global,
    order: &Order<'_>,
    shelf: &mut S,
    con: &mut K,
    ports: &mut Vec<Box<dyn Port>>,
) -> Result<Status, Halt>
    requires { S.is_open shelf.old ≡ false }

    ensures work { Commanded (order_by order.now) result (S.last_failure shelf.new)
        (world_of (S.files shelf.old) (K.held con.old)
        (map (λ port. (Port-box port).told port.value) ports.old.items))
        (world_of (S.files shelf.new) (K.held con.new)
        (map (λ port. (Port-box port).told port.value) ports.new.items)) }
    ensures statuses { IfOk result IsWorkDone }
    ensures closed { IsErrOf result (Stopped Stop.Shelf) ⊎ (S.is_open shelf.new ≡ false) }
    ensures shelf_cause { CountsFailure (is_halted_by_shelf result) (S.faults shelf.old) (S.faults shelf.new) }
    ensures con_cause { CountsFailure (is_halted_by_console result) (K.faults con.old) (K.faults con.new) }
    ensures port_cause { CountsPorts (is_halted_by_port result)
        (map (λ port. (Port-box port).failures port.value) ports.old.items)
        (map (λ port. (Port-box port).failures port.value) ports.new.items) }
    ensures frame { K.frame con.new ≡ K.frame con.old }
    ensures ports { names_files order.now.command ≡ false → ports.new.items ≡ ports.old.items }
    ensures kept { is_refused result ≡ true → ports.new.items ≡ ports.old.items }
{
    match order.command {
        Command::Tangle => {
            tangle_web(alloc, order, shelf, con)?;
            Ok(Status::Done)
        }
        Command::Pooltype => {
            list_pool(alloc, order.names.first, shelf, con)?;
            Ok(Status::Done)
        }
        Command::Prun => run_program(alloc, order, shelf, con, ports),
    }
}

// Prints the line of a fault.
fn report<K: Sink>(
    alloc: Global,
    order: &Order<'_>,
    fault: &Fault,
    con: &mut K,
) -> Result<Status, Stop>
    ensures work { Reporting (order_by order.now) fault.now result (K.held con.old) (K.held con.new) }
    ensures status { IfOk result (λ status. status ≡ Status.Refused) }
    ensures cause { CountsFailure (is_by_console result) (K.faults con.old) (K.faults con.new) }
    ensures quiet { (is_by_shelf result ≡ false) × (is_by_port result ≡ false) }
    ensures frame { K.frame con.new ≡ K.frame con.old }
{
    let line = fault_line(alloc, order, fault)?;
    print(con, line.bytes())?;
    Ok(Status::Refused)
}

// The line that reports a fault.
fn fault_line(alloc: Global, order: &Order<'_>, fault: &Fault) -> Result<Text, OutOfMemory>
    ensures { IfOk result (λ line. line ≡ fault_line (order_by order.now) fault.now) }
{
    let name = file_name(alloc, order.command, &order.names, fault.file)?;
    let mut line = fault.text(alloc, name.bytes())?;
    line.push(b'\n')?;
    Ok(line)
}

// The name that is printed with a fault in a file.
fn file_name(
    alloc: Global,
    command: Command,
    names: &Names<'_>,
    file: FileTag,
) -> Result<Text, OutOfMemory>
    ensures { IfOk result (λ name. name ≡ file_name command (names_by names.now) file) }
{
    match (command, file) {
        (Command::Tangle, FileTag::Web) => copy_of(alloc, names.first),
        (Command::Tangle, FileTag::Change) => {
            copy_of(alloc, names.second.unwrap_or(names.first))
        }
        (Command::Tangle, FileTag::Pool) => output_name(alloc, names.first, b".pool"),
        (Command::Tangle, FileTag::Pas) => output_name(alloc, names.first, b".p"),
        (Command::Tangle, FileTag::Header) => output_name(alloc, names.first, b".h"),
        (Command::Tangle, FileTag::Code(number)) => code_name(alloc, names.first, number),
        (Command::Pooltype | Command::Prun, _) => copy_of(alloc, names.first),
    }
}
