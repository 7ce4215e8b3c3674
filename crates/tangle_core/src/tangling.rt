//! The tangle job.
ghost use Rattle.std.specs.Prelude.{◌≡◌, ◌⊎◌, ◌↔◌, ℕ, [], ◌++◌, List, length, Option, Some, None, true, false};
ghost use Rattle.std.specs.Prelude.{Ok, Err, IfOk, IfSome, OnOk, IsErrOf, codes};
ghost use Rattle.wb_base.specs.WorkResult.{IfFault};
ghost use Rattle.wb_ports.specs.Counts.{CountsFailure};
ghost use Rattle.wb_ports.specs.Held.{WhereTold};
ghost use Rattle.wb_ports.specs.PortState.{PortState};
ghost use Rattle.wb_ports.specs.Files.{Loads, SameFiles};
ghost use Rattle.web_scan.specs.Scan.{scan_of};
ghost use Rattle.tangle_core.specs.Outcome.{outcome, lines_with_changes};
ghost use Rattle.tangle_core.specs.Job.{Going_on, Tangles, tangling, pascal_name, pool_name, is_failed_job, Reaches};
ghost use Rattle.tangle_core.specs.declared.job.Job.{Job};
ghost use Rattle.tangle_core.specs.Work.{World};
ghost use Rattle.tangle_core.specs.inner.Filling.{IsReady};
ghost use Rattle.tangle_core.specs.Job.{world_of, leaves_outcome};
ghost use Rattle.tangle_core.specs.inner.Going.{Goes, Loading, LoadingChange};

use crate::writing::{write_pascal, write_pool_file};
use crate::{Done, Job, TangleErr, TextCopy};
use change_merge::{Lines, merge, parse_changes};
use std::alloc::Global;
use wb_base::{OutOfMemory, Text, WorkErr};
use wb_ports::Shelf;
use web_scan::{Web, scan};

/// Tangles a web on the shelf: loads the web and the change file, merges and scans them, leaves the Pascal file, and
/// then the pool, if the web has a string for it. All memory is taken before the Pascal file is made, or after it is
/// closed, or for the copy. TANGLE's work; its order and the files' names are this project's own.
///
/// A copy that is wanted gets the Pascal text as it is written, unless no memory is found for it: then it is refused,
/// and the job goes on. One that is not wanted stays as it was.
///
/// # Errors
///
/// `Fault`: of the change file, of the web's lines, of the merge or of the merged web, and every file is as it was; or
/// of its expansion, and the Pascal file has the lines finished before it. `Failed`: the earlier file is whole and its
/// own has a prefix of its text; a file may be open. `OutOfMemory`: every file is as it was, or the Pascal file is
/// whole.
pub fn tangle<S: Shelf>(
    alloc: Global,
    job: &Job,
    copy: &mut TextCopy,
    shelf: &mut S,
) -> Result<Done, TangleErr>
    requires { S.is_open shelf.old ≡ false }

    // For every way to go on: the job's work is done, and what comes next is left to do; or it was stopped on the way.
    ensures work { (on : Going_on) (console : Option (List ℕ)) (ports : List (Option PortState)) →
        Tangles job.now on result (S.last_failure shelf.new)
        (world_of (S.files shelf.old) console ports) (world_of (S.files shelf.new) console ports) }
    ensures closed { IsErrOf result TangleErr.Failed ⊎ (S.is_open shelf.new ≡ false) }
    ensures cause { CountsFailure (is_failed_job result) (S.faults shelf.old) (S.faults shelf.new) }

    // A copy that is wanted has what would be loaded of the Pascal file, unless it was refused.
    ensures unwanted { copy.old.wanted ≡ false → copy.new ≡ copy.old }
    ensures wanted { copy.new.wanted ≡ copy.old.wanted }
    ensures kept { OnOk result (copy.old.wanted ≡ true → copy.new.refused ≡ false →
        IfSome (S.files shelf.new) (λ files. Loads files (pascal_name job.now.base) copy.new.kept)) }
{
    copy.begin(alloc);
    let pascal = name_of(alloc, &job.base, b".p")?;
    let pool = name_of(alloc, &job.base, b".pool")?;
    let web = scanned(alloc, job, shelf)?;
    write_files(alloc, &web, pascal.bytes(), pool.bytes(), copy, shelf)
}

// Writes the files of these names: the Pascal file, and then the pool, if the web has a string for it.
fn write_files<S: Shelf>(
    alloc: Global,
    web: &Web,
    pascal: &[u8],
    pool: &[u8],
    copy: &mut TextCopy,
    shelf: &mut S,
) -> Result<Done, TangleErr>
    requires open { S.is_open shelf.old ≡ false }
    requires copy { IsReady copy.old }

    ensures work { (job : Job) (on : Going_on) (before : World) (console : Option (List ℕ))
        (ports : List (Option PortState)) → pascal.now ≡ pascal_name job.base → pool.now ≡ pool_name job.base
        → Reaches (tangling job on) (leaves_outcome job.base on (outcome (Ok web.now))) before
        (world_of (S.files shelf.old) console ports)
        → Tangles job on result (S.last_failure shelf.new) before (world_of (S.files shelf.new) console ports) }
    ensures closed { IsErrOf result TangleErr.Failed ⊎ (S.is_open shelf.new ≡ false) }
    ensures cause { CountsFailure (is_failed_job result) (S.faults shelf.old) (S.faults shelf.new) }

    ensures unwanted { copy.old.wanted ≡ false → copy.new ≡ copy.old }
    ensures wanted { copy.new.wanted ≡ copy.old.wanted }
    ensures kept { OnOk result ((base : List ℕ) → pascal.now ≡ pascal_name base → pool.now ≡ pool_name base
        → copy.old.wanted ≡ true → copy.new.refused ≡ false →
        IfSome (S.files shelf.new) (λ files. Loads files (pascal_name base) copy.new.kept)) }
{
    let lines = write_pascal(web, pascal, copy, shelf)?;
    write_pool_file(alloc, web.pool(), pool, shelf)?;
    Ok(Done {
        lines,
        strings: web.pool().count(),
        no_output: web.unnamed().is_empty(),
    })
}

// The name of a file that begins with this base.
fn name_of(alloc: Global, base: &Text, end: &[u8]) -> Result<Text, OutOfMemory>
    ensures { IfOk result (λ name. name ≡ base.now ++ end.now) }
{
    let mut name = Text::new(alloc);
    name.push_all(base.bytes())?;
    name.push_all(end)?;
    Ok(name)
}

// The scan of the job's web, with its change file.
fn scanned<S: Shelf>(alloc: Global, job: &Job, shelf: &mut S) -> Result<Web, TangleErr>
    ensures work { (on : Going_on) (console : Option (List ℕ)) (ports : List (Option PortState)) →
        Goes (tangling job.now on) on (λ web. leaves_outcome job.now.base on (outcome (Ok web))) result
        (S.last_failure shelf.new)
        (world_of (S.files shelf.old) console ports) (world_of (S.files shelf.new) console ports) }
    ensures is_open { S.is_open shelf.new ≡ S.is_open shelf.old }
    ensures cause { CountsFailure (is_failed_job result) (S.faults shelf.old) (S.faults shelf.new) }
{
    let lines = merged(alloc, job, shelf)?;
    Ok(scan(alloc, &lines, job.options)?)
}

// The lines of the job's web, with its change file.
fn merged<S: Shelf>(alloc: Global, job: &Job, shelf: &mut S) -> Result<Lines, TangleErr>
    ensures work { (on : Going_on) (console : Option (List ℕ)) (ports : List (Option PortState)) →
        Goes (tangling job.now on) on
        (λ lines. leaves_outcome job.now.base on (outcome (scan_of job.now.options lines))) result
        (S.last_failure shelf.new)
        (world_of (S.files shelf.old) console ports) (world_of (S.files shelf.new) console ports) }
    ensures same { WhereTold SameFiles (S.files shelf.old) (S.files shelf.new) }
    ensures is_open { S.is_open shelf.new ≡ S.is_open shelf.old }
    ensures cause { CountsFailure (is_failed_job result) (S.faults shelf.old) (S.faults shelf.new) }
{
    let web = load(alloc, job.web.bytes(), shelf)?;
    let change = load_change(alloc, &job.change, shelf)?;
    Ok(merged_lines(alloc, web.bytes(), change.bytes())?)
}

// The bytes of a file.
fn load<S: Shelf>(alloc: Global, name: &[u8], shelf: &mut S) -> Result<Text, TangleErr>
    ensures work { Loading name.now result (S.last_failure shelf.new) (S.files shelf.old) (S.files shelf.new) }
    ensures same { WhereTold SameFiles (S.files shelf.old) (S.files shelf.new) }
    ensures is_open { S.is_open shelf.new ≡ S.is_open shelf.old }
    ensures cause { CountsFailure (is_failed_job result) (S.faults shelf.old) (S.faults shelf.new) }
{
    Ok(shelf.load(alloc, name)?)
}

// The bytes of the change file, if there is one; else none.
fn load_change<S: Shelf>(
    alloc: Global,
    change: &Option<Text>,
    shelf: &mut S,
) -> Result<Text, TangleErr>
    ensures work { LoadingChange change.now result (S.last_failure shelf.new)
        (S.files shelf.old) (S.files shelf.new) }
    ensures same { WhereTold SameFiles (S.files shelf.old) (S.files shelf.new) }
    ensures is_open { S.is_open shelf.new ≡ S.is_open shelf.old }
    ensures cause { CountsFailure (is_failed_job result) (S.faults shelf.old) (S.faults shelf.new) }
{
    match change {
        Some(name) => load(alloc, name.bytes(), shelf),
        None => Ok(Text::new(alloc)),
    }
}

// The lines of a web with a change file.
fn merged_lines(alloc: Global, web: &[u8], change: &[u8]) -> Result<Lines, WorkErr>
    ensures ok { IfOk result (λ lines. lines_with_changes web.now change.now ≡ Ok lines) }
    ensures fault { IfFault result (λ fault. lines_with_changes web.now change.now ≡ Err fault) }
{
    let changes = parse_changes(alloc, change)?;
    merge(alloc, web, &changes)
}
