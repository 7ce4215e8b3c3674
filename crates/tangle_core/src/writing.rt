//! Writing the files of a job.
ghost use Rattle.std.specs.Prelude.{◌≡◌, ◌≢◌, ◌⊎◌, ℕ, [], List, length, Option, Some, None, true, false, IfOk, IfSome};
ghost use Rattle.std.specs.Prelude.{OnOk, OnErr, IsErrOf, Err, is_err};
ghost use Rattle.wb_ports.specs.Counts.{CountsFailure};
ghost use Rattle.wb_ports.specs.Held.{WhereTold};
ghost use Rattle.wb_ports.specs.Files.{Files, SameFiles, AppendsTo, Loads};
ghost use Rattle.web_pool.specs.PoolText.{pool_text};
ghost use Rattle.macro_expand.specs.Expansion.{expansion_of};
ghost use Rattle.tangle_out.specs.Packing.{text_of_lines};
ghost use Rattle.tangle_core.specs.Tangled.{tangled};
ghost use Rattle.tangle_core.specs.Emission.{is_failed, IfFault as IfEmissionFault};
ghost use Rattle.tangle_core.specs.Job.{is_failed_job};
ghost use Rattle.tangle_core.specs.inner.Refusing.{IfJobFault};
ghost use Rattle.tangle_core.specs.inner.Writing.{LeavesFile, WritesUnfinished, FillsUnfinished};
ghost use Rattle.tangle_core.specs.inner.Filling.{IsReady, StandsEmpty, shelf_now, seen_now, Fills, Copies};

use crate::file_sink::{Begun, FileSink};
use crate::{EmitErr, TangleErr, TextCopy, expand_to};
use std::alloc::Global;
use std::marker::Brand;
use wb_ports::{Failed, Shelf};
use web_pool::{Pool, write_pool};
use web_scan::Web;

// Makes the Pascal file, writes the tangled text of the web and closes it; at a fault it has the lines finished before
// it. Answers the number of lines.
pub(crate) fn write_pascal<S: Shelf>(
    web: &Web,
    name: &[u8],
    copy: &mut TextCopy,
    shelf: &mut S,
) -> Result<u32, TangleErr>
    requires open { S.is_open shelf.old ≡ false }
    requires copy { IsReady copy.old }

    ensures ok { IfOk result (λ count. let made = tangled (expansion_of web.now) in
        (made.fault ≡ None) × (count ≡ length made.lines)) }
    ensures fault { IfJobFault result (λ fault. (tangled (expansion_of web.now)).fault ≡ Some fault) }
    ensures written { result ≢ Err TangleErr.Failed → result ≢ Err TangleErr.OutOfMemory →
        WhereTold (LeavesFile name.now (text_of_lines (tangled (expansion_of web.now)).lines))
        (S.files shelf.old) (S.files shelf.new) }
    ensures failed { result ≡ Err TangleErr.Failed →
        WhereTold (WritesUnfinished name.now (text_of_lines (tangled (expansion_of web.now)).lines)
        (S.last_failure shelf.new)) (S.files shelf.old) (S.files shelf.new) }
    ensures out_of_memory { result ≡ Err TangleErr.OutOfMemory →
        WhereTold SameFiles (S.files shelf.old) (S.files shelf.new) }
    ensures closed { IsErrOf result TangleErr.Failed ⊎ (S.is_open shelf.new ≡ false) }
    ensures cause { CountsFailure (is_failed_job result) (S.faults shelf.old) (S.faults shelf.new) }

    ensures unwanted { copy.old.wanted ≡ false → copy.new ≡ copy.old }
    ensures wanted { copy.new.wanted ≡ copy.old.wanted }
    ensures kept { OnOk result (copy.old.wanted ≡ true → copy.new.refused ≡ false →
        IfSome (S.files shelf.new) (λ files. Loads files name.now copy.new.kept)) }
{
    shelf.create(name)?;
    match fill_pascal::<S, Brand>(web, copy, shelf) {
        Ok(count) => {
            shelf.close()?;
            Ok(count)
        }
        Err(EmitErr::Fault(fault)) => {
            shelf.close()?;
            Err(TangleErr::Fault(fault))
        }
        Err(EmitErr::Failed) => Err(TangleErr::Failed),
    }
}

// Makes the pool's file, writes the text of the pool and closes it, if the pool has a string.
pub(crate) fn write_pool_file<S: Shelf>(
    alloc: Global,
    pool: &Pool,
    name: &[u8],
    shelf: &mut S,
) -> Result<(), TangleErr>
    requires open { S.is_open shelf.old ≡ false }

    ensures none { pool.now ≡ [] → (OnErr result ⊥) × (shelf.new ≡ shelf.old) }
    ensures ok { OnOk result (pool.now ≢ [] → WhereTold (LeavesFile name.now (pool_text pool.now))
        (S.files shelf.old) (S.files shelf.new)) }
    ensures failed { result ≡ Err TangleErr.Failed →
        WhereTold (WritesUnfinished name.now (pool_text pool.now) (S.last_failure shelf.new))
        (S.files shelf.old) (S.files shelf.new) }
    ensures out_of_memory { result ≡ Err TangleErr.OutOfMemory →
        WhereTold SameFiles (S.files shelf.old) (S.files shelf.new) }
    ensures faultless { IfJobFault result (λ _. ⊥) }
    ensures closed { IsErrOf result TangleErr.Failed ⊎ (S.is_open shelf.new ≡ false) }
    ensures cause { CountsFailure (is_failed_job result) (S.faults shelf.old) (S.faults shelf.new) }
{
    if pool.count() == 0 {
        return Ok(());
    }
    let mut copy = TextCopy::none(alloc);
    shelf.create(name)?;
    fill_pool::<S, Brand>(pool, &mut copy, shelf)?;
    shelf.close()?;
    Ok(())
}

// Writes the tangled text of the web to the open file, which is empty, and to the copy.
fn fill_pascal<S: Shelf, B: Begun>(
    web: &Web,
    copy: &mut TextCopy,
    shelf: &mut S,
) -> Result<u32, EmitErr>
    requires open { S.is_open shelf.old ≡ true }
    requires copy { IsReady copy.old }
    requires empty { StandsEmpty (S.files shelf.old) (S.open_name shelf.old) }
    requires seen { B.seen ≡ seen_now (S.files shelf.old) (S.open_name shelf.old) (S.faults shelf.old)
        (S.last_failure shelf.old) copy.old }

    ensures ok { IfOk result (λ count. let made = tangled (expansion_of web.now) in
        (made.fault ≡ None) × (count ≡ length made.lines)) }
    ensures fault { IfEmissionFault result (λ fault. (tangled (expansion_of web.now)).fault ≡ Some fault) }
    ensures fills { Fills (text_of_lines (tangled (expansion_of web.now)).lines) (is_failed result)
        (shelf_now (S.files shelf.old) (S.open_name shelf.old)
        (S.faults shelf.old) (S.last_failure shelf.old))
        (shelf_now (S.files shelf.new) (S.open_name shelf.new)
        (S.faults shelf.new) (S.last_failure shelf.new)) }
    ensures copies { Copies (is_failed result) copy.old copy.new (S.open_name shelf.old) (S.files shelf.new) }
    ensures open { S.is_open shelf.new ≡ true }
{
    let mut sink = FileSink::<S, B>::new(shelf, copy);
    tell_pascal(web, &mut sink)
}

// Gives a new sink the tangled text of the web.
fn tell_pascal<S: Shelf, B: Begun>(web: &Web, sink: &mut FileSink<'_, S, B>) -> Result<u32, EmitErr>
    requires none_failed { sink.old.failures ≡ 0 }
    requires empty { StandsEmpty (S.files sink.old.shelf.now) (S.open_name sink.old.shelf.now) }
    requires seen { B.seen ≡ seen_now (S.files sink.old.shelf.now) (S.open_name sink.old.shelf.now)
        (S.faults sink.old.shelf.now) (S.last_failure sink.old.shelf.now) sink.old.copy.now }

    ensures ok { IfOk result (λ count. let made = tangled (expansion_of web.now) in
        (made.fault ≡ None) × (count ≡ length made.lines)) }
    ensures fault { IfEmissionFault result (λ fault. (tangled (expansion_of web.now)).fault ≡ Some fault) }
    ensures fills { Fills (text_of_lines (tangled (expansion_of web.now)).lines) (is_failed result)
        (shelf_now (S.files sink.old.shelf.now) (S.open_name sink.old.shelf.now)
        (S.faults sink.old.shelf.now) (S.last_failure sink.old.shelf.now))
        (shelf_now (S.files sink.new.shelf.now) (S.open_name sink.new.shelf.now)
        (S.faults sink.new.shelf.now) (S.last_failure sink.new.shelf.now)) }
    ensures copies { Copies (is_failed result) sink.old.copy.now sink.new.copy.now
        (S.open_name sink.old.shelf.now) (S.files sink.new.shelf.now) }
    ensures same_shelf { sink.new.shelf.ghost_name ≡ sink.old.shelf.ghost_name }
    ensures same_copy { sink.new.copy.ghost_name ≡ sink.old.copy.ghost_name }
{
    expand_to(web, sink)
}

// Writes the text of the pool to the open file, which is empty.
fn fill_pool<S: Shelf, B: Begun>(
    pool: &Pool,
    copy: &mut TextCopy,
    shelf: &mut S,
) -> Result<(), Failed>
    requires open { S.is_open shelf.old ≡ true }
    requires copy { IsReady copy.old }
    requires empty { StandsEmpty (S.files shelf.old) (S.open_name shelf.old) }
    requires seen { B.seen ≡ seen_now (S.files shelf.old) (S.open_name shelf.old) (S.faults shelf.old)
        (S.last_failure shelf.old) copy.old }

    ensures fills { Fills (pool_text pool.now) (is_err result)
        (shelf_now (S.files shelf.old) (S.open_name shelf.old)
        (S.faults shelf.old) (S.last_failure shelf.old))
        (shelf_now (S.files shelf.new) (S.open_name shelf.new)
        (S.faults shelf.new) (S.last_failure shelf.new)) }
    ensures open { S.is_open shelf.new ≡ true }
{
    let mut sink = FileSink::<S, B>::new(shelf, copy);
    tell_pool(pool, &mut sink)
}

// Gives a new sink the text of the pool.
fn tell_pool<S: Shelf, B: Begun>(pool: &Pool, sink: &mut FileSink<'_, S, B>) -> Result<(), Failed>
    requires none_failed { sink.old.failures ≡ 0 }
    requires empty { StandsEmpty (S.files sink.old.shelf.now) (S.open_name sink.old.shelf.now) }
    requires seen { B.seen ≡ seen_now (S.files sink.old.shelf.now) (S.open_name sink.old.shelf.now)
        (S.faults sink.old.shelf.now) (S.last_failure sink.old.shelf.now) sink.old.copy.now }

    ensures fills { Fills (pool_text pool.now) (is_err result)
        (shelf_now (S.files sink.old.shelf.now) (S.open_name sink.old.shelf.now)
        (S.faults sink.old.shelf.now) (S.last_failure sink.old.shelf.now))
        (shelf_now (S.files sink.new.shelf.now) (S.open_name sink.new.shelf.now)
        (S.faults sink.new.shelf.now) (S.last_failure sink.new.shelf.now)) }
    ensures same_shelf { sink.new.shelf.ghost_name ≡ sink.old.shelf.ghost_name }
    ensures same_copy { sink.new.copy.ghost_name ≡ sink.old.copy.ghost_name }
{
    write_pool(pool, sink)
}
