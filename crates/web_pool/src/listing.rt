//! Listing a pool.
ghost use Rattle.std.specs.Prelude.{◌≡◌, ◌+◌, ◌++◌, None, Some, Ok, Err, IfOk, OnOk, OnErr, is_err};
ghost use Rattle.wb_ports.specs.Counts.{CountsFailure};
ghost use Rattle.wb_ports.specs.Held.{Gains, GainsPrefix};
ghost use Rattle.web_pool.specs.Listing.{Lists, listing, listing_of, is_failed_listing, entries_from, byte_strings};
ghost use Rattle.web_pool.specs.PoolLines.{read_pool};
ghost use Rattle.web_pool.specs.inner.Gathering.{HandsOn};
ghost use Rattle.web_pool.specs.inner.PoolParts.{EndsAs, EndsBy, closing_by};

use crate::PoolTypeErr;
use crate::entries::{characters_of, closing_line, entry};
use crate::gathering::Gatherer;
use crate::pool::FIRST_NUMBER;
use crate::pool_lines::{cut_line, pool_place, read_line};
use wb_base::faults::{BAD_LAST_LINE, LIMIT_FILE_BYTES};
use wb_base::{FILE_LIMIT, Fault};
use wb_ports::{Failed, Sink};

// How many characters are shown of the first 256 strings.
const FIRST_CHARACTERS: u32 = 706;

// Writes the lines of the first 256 strings, each of which is a byte.
fn list_bytes<K: Sink>(out: &mut Gatherer, sink: &mut K) -> Result<(), Failed>
    ensures ok { OnOk result
        (HandsOn (out.old ++ entries_from 0 (byte_strings 256)) out.new (K.held sink.old) (K.held sink.new)) }
    ensures failed { OnErr result
        (GainsPrefix (out.old ++ entries_from 0 (byte_strings 256)) (K.held sink.old) (K.held sink.new)) }
    ensures cause { CountsFailure (is_err result) (K.faults sink.old) (K.faults sink.new) }
    ensures frame { K.frame sink.new ≡ K.frame sink.old }
{
    for code in 0..FIRST_NUMBER {
        out.write(&entry(code, &[code as u8]), sink)?;
    }
    Ok(())
}

// Writes the lines of the strings of a pool. It tells how many characters were shown in all, or the fault by which the
// pool ends.
fn list_strings<K: Sink>(
    pool: &[u8],
    out: &mut Gatherer,
    sink: &mut K,
) -> Result<Result<u32, Fault>, Failed>
    ensures ended { IfOk result (EndsAs (read_pool pool.now)) }
    ensures ok { OnOk result (HandsOn (out.old ++ entries_from FIRST_NUMBER (read_pool pool.now).strings) out.new
        (K.held sink.old) (K.held sink.new)) }
    ensures failed { OnErr result (GainsPrefix (out.old ++ entries_from FIRST_NUMBER (read_pool pool.now).strings)
        (K.held sink.old) (K.held sink.new)) }
    ensures cause { CountsFailure (is_err result) (K.faults sink.old) (K.faults sink.new) }
    ensures frame { K.frame sink.new ≡ K.frame sink.old }
{
    let mut rest = pool;
    let mut line = 1;
    let mut characters = FIRST_CHARACTERS;
    while let Some((text, after)) = cut_line(rest) {
        match read_line(line, text) {
            Ok(Some(string)) => {
                out.write(&entry(FIRST_NUMBER - 1 + line, string), sink)?;
                characters += characters_of(string);
            }
            Ok(None) => return Ok(Ok(characters)),
            Err(fault) => return Ok(Err(fault)),
        }
        rest = after;
        line += 1;
    }
    Ok(Err(Fault::at(BAD_LAST_LINE, pool_place(line))))
}

// Writes the last line, unless a fault ended the pool, and hands on all that is kept back.
fn list_end<K: Sink>(
    ended: &Result<u32, Fault>,
    out: &mut Gatherer,
    sink: &mut K,
) -> Result<(), Failed>
    ensures ok { OnOk result (Gains (out.old ++ closing_by ended.now) (K.held sink.old) (K.held sink.new)) }
    ensures failed { OnErr result (GainsPrefix (out.old ++ closing_by ended.now) (K.held sink.old) (K.held sink.new)) }
    ensures cause { CountsFailure (is_err result) (K.faults sink.old) (K.faults sink.new) }
    ensures frame { K.frame sink.new ≡ K.frame sink.old }
{
    match ended {
        Ok(characters) => {
            out.write(&closing_line(*characters), sink)?;
            out.hand_on(sink)
        }
        Err(_) => out.hand_on(sink),
    }
}

// Writes the listing of a pool. It tells the fault by which the pool ends, if it has one.
fn list_all<K: Sink>(pool: &[u8], sink: &mut K) -> Result<Result<(), Fault>, Failed>
    ensures ended { IfOk result (EndsBy (read_pool pool.now).fault) }
    ensures ok { OnOk result (Gains (listing_of (read_pool pool.now)).text (K.held sink.old) (K.held sink.new)) }
    ensures failed { OnErr result
        (GainsPrefix (listing_of (read_pool pool.now)).text (K.held sink.old) (K.held sink.new)) }
    ensures cause { CountsFailure (is_err result) (K.faults sink.old) (K.faults sink.new) }
    ensures frame { K.frame sink.new ≡ K.frame sink.old }
{
    let mut out = Gatherer::new();
    list_bytes(&mut out, sink)?;
    let ended = list_strings(pool, &mut out, sink)?;
    list_end(&ended, &mut out, sink)?;
    Ok(ended.map(|_| ()))
}

/// Lists a pool: the first 256 strings and those of the pool, each with its number, and how many characters were shown.
/// It takes no memory.
///
/// Faults: 28 (1), where the pool has too many bytes, before anything is written; else the first of 40, where a line
/// does not begin with a length, 41, where it has fewer bytes than that, 28 (5), where its number would be past 32,767,
/// and 42, where the last line has no nine digits or is missing; the lines before it are then written. After `Failed`
/// the sink got a prefix of the text.
pub fn pooltype<K: Sink>(pool: &[u8], sink: &mut K) -> Result<(), PoolTypeErr>
    ensures lists { Lists (listing pool.now) result (K.held sink.old) (K.held sink.new) }
    ensures cause { CountsFailure (is_failed_listing result) (K.faults sink.old) (K.faults sink.new) }
    ensures frame { K.frame sink.new ≡ K.frame sink.old }
{
    if pool.len() > FILE_LIMIT {
        return Err(PoolTypeErr::Fault(Fault::limit(LIMIT_FILE_BYTES, pool_place(0))));
    }
    match list_all(pool, sink) {
        Ok(Ok(())) => Ok(()),
        Ok(Err(fault)) => Err(PoolTypeErr::Fault(fault)),
        Err(Failed) => Err(PoolTypeErr::Failed),
    }
}
