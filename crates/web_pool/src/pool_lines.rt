//! The lines of a pool, and the strings that they hold.
ghost use Rattle.std.specs.Prelude.{◌≡◌, ◌==◌, ◌+◌, ◌<◌, ◌≤◌, ℕ, List, [], ◌∷◌, length, Ok, Err, None, IfOk, IfErr};
ghost use Rattle.std.specs.Prelude.{IfSome, MatchOption, MatchResult, option_copied};
ghost use Rattle.std.specs.Char.{is_ascii_digit};
ghost use Rattle.std.specs.List.{position_or_len, list_all};
ghost use Rattle.wb_base.specs.Pieces.{pieces_of, ends_line};
ghost use Rattle.web_pool.specs.PoolLines.{string_in, after_asterisk, has_nine_digits, pool_place};
ghost use Rattle.web_pool.specs.inner.PoolParts.{ReadsLine};

use crate::pool::{FIRST_NUMBER, LAST_NUMBER, LONGEST_STRING};
use wb_base::faults::{BAD_LAST_LINE, BAD_POOL_LENGTH, LIMIT_STRINGS, POOL_LINE_TOO_SHORT};
use wb_base::{Fault, FileTag, Place};

// The line of this number, from 1, of a pool.
pub(crate) fn pool_place(line: u32) -> Place
    ensures { result ≡ pool_place line }
{
    Place {
        file: FileTag::Pool,
        line,
    }
}

// How many bytes stand before the first byte 10, or before the end.
fn length_to_line_end(text: &[u8]) -> usize
    ensures value { result ≡ position_or_len ends_line text.now }
    ensures within { result ≤ length text.now }
{
    text.iter()
        .position(|byte| *byte == b'\n')
        .unwrap_or(text.len())
}

// The first line of a text without the byte 10 at its end, and what follows it. There is none in an empty text.
pub(crate) fn cut_line(text: &[u8]) -> Option<(&[u8], &[u8])>
    ensures pieces { MatchOption result (text.now ≡ []) (λ cut.
        pieces_of text.now ≡ cut.0.now ∷ pieces_of cut.1.now) }
    ensures shorter { IfSome result (λ cut. length cut.1.now < length text.now) }
{
    if text.is_empty() {
        return None;
    }
    let end = length_to_line_end(text);
    let after = if end < text.len() { end + 1 } else { end };
    Some((&text[..end], &text[after..]))
}

// The string of a line that is not the last, or the number of its fault.
fn string_in(line: &[u8]) -> Result<&[u8], u16>
    ensures string { MatchResult result (λ string. string_in line.now ≡ Ok string.now)
        (λ code. string_in line.now ≡ Err code) }
    ensures short { IfOk result (λ string. length string.now ≤ LONGEST_STRING) }
{
    let [tens, units, bytes @ ..] = line else {
        return Err(BAD_POOL_LENGTH);
    };
    if !tens.is_ascii_digit() || !units.is_ascii_digit() {
        return Err(BAD_POOL_LENGTH);
    }
    let count = usize::from(10 * (*tens - b'0') + (*units - b'0'));
    if bytes.len() < count {
        return Err(POOL_LINE_TOO_SHORT);
    }
    Ok(&bytes[..count])
}

// Whether all these bytes are digits.
fn all_digits(bytes: &[u8]) -> bool
    ensures { result ≡ list_all is_ascii_digit bytes.now }
{
    bytes.iter().all(|byte| byte.is_ascii_digit())
}

// Whether these bytes begin with nine digits.
fn has_nine_digits(bytes: &[u8]) -> bool
    ensures { result ≡ has_nine_digits bytes.now }
{
    bytes.len() >= 9 && all_digits(&bytes[..9])
}

// What stands after the asterisk with which a last line begins; none in another line.
fn after_asterisk(text: &[u8]) -> Option<&[u8]>
    ensures { option_copied result ≡ after_asterisk text.now }
{
    let (first, bytes) = text.split_first()?;
    if *first == b'*' { Some(bytes) } else { None }
}

// The string of the line of this number in a pool; none in the last line.
pub(crate) fn read_line(line: u32, text: &[u8]) -> Result<Option<&[u8]>, Fault>
    requires { 1 ≤ line }

    ensures string { IfOk result (λ string.
        ReadsLine line text.now (Ok (option_copied string))) }
    ensures fault { IfErr result (λ fault. ReadsLine line text.now (Err fault)) }
    ensures short { IfOk result (λ string. IfSome string (λ bytes. length bytes.now ≤ LONGEST_STRING)) }
    ensures few { IfOk result (λ string. IfSome string (λ _. FIRST_NUMBER + line ≤ LAST_NUMBER + 1)) }
{
    if let Some(bytes) = after_asterisk(text) {
        if has_nine_digits(bytes) {
            return Ok(None);
        }
        return Err(Fault::at(BAD_LAST_LINE, pool_place(line)));
    }
    match string_in(text) {
        Err(code) => Err(Fault::at(code, pool_place(line))),
        Ok(_) if line > LAST_NUMBER - FIRST_NUMBER + 1 => {
            Err(Fault::limit(LIMIT_STRINGS, pool_place(line)))
        }
        Ok(string) => Ok(Some(string)),
    }
}
