//! Passing what vanishes between the tokens of Pascal text.
ghost use Rattle.std.specs.Prelude.{◌≡◌, ◌<◌, ◌≤◌, ◌↔◌, IsTrue, Some, Ok, None, true, false, IfOk, IfSome, OnOk};
ghost use Rattle.std.specs.Prelude.{length, ℕ};
ghost use Rattle.std.specs.List.{position_or_len};
ghost use Rattle.web_lex.specs.Gaps.{after_comment, after_control_text, gap_at, after_gaps};
ghost use Rattle.web_lex.specs.inner.Ahead.{first_byte, matters_in_comment};
ghost use Rattle.web_lex.specs.inner.Steps.{rest_of, begins_section, comment_after, gap_before};

use crate::codes::{Code, control_code};
use crate::cursor::Cursor;
use crate::skipping::find_code;
use wb_base::Fault;
use wb_base::faults::{BAD_CONTROL_TEXT, COMMENT_NOT_ENDED};

// Passes all that vanishes before the next token.
pub(crate) fn skip_gaps(cursor: &mut Cursor<'_>) -> Result<(), Fault>
    ensures gaps { after_gaps (length cursor.old.rest) cursor.old.end cursor.old.rest
        ≡ rest_of result cursor.new.rest }
    ensures none_left { OnOk result (gap_at cursor.new.end cursor.new.rest ≡ Ok None) }
    ensures not_longer { OnOk result (length cursor.new.rest ≤ length cursor.old.rest) }
    ensures end { cursor.new.end ≡ cursor.old.end }
{
    while skip_gap(cursor)? {}
    Ok(())
}

// Passes what vanishes first, if something does.
fn skip_gap(cursor: &mut Cursor<'_>) -> Result<bool, Fault>
    ensures gap { gap_at cursor.old.end cursor.old.rest ≡ gap_before result cursor.new.rest }
    ensures shorter { result ≡ Ok true → length cursor.new.rest < length cursor.old.rest }
    ensures kept { result ≡ Ok false → cursor.new.rest ≡ cursor.old.rest }
    ensures end { cursor.new.end ≡ cursor.old.end }
{
    match cursor.first() {
        Some(b' ' | b'\t') => {
            cursor.pass(1);
            Ok(true)
        }
        Some(b'{') => {
            cursor.pass(1);
            skip_comment(cursor)?;
            Ok(true)
        }
        Some(b'@') => skip_code(cursor),
        _ => Ok(false),
    }
}

// Passes an ignored code, or a control text with its code, if the at sign that comes next begins one.
fn skip_code(cursor: &mut Cursor<'_>) -> Result<bool, Fault>
    requires { first_byte cursor.old.rest ≡ Some 64 }
    ensures gap { gap_at cursor.old.end cursor.old.rest ≡ gap_before result cursor.new.rest }
    ensures shorter { result ≡ Ok true → length cursor.new.rest < length cursor.old.rest }
    ensures kept { result ≡ Ok false → cursor.new.rest ≡ cursor.old.rest }
    ensures end { cursor.new.end ≡ cursor.old.end }
{
    let mut after = cursor.copied();
    after.pass(1);
    let Some(next) = after.first() else {
        return Ok(false);
    };
    after.pass(1);
    match control_code(next) {
        Code::Ignore => {}
        Code::Control => skip_control_text(&mut after)?,
        _ => return Ok(false),
    }
    *cursor = after;
    Ok(true)
}

// Passes a control text from within it, and the `@>` that ends it.
fn skip_control_text(cursor: &mut Cursor<'_>) -> Result<(), Fault>
    ensures text { after_control_text cursor.old.end cursor.old.rest ≡ rest_of result cursor.new.rest }
    ensures not_longer { length cursor.new.rest ≤ length cursor.old.rest }
    ensures end { cursor.new.end ≡ cursor.old.end }
{
    match find_code(cursor) {
        Some((Code::Stray, _)) => Ok(()),
        Some((_, place)) => Err(Fault::at(BAD_CONTROL_TEXT, place)),
        None => Err(Fault::at(BAD_CONTROL_TEXT, cursor.end())),
    }
}

// Passes a comment from within it, and the brace that ends it. The comments open within it are counted in a number that
// no web is long enough to pass.
fn skip_comment(cursor: &mut Cursor<'_>) -> Result<(), Fault>
    ensures comment { after_comment cursor.old.end 0 cursor.old.rest ≡ rest_of result cursor.new.rest }
    ensures not_longer { length cursor.new.rest ≤ length cursor.old.rest }
    ensures end { cursor.new.end ≡ cursor.old.end }
{
    let mut depth = 0;
    while let Some(byte) = cursor.first() {
        match pass_in_comment(cursor, byte, depth)? {
            Some(open) => depth = open,
            None => return Ok(()),
        }
    }
    Err(Fault::at(COMMENT_NOT_ENDED, cursor.end()))
}

// Passes the bytes of the line before the first that may matter in a comment, or before its end.
fn pass_plain(cursor: &mut Cursor<'_>)
    ensures comment { (depth : ℕ) → after_comment cursor.new.end depth cursor.new.rest
        ≡ after_comment cursor.old.end depth cursor.old.rest }
    ensures kept { cursor.old.passed ≤ cursor.new.passed }
    ensures not_longer { length cursor.new.rest ≤ length cursor.old.rest }
    ensures end { cursor.new.end ≡ cursor.old.end }
{
    if let Some(_) = cursor.first() {
        cursor.pass(length_to_mark(cursor.line()));
    }
}

// How many bytes stand before the first that may matter in a comment, or before the end of the bytes.
fn length_to_mark(bytes: &[u8]) -> usize
    ensures value { result ≡ position_or_len matters_in_comment bytes.now }
    ensures within { result ≤ length bytes.now }
{
    bytes
        .iter()
        .position(|byte| matches!(*byte, b'@' | b'\\' | b'{' | b'}'))
        .unwrap_or(bytes.len())
}

// Passes this byte of a comment with what it hides, where so many comments are open around it, and behind a plain byte
// the others of the line that are as plain. Answers how many comments are open after it, or none at the end of the
// comment.
fn pass_in_comment(cursor: &mut Cursor<'_>, byte: u8, depth: u128) -> Result<Option<u128>, Fault>
    requires first { first_byte cursor.old.rest ≡ Some byte }
    requires depth { depth < cursor.old.passed }
    ensures comment { after_comment cursor.old.end depth cursor.old.rest
        ≡ comment_after result cursor.new.end cursor.new.rest }
    ensures depth { IfOk result (λ still. IfSome still (λ depth. depth < cursor.new.passed)) }
    ensures shorter { length cursor.new.rest < length cursor.old.rest }
    ensures end { cursor.new.end ≡ cursor.old.end }
{
    let place = cursor.place();
    cursor.pass(1);
    match byte {
        b'@' if begins_section(cursor) => Err(Fault::at(COMMENT_NOT_ENDED, place)),
        b'@' => {
            cursor.pass(1);
            Ok(Some(depth))
        }
        b'\\' if begins_code(cursor) => Ok(Some(depth)),
        b'\\' => {
            cursor.pass(1);
            Ok(Some(depth))
        }
        b'{' => Ok(Some(depth + 1)),
        b'}' if depth == 0 => Ok(None),
        b'}' => Ok(Some(depth - 1)),
        _ => {
            pass_plain(cursor);
            Ok(Some(depth))
        }
    }
}

// Whether an at sign comes next.
fn begins_code(cursor: &Cursor<'_>) -> bool
    ensures { IsTrue result ↔ (first_byte cursor.now.rest ≡ Some 64) }
{
    cursor.first() == Some(b'@')
}

// Whether the byte that comes next begins a section with an at sign before it.
fn begins_section(cursor: &Cursor<'_>) -> bool
    ensures { result ≡ begins_section cursor.now.rest }
{
    match cursor.first() {
        Some(next) => matches!(control_code(next), Code::Section),
        None => false,
    }
}
