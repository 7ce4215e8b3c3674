//! Passing text up to a control code.
ghost use Rattle.std.specs.Prelude.{◌≡◌, ◌<◌, ◌≤◌, [], Some, IfNone, IfSome, length};
ghost use Rattle.std.specs.List.{position_or_len};
ghost use Rattle.web_lex.specs.SkipAhead.{next_code};
ghost use Rattle.web_lex.specs.inner.Ahead.{first_byte, is_at_sign};
ghost use Rattle.web_lex.specs.inner.Steps.{found_with, found_after};

use crate::codes::{Code, control_code};
use crate::cursor::Cursor;
use wb_base::Place;

// Passes the text up to the next code that is neither ignored nor a doubled at sign, and that code, and answers it with
// the place of its at sign. Where there is none, all is passed.
pub(crate) fn find_code(cursor: &mut Cursor<'_>) -> Option<(Code, Place)>
    ensures code { next_code cursor.old.rest ≡ found_with result cursor.new.rest }
    ensures none { IfNone result (cursor.new.rest ≡ []) }
    ensures shorter { IfSome result (λ _. length cursor.new.rest < length cursor.old.rest) }
    ensures end { cursor.new.end ≡ cursor.old.end }
    ensures not_longer { length cursor.new.rest ≤ length cursor.old.rest }
{
    while let Some(byte) = pass_plain(cursor) {
        if let Some(found) = code_at(cursor, byte) {
            return Some(found);
        }
    }
    None
}

// Passes the bytes of the line before its first at sign, or before its end, and answers the byte that then comes first.
fn pass_plain(cursor: &mut Cursor<'_>) -> Option<u8>
    ensures code { next_code cursor.new.rest ≡ next_code cursor.old.rest }
    ensures byte { result ≡ first_byte cursor.new.rest }
    ensures end { cursor.new.end ≡ cursor.old.end }
    ensures not_longer { length cursor.new.rest ≤ length cursor.old.rest }
{
    cursor.first()?;
    cursor.pass(length_to_at_sign(cursor.line()));
    cursor.first()
}

// How many bytes stand before the first at sign, or before the end of the bytes.
fn length_to_at_sign(bytes: &[u8]) -> usize
    ensures value { result ≡ position_or_len is_at_sign bytes.now }
    ensures within { result ≤ length bytes.now }
{
    bytes
        .iter()
        .position(|byte| *byte == b'@')
        .unwrap_or(bytes.len())
}

// Passes this byte, and where it is an at sign, the byte after it. Answers their code where it is to be found.
fn code_at(cursor: &mut Cursor<'_>, byte: u8) -> Option<(Code, Place)>
    requires { first_byte cursor.old.rest ≡ Some byte }
    ensures code { next_code cursor.old.rest ≡ found_after result cursor.new.rest }
    ensures end { cursor.new.end ≡ cursor.old.end }
    ensures shorter { length cursor.new.rest < length cursor.old.rest }
{
    let place = cursor.place();
    cursor.pass(1);
    if byte != b'@' {
        return None;
    }
    let next = cursor.first()?;
    cursor.pass(1);
    match control_code(next) {
        Code::Ignore | Code::At => None,
        code => Some((code, place)),
    }
}
