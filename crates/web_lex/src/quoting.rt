//! Strings and verbatim texts.
ghost use Rattle.std.specs.Prelude.{◌≡◌, ◌+◌, ◌≤◌, ◌<◌, IfOk, length, drop};
ghost use Rattle.web_lex.specs.Token.{is_next, is_text_byte, inner_part, part_of, size_from, text_size, unended};
ghost use Rattle.web_lex.specs.inner.LineTokens.{delimiter_of, part_view};

use wb_base::faults::{AT_SIGN_NOT_DOUBLED, BAD_BYTE, BAD_CONTROL_TEXT, STRING_NOT_ENDED};

// What ends a text: a quote of this kind, or `@>`.
#[derive(Clone, Copy)]
pub(crate) enum Delimiter {
    Quote(u8),
    EndCode,
}

// What a byte is in a text: one byte of it, the first of a doubled one, its end, or a fault of this number.
#[derive(Clone, Copy)]
pub(crate) enum Part {
    Single,
    Doubled,
    End,
    Wrong(u16),
}

// How many bytes of a line stand before the end of a text of this kind, or the number of the first fault.
pub(crate) fn text_size(kind: Delimiter, bytes: &[u8]) -> Result<usize, u16>
    ensures value { result ≡ text_size (delimiter_of kind) bytes.now }
    ensures within { IfOk result (λ size. size < length bytes.now) }
{
    let mut size = 0;
    while size < bytes.len() {
        match part_at(kind, &bytes[size..]) {
            Part::Single => size += 1,
            Part::Doubled => size += 2,
            Part::End => return Ok(size),
            Part::Wrong(code) => return Err(code),
        }
    }
    Err(unended(kind))
}

// What the first of these bytes is in a text of this kind.
fn part_at(kind: Delimiter, bytes: &[u8]) -> Part
    requires { 0 < length bytes.now }
    ensures { text_size (delimiter_of kind) bytes.now
        ≡ size_from (part_view result) (text_size (delimiter_of kind) (drop 1 bytes.now))
        (text_size (delimiter_of kind) (drop 2 bytes.now)) }
{
    match bytes {
        [] => unreachable!(),
        [byte] => part_of(kind, *byte, None),
        [byte, next, ..] => part_of(kind, *byte, Some(*next)),
    }
}

// What a byte is in a text of this kind, by the byte after it, or none at the line's end.
fn part_of(kind: Delimiter, byte: u8, next: Option<u8>) -> Part
    ensures { part_view result ≡ part_of (delimiter_of kind) byte next }
{
    match kind {
        Delimiter::Quote(quote) if byte == quote => {
            if is_next(quote, next) {
                Part::Doubled
            } else {
                Part::End
            }
        }
        Delimiter::EndCode if byte == b'@' && is_next(b'>', next) => Part::End,
        _ => inner_part(byte, next),
    }
}

// What a byte that ends no text is in one.
fn inner_part(byte: u8, next: Option<u8>) -> Part
    ensures { part_view result ≡ inner_part byte next }
{
    match byte {
        b'@' if is_next(b'@', next) => Part::Doubled,
        b'@' => Part::Wrong(AT_SIGN_NOT_DOUBLED),
        b' '..=b'~' => Part::Single,
        _ => Part::Wrong(BAD_BYTE),
    }
}

// Whether there is a next byte and it is this one.
fn is_next(byte: u8, next: Option<u8>) -> bool
    ensures { result ≡ is_next byte next }
{
    match next {
        Some(next) => next == byte,
        None => false,
    }
}

// The number of the fault of a text that does not end on its line.
fn unended(kind: Delimiter) -> u16
    ensures { result ≡ unended (delimiter_of kind) }
{
    match kind {
        Delimiter::Quote(_) => STRING_NOT_ENDED,
        Delimiter::EndCode => BAD_CONTROL_TEXT,
    }
}
