//! The token at the front of a Pascal text.
ghost use Rattle.std.specs.Prelude.{◌≡◌, ◌+◌, ◌<◌, ◌≤◌, ◌∷◌, ℕ, List, length, take, drop, IfOk, IfSome, Some, None};
ghost use Rattle.std.specs.Prelude.{nat_lt, if◌then◌else◌};
ghost use Rattle.std.specs.List.{prefix_len};
ghost use Rattle.std.specs.Char.{is_ascii_digit};
ghost use Rattle.pas_tokens.specs.Cutting.{is_name_byte, is_sign, is_real_behind, value_of, string_size};
ghost use Rattle.pas_tokens.specs.Cutting.{name_cut, number_cut, string_by, sign_cut, token_cut};
ghost use Rattle.pas_tokens.specs.inner.CodeCuts.{cut_by, size_by};

use crate::spellings::{reserved_word, sign_of_one, sign_of_two};
use crate::{GREATEST_NUMBER, Kind, NAME_LIMIT, Payload};
use wb_base::faults::{BAD_PASCAL_BYTE, BAD_PASCAL_TOKEN, PASCAL_LEFT_OUT, REAL_NUMBERS};

// A token at the front of a text, and how many bytes it takes.
#[derive(Clone, Copy)]
pub(crate) struct Cut<'t> {
    pub(crate) kind: Kind,
    pub(crate) payload: Payload<'t>,
    pub(crate) size: usize,
}

// A fault: its number, and which part of Pascal is left out, where it is that.
#[derive(Clone, Copy)]
pub(crate) struct Wrong {
    pub(crate) code: u16,
    pub(crate) which: u8,
}

impl Wrong {
    // What is no token.
    pub(crate) const TOKEN: Wrong = Wrong {
        code: BAD_PASCAL_TOKEN,
        which: 0,
    };

    // A byte that begins no token.
    const BYTE: Wrong = Wrong {
        code: BAD_PASCAL_BYTE,
        which: 0,
    };

    // A real number.
    const REAL: Wrong = Wrong {
        code: PASCAL_LEFT_OUT,
        which: REAL_NUMBERS,
    };
}

// The token at the front of a text, where no blank and no comment stands before it.
pub(crate) fn token_cut(text: &[u8]) -> Result<Cut<'_>, Wrong>
    requires { 0 < length text.now }
    ensures value { (byte : ℕ) (bytes : List ℕ) → text.now ≡ byte ∷ bytes
        → cut_by text.now result ≡ token_cut byte bytes }
    ensures some { IfOk result (λ cut. 0 < cut.size) }
    ensures within { IfOk result (λ cut. cut.size ≤ length text.now) }
{
    match text[0] {
        b'a'..=b'z' | b'A'..=b'Z' => name_cut(text),
        b'0'..=b'9' => number_cut(text),
        b'\'' => string_cut(&text[1..]),
        _ => sign_cut(text),
    }
}

// The name or the reserved word at the front of a text that begins with a letter.
fn name_cut(text: &[u8]) -> Result<Cut<'_>, Wrong>
    ensures value { cut_by text.now result ≡ name_cut text.now }
    ensures within { IfOk result (λ cut. cut.size ≤ length text.now) }
    ensures size { IfOk result (λ cut. cut.size ≡ prefix_len is_name_byte text.now) }
{
    let size = name_bytes(text);
    if size > NAME_LIMIT {
        return Err(Wrong::TOKEN);
    }
    let word = &text[..size];
    Ok(match reserved_word(word) {
        Some(kind) => Cut {
            kind,
            payload: Payload::Nothing,
            size,
        },
        None => Cut {
            kind: Kind::Name,
            payload: Payload::Spelling(word),
            size,
        },
    })
}

// How many of the first bytes are letters, digits and underlines.
fn name_bytes(text: &[u8]) -> usize
    ensures value { result ≡ prefix_len is_name_byte text.now }
    ensures within { result ≤ length text.now }
{
    text.iter()
        .take_while(|byte| matches!(byte, b'0'..=b'9' | b'A'..=b'Z' | b'a'..=b'z' | b'_'))
        .count()
}

// The number at the front of a text that begins with a digit.
fn number_cut(text: &[u8]) -> Result<Cut<'_>, Wrong>
    ensures value { cut_by text.now result ≡ number_cut text.now }
    ensures within { IfOk result (λ cut. cut.size ≤ length text.now) }
    ensures size { IfOk result (λ cut. cut.size ≡ prefix_len is_ascii_digit text.now) }
{
    let size = digits(text);
    let Some(value) = value_of(&text[..size]) else {
        return Err(Wrong::TOKEN);
    };
    if is_real_behind(&text[size..]) {
        return Err(Wrong::REAL);
    }
    Ok(Cut {
        kind: Kind::Number,
        payload: Payload::Value(value),
        size,
    })
}

// How many of the first bytes are digits.
fn digits(text: &[u8]) -> usize
    ensures value { result ≡ prefix_len is_ascii_digit text.now }
    ensures within { result ≤ length text.now }
{
    text.iter()
        .take_while(|byte| matches!(byte, b'0'..=b'9'))
        .count()
}

// The value of digits, or none where it is past the greatest.
fn value_of(digits: &[u8]) -> Option<u32>
    ensures { result ≡ (if nat_lt GREATEST_NUMBER (value_of digits.now) then None else Some (value_of digits.now)) }
{
    let mut value = 0;
    for digit in digits {
        value = value * 10 + u64::from(digit.saturating_sub(b'0'));
        if value > u64::from(GREATEST_NUMBER) {
            return None;
        }
    }
    Some(value as u32)
}

// Whether what stands behind digits makes them a real number.
fn is_real_behind(rest: &[u8]) -> bool
    ensures { result ≡ is_real_behind rest.now }
{
    match rest {
        [b'.', next, ..] => next.is_ascii_digit(),
        [b'e' | b'E', next, ..] => next.is_ascii_digit() || is_sign(*next),
        _ => false,
    }
}

// Whether the byte is `+` or `-`.
fn is_sign(byte: u8) -> bool
    ensures { result ≡ is_sign byte }
{
    byte == b'+' || byte == b'-'
}

// The string of which this stands behind the first quote.
fn string_cut(inside: &[u8]) -> Result<Cut<'_>, Wrong>
    ensures value { (quote : ℕ) → cut_by (quote ∷ inside.now) result ≡ string_by inside.now (string_size inside.now) }
    ensures some { IfOk result (λ cut. 0 < cut.size) }
    ensures within { IfOk result (λ cut. cut.size ≤ length inside.now + 1) }
{
    match string_size(inside) {
        None | Some(0) => Err(Wrong::TOKEN),
        Some(size) => Ok(Cut {
            kind: Kind::Text,
            payload: Payload::Spelling(&inside[..size]),
            size: size + 2,
        }),
    }
}

// How many bytes stand before the quote that ends a string, if one does.
fn string_size(inside: &[u8]) -> Option<usize>
    ensures value { result ≡ string_size inside.now }
    ensures within { IfSome result (λ size. size < length inside.now) }
{
    let mut size = 0;
    while size < inside.len() {
        match part_at(&inside[size..]) {
            Part::Single => size += 1,
            Part::Doubled => size += 2,
            Part::End => return Some(size),
            Part::Wrong => return None,
        }
    }
    None
}

// What a byte is in a string: one byte of it, the first of a doubled quote, its end, or none that may stand there.
#[derive(Clone, Copy)]
pub(crate) enum Part {
    Single,
    Doubled,
    End,
    Wrong,
}

// What the first of these bytes is in a string.
fn part_at(bytes: &[u8]) -> Part
    requires { 0 < length bytes.now }
    ensures { string_size bytes.now ≡ size_by result (string_size (drop 1 bytes.now)) (string_size (drop 2 bytes.now)) }
{
    match bytes {
        [b'\'', b'\'', ..] => Part::Doubled,
        [b'\'', ..] => Part::End,
        [b' '..=b'~', ..] => Part::Single,
        _ => Part::Wrong,
    }
}

// The sign at the front of a text.
fn sign_cut(text: &[u8]) -> Result<Cut<'_>, Wrong>
    requires { 0 < length text.now }
    ensures value { cut_by text.now result ≡ sign_cut text.now }
    ensures some { IfOk result (λ cut. 0 < cut.size) }
    ensures within { IfOk result (λ cut. cut.size ≤ length text.now) }
{
    let two = if text.len() < 2 { text } else { &text[..2] };
    if let Some(kind) = sign_of_two(two) {
        return Ok(sign(kind, two.len()));
    }
    match sign_of_one(&text[..1]) {
        Some(kind) => Ok(sign(kind, 1)),
        None => Err(Wrong::BYTE),
    }
}

// A sign of so many bytes.
fn sign<'t>(kind: Kind, size: usize) -> Cut<'t>
    ensures kind { result.kind ≡ kind }
    ensures payload { result.payload ≡ Payload.Nothing }
    ensures size { result.size ≡ size }
{
    Cut {
        kind,
        payload: Payload::Nothing,
        size,
    }
}
