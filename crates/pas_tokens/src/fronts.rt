//! What stands at the front of a Pascal text.
ghost use Rattle.std.specs.Prelude.{◌≡◌, ◌+◌, ◌<◌, ◌≤◌, ◌∷◌, ℕ, List, length, drop, IfSome, option_map};
ghost use Rattle.pas_tokens.specs.Cutting.{is_pascal_blank, behind_comment};
ghost use Rattle.pas_tokens.specs.Tokens.{front_of, comment_front, begins_comment, within_comment};
ghost use Rattle.pas_tokens.specs.inner.CodeCuts.{front_by, FrontFits};

use crate::cutting::{Cut, Wrong, token_cut};

// What stands at the front of a text: so many bytes that are passed, a token, or a fault.
#[derive(Clone, Copy)]
pub(crate) enum Front<'t> {
    Passes(usize),
    Holds(Cut<'t>),
    Shows(Wrong),
}

// The front of a text that is not empty.
pub(crate) fn front_of(text: &[u8]) -> Front<'_>
    requires { 0 < length text.now }
    ensures value { (byte : ℕ) (bytes : List ℕ) → text.now ≡ byte ∷ bytes
        → front_by text.now result ≡ front_of byte bytes }
    ensures fits { FrontFits (length text.now) result }
{
    if is_blank(text[0]) {
        return Front::Passes(1);
    }
    if begins_comment(text) {
        return comment_front(text);
    }
    match token_cut(text) {
        Ok(cut) => Front::Holds(cut),
        Err(wrong) => Front::Shows(wrong),
    }
}

// Whether the byte is a space, a tab, a carriage return, or the end of a line.
fn is_blank(byte: u8) -> bool
    ensures { result ≡ is_pascal_blank byte }
{
    byte == b' ' || byte == b'\t' || byte == b'\r' || byte == b'\n'
}

// Whether a comment begins at the front of a text.
fn begins_comment(text: &[u8]) -> bool
    ensures value { result ≡ begins_comment text.now }
{
    matches!(text, [b'{', ..] | [b'(', b'*', ..])
}

// The comment at the front of a text.
fn comment_front(text: &[u8]) -> Front<'_>
    requires { 0 < length text.now }
    ensures value { front_by text.now result ≡ comment_front (behind_comment (within_comment text.now)) }
    ensures fits { FrontFits (length text.now) result }
{
    let opening = if text[0] == b'{' {
        1
    } else {
        2.min(text.len())
    };
    match comment_size(&text[opening..]) {
        Some(size) => Front::Passes(opening + size),
        None => Front::Shows(Wrong::TOKEN),
    }
}

// How many bytes a comment still takes, with its end, if it ends.
fn comment_size(inside: &[u8]) -> Option<usize>
    ensures value { option_map (λ size. drop size inside.now) result ≡ behind_comment inside.now }
    ensures within { IfSome result (λ size. size ≤ length inside.now) }
{
    let mut size = 0;
    while size < inside.len() {
        match &inside[size..] {
            [b'}', ..] => return Some(size + 1),
            [b'*', b')', ..] => return Some(size + 2),
            _ => size += 1,
        }
    }
    None
}
