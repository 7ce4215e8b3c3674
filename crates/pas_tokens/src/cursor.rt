//! A place within a Pascal text, before one of its tokens.
ghost use Rattle.std.specs.Prelude.{◌≡◌, ◌+◌, ◌≤◌, ◌∷◌, length, count_by, Some, Ok, Err, IfOk, IfErr, IfSome};
ghost use Rattle.std.specs.Prelude.{OnOk, slice_get};
ghost use Rattle.wb_base.specs.Pieces.{ends_line};
ghost use Rattle.pas_tokens.specs.Tokens.{fault_in, tokens_of, end_token, after_first};
ghost use Rattle.pas_tokens.specs.inner.CodeCuts.{wrong_by, token_by};
ghost use Rattle.pas_tokens.specs.inner.Places.{IsPlaceIn, IsRead, IsBehind, Follows, tokens_at, tokens_behind};
ghost use Rattle.pas_tokens.specs.inner.Places.{is_ended};

use crate::cutting::Wrong;
use crate::fronts::{Front, front_of};
use crate::{Kind, Payload, Token};
use std::marker::Model;
use wb_base::faults::LIMIT_FILE_BYTES;
use wb_base::{FILE_LIMIT, Fault, FileTag, Place};

// How many bytes stand before a place, and its line.
#[derive(Clone, Copy)]
pub(crate) struct Point {
    pub(crate) before: usize,
    pub(crate) line: u32,
}

/// A place within a Pascal text that can be cut into tokens (ISO 7185, 6.1), before one of them. To contracts it is the
/// list of the tokens from there on, the last of which is the end of the text. It takes no memory.
#[derive(Drop)]
pub struct Cursor<'t> {
    text: &'t [u8],
    token: Token<'t>,
    // The place behind the token, unless this is the end of the text.
    behind: Option<Point>,
}

impl<'t> Model for Cursor<'t> {
    ghost use Rattle.std.specs.Prelude.{List};
    ghost use Rattle.pas_tokens.specs.Tokens.{Token};
    ghost use Rattle.pas_tokens.specs.inner.Places.{tokens_from_cursor, IsCursor};

    ghost Value = { List Token };

    ghost view = { tokens_from_cursor };

    ghost invariant = { IsCursor };
}

impl<'t> Cursor<'t> {
    /// The place before the first token. The whole text is cut into tokens, which takes no memory.
    ///
    /// # Errors
    ///
    /// The first fault of the text: 28 where it has more than 16,777,216 bytes, at line 0; else 50 for a byte that
    /// begins no token, 51 for what is no token, or 53 for a real number, at its first line.
    pub fn new(text: &'t [u8]) -> Result<Cursor<'t>, Fault>
        ensures ok { IfOk result (λ cursor. tokens_of text.now ≡ Ok cursor) }
        ensures fault { IfErr result (λ fault. tokens_of text.now ≡ Err fault) }
    {
        if text.len() > FILE_LIMIT {
            let place = Place {
                file: FileTag::Pas,
                line: 0,
            };
            return Err(Fault::limit(LIMIT_FILE_BYTES, place));
        }
        let (token, behind) = first_token(text)?;
        Ok(Cursor {
            text,
            token,
            behind,
        })
    }

    /// The token that comes next.
    pub fn peek(&self) -> Token<'t>
        ensures { slice_get self.now 0 ≡ Some (token_by result) }
    {
        self.token
    }

    /// Goes behind the token that comes next, unless this is the end of the text.
    pub fn advance(&mut self)
        ensures { self.new ≡ after_first self.old }
    {
        let Some(point) = self.behind else {
            return;
        };
        if let Ok((token, behind)) = next_token(self.text, point) {
            self.token = token;
            self.behind = behind;
        }
    }
}

// The first token of a text and the place behind it, where the whole text can be cut into tokens.
fn first_token(text: &[u8]) -> Result<(Token<'_>, Option<Point>), Fault>
    requires { length text.now ≤ FILE_LIMIT }
    ensures token { IfOk result (λ read. tokens_of text.now ≡ Ok (token_by read.0 ∷ tokens_behind text.now read.1)) }
    ensures behind { IfOk result (λ read. IfSome read.1 (IsBehind text.now)) }
    ensures fault { IfErr result (λ fault. tokens_of text.now ≡ Err fault) }
{
    let start = Point { before: 0, line: 1 };
    match check_tokens(text, start) {
        Ok(()) => next_token(text, start),
        Err(fault) => Err(fault),
    }
}

// Cuts a text into tokens from a place on, which is to tell its first fault.
fn check_tokens(text: &[u8], start: Point) -> Result<(), Fault>
    requires { IsPlaceIn text.now start }
    ensures ok { OnOk result (IsRead text.now start) }
    ensures fault { IfErr result (λ fault. tokens_at text.now start ≡ Err fault) }
{
    let mut point = start;
    loop {
        let (_, behind) = next_token(text, point)?;
        match behind {
            Some(behind) => point = behind,
            None => return Ok(()),
        }
    }
}

// The token from a place on, and the place behind it, unless this is the end of the text.
fn next_token(text: &[u8], start: Point) -> Result<(Token<'_>, Option<Point>), Fault>
    requires { IsPlaceIn text.now start }
    ensures token { IfOk result (λ read. Follows text.now start read.0 read.1) }
    ensures fault { IfErr result (λ fault. tokens_at text.now start ≡ Err fault) }
{
    let mut point = start;
    while point.before < text.len() {
        let front = front_of(&text[point.before..]);
        match front {
            Front::Passes(size) => point = point_behind(text, point, size),
            Front::Holds(cut) => {
                let token = Token {
                    kind: cut.kind,
                    payload: cut.payload,
                    line: point.line,
                };
                return Ok((token, Some(point_behind(text, point, cut.size))));
            }
            Front::Shows(wrong) => return Err(fault_in(point.line, wrong)),
        }
    }
    Ok((end_token(text, point), None))
}

// The fault that a line shows.
fn fault_in(line: u32, wrong: Wrong) -> Fault
    ensures { result ≡ fault_in line (wrong_by wrong) }
{
    Fault {
        code: wrong.code,
        file: FileTag::Pas,
        line,
        which: wrong.which,
    }
}

// The place so many bytes behind another.
fn point_behind(text: &[u8], point: Point, size: usize) -> Point
    requires place { IsPlaceIn text.now point }
    requires within { point.before + size ≤ length text.now }
    ensures place { IsPlaceIn text.now result }
    ensures before { result.before ≡ point.before + size }
{
    let end = point.before + size;
    Point {
        before: end,
        line: point.line + line_ends(&text[point.before..end]),
    }
}

// How many lines end in these bytes.
fn line_ends(bytes: &[u8]) -> u32
    requires { length bytes.now ≤ FILE_LIMIT }
    ensures value { result ≡ count_by ends_line bytes.now }
    ensures most { result ≤ length bytes.now }
{
    let mut count = 0;
    for byte in bytes {
        if *byte == b'\n' {
            count += 1;
        }
    }
    count
}

// The token at the end of a text, which is this place.
fn end_token<'t>(text: &[u8], end: Point) -> Token<'t>
    requires place { IsPlaceIn text.now end }
    requires end { length text.now ≤ end.before }
    ensures { token_by result ≡ end_token text.now }
{
    let line = if is_ended(text) {
        end.line - 1
    } else {
        end.line
    };
    Token {
        kind: Kind::EndOfText,
        payload: Payload::Nothing,
        line,
    }
}

// Whether the last byte of a text ends a line.
fn is_ended(text: &[u8]) -> bool
    ensures { result ≡ is_ended text.now }
{
    match text.last() {
        Some(byte) => *byte == b'\n',
        None => false,
    }
}
