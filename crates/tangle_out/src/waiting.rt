//! The text of the line that waits.
ghost use Rattle.std.specs.Prelude.{◌≡◌, ◌+◌, ◌*◌, ◌==◌, ◌≤◌, ◌<◌, ◌++◌, length, slice_index};
ghost use Rattle.tangle_out.specs.Pieces.{bytes_of, piece_of};
ghost use Rattle.tangle_out.specs.Packing.{takes_space_after, takes_space_before, begins_with_digit, is_spaced};
ghost use Rattle.tangle_out.specs.Packing.{ends_statement, space, after_cut, may_cut};
ghost use Rattle.tangle_out.specs.inner.Advance.{nothing_waits, text_with, place_before, with_more};
ghost use Rattle.tangle_out.specs.inner.Advance.{from_place, place_of_cut};

use crate::packing::WIDTH;
use crate::{OutPiece, PieceKind, PieceText};
use arrayvec::ArrayVec;
use std::marker::Model;
use wb_base::faults::LINE_NOT_CUT;

// The most bytes of a waiting text and a piece.
pub(crate) const CAPACITY: usize = 144;

// The text of the line that waits, with the two places at which it could be cut: the greatest semicolon place and the
// greatest break place. A place at its begin, 0, is none.
#[derive(Drop)]
pub(crate) struct Waiting {
    text: ArrayVec<u8, CAPACITY>,
    semicolon: usize,
    break_place: usize,
    before: PieceKind,
}

impl Model for Waiting {
    ghost use Rattle.tangle_out.specs.Packer.{WaitingText};

    ghost Value = { WaitingText };

    ghost view = { λ waiting. record {
      text = waiting.text.items;
      semicolon = waiting.semicolon;
      break_place = waiting.break_place;
      before = waiting.before;
    } };
}

impl Waiting {
    // Nothing waits.
    pub(crate) fn new() -> Waiting
        ensures { result ≡ nothing_waits }
    {
        Waiting {
            text: ArrayVec::new(),
            semicolon: 0,
            break_place: 0,
            before: PieceKind::Break,
        }
    }

    // The bytes that wait.
    pub(crate) fn text(&self) -> &[u8]
        ensures { result.now ≡ self.now.text }
    {
        self.text.as_slice()
    }

    // The length of the text with a piece more, which stands a space after the text or directly behind it.
    #[inline(always)]
    pub(crate) fn length_with(&self, piece: &OutPiece<'_>, spaced: bool) -> usize
        requires room { length (text_with self.now (piece_of piece.now)) ≤ CAPACITY }
        requires spaced { spaced ≡ is_spaced self.now.before (piece_of piece.now) }
        ensures { result ≡ length (text_with self.now (piece_of piece.now)) }
    {
        self.text.len() + usize::from(spaced) + bytes_of(&piece.text).len()
    }

    // Whether the piece stands a space after the text.
    #[inline(always)]
    pub(crate) fn spaces(&self, piece: &OutPiece<'_>) -> bool
        ensures { result ≡ is_spaced self.now.before (piece_of piece.now) }
    {
        !piece.glued
            && takes_space_after(self.before)
            && takes_space_before(piece.kind, bytes_of(&piece.text))
    }

    // Where a piece that ends past the width cuts the line, or the fault.
    pub(crate) fn place_of_cut(&self, piece: &OutPiece<'_>) -> Result<usize, u16>
        requires room { length (text_with self.now (piece_of piece.now)) ≤ CAPACITY }
        requires semicolon { self.now.semicolon ≤ length self.now.text }
        requires break_place { self.now.break_place ≤ length self.now.text }
        ensures { result ≡ place_of_cut WIDTH self.now (piece_of piece.now) }
    {
        let break_place = if piece.glued {
            self.break_place
        } else {
            self.text.len()
        };
        if self.may_cut(piece, self.semicolon) {
            Ok(self.semicolon)
        } else if self.may_cut(piece, break_place) {
            Ok(break_place)
        } else {
            Err(LINE_NOT_CUT)
        }
    }

    // Whether the line may be cut at this place: it is after the begin, and the rest is within the width.
    fn may_cut(&self, piece: &OutPiece<'_>, cut: usize) -> bool
        requires room { length (text_with self.now (piece_of piece.now)) ≤ CAPACITY }
        requires within { cut ≤ length self.now.text }
        ensures { result ≡ may_cut WIDTH 0 (text_with self.now (piece_of piece.now)) cut }
    {
        let dropped = usize::from(self.is_space(piece, cut));
        cut > 0 && self.length_with(piece, self.spaces(piece)) <= WIDTH + cut + dropped
    }

    // Whether the byte at this place is a space in the text with a piece more.
    fn is_space(&self, piece: &OutPiece<'_>, place: usize) -> bool
        requires { place ≤ length self.now.text }
        ensures { result ≡ (slice_index (text_with self.now (piece_of piece.now)) place == space) }
    {
        match self.text.as_slice().get(place) {
            Some(byte) => *byte == b' ',
            None => self.spaces(piece) || bytes_of(&piece.text).first() == Some(&b' '),
        }
    }

    // Adds a piece at the end, a space after the text or directly behind it.
    #[inline(always)]
    pub(crate) fn add(&mut self, piece: &OutPiece<'_>, spaced: bool)
        requires room { length (text_with self.old (piece_of piece.now)) ≤ CAPACITY }
        requires spaced { spaced ≡ is_spaced self.old.before (piece_of piece.now) }
        ensures { self.new ≡ with_more self.old (piece_of piece.now) }
    {
        if !piece.glued {
            self.break_place = self.text.len();
        }
        if spaced {
            self.text.push(b' ');
        }
        append(&mut self.text, bytes_of(&piece.text));
        if ends_statement(piece.kind) {
            self.semicolon = self.text.len();
            self.break_place = self.text.len();
        }
        self.before = piece.kind;
    }

    // Drops what stands before a cut, and a space at the cut.
    pub(crate) fn drop_line(&mut self, cut: usize)
        requires { cut < length self.old.text }
        ensures { self.new ≡ from_place (after_cut self.old.text cut) self.old }
    {
        let begin = cut + usize::from(self.text[cut] == b' ');
        let mut rest = ArrayVec::new();
        append(&mut rest, &self.text[begin..]);
        self.text = rest;
        self.semicolon = self.semicolon.saturating_sub(begin);
        self.break_place = self.break_place.saturating_sub(begin);
    }
}

// Adds bytes at the end of a buffer.
#[inline(always)]
pub(crate) fn append<const N: usize>(buffer: &mut ArrayVec<u8, N>, bytes: &[u8])
    requires { length buffer.old.items + length bytes.now ≤ N }
    ensures { buffer.new.items ≡ buffer.old.items ++ bytes.now }
{
    let _ = buffer.try_extend_from_slice(bytes);
}

// The bytes of a piece.
#[inline(always)]
fn bytes_of<'p>(text: &'p PieceText<'_>) -> &'p [u8]
    ensures { result.now ≡ bytes_of text.now }
{
    match text {
        PieceText::Slice(bytes) => bytes,
        PieceText::Short(bytes) => bytes.as_slice(),
    }
}

// Whether a space may stand after a piece of this kind.
#[inline(always)]
fn takes_space_after(kind: PieceKind) -> bool
    ensures { result ≡ takes_space_after kind }
{
    match kind {
        PieceKind::Word | PieceKind::Number => true,
        PieceKind::Semi | PieceKind::Other | PieceKind::Break => false,
    }
}

// Whether a space may stand before these bytes of a piece of this kind.
#[inline(always)]
fn takes_space_before(kind: PieceKind, text: &[u8]) -> bool
    ensures { result ≡ takes_space_before kind text.now }
{
    match kind {
        PieceKind::Word => true,
        PieceKind::Number => begins_with_digit(text),
        PieceKind::Semi | PieceKind::Other | PieceKind::Break => false,
    }
}

// Whether a text begins with a digit.
#[inline(always)]
fn begins_with_digit(text: &[u8]) -> bool
    ensures { result ≡ begins_with_digit text.now }
{
    match text {
        [byte, ..] => byte.is_ascii_digit(),
        [] => false,
    }
}

// Whether a piece of this kind is a sign or a mark that ends in `;` or `}`.
#[inline(always)]
fn ends_statement(kind: PieceKind) -> bool
    ensures { result ≡ ends_statement kind }
{
    match kind {
        PieceKind::Semi => true,
        PieceKind::Word | PieceKind::Number | PieceKind::Other | PieceKind::Break => false,
    }
}
