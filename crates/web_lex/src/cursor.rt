//! A place in the text of a web.
ghost use Rattle.std.specs.Prelude.{◌≡◌, ◌≢◌, ◌+◌, ◌<◌, ◌≤◌, ◌^◌, ◌∷◌, List, length, drop, Some};
ghost use Rattle.web_lex.specs.Raw.{PlacedByte, raw_text, end_of, place_of, bytes_of_line};
ghost use Rattle.web_lex.specs.inner.Ahead.{text_from, first_byte};

use change_merge::Lines;
use std::marker::Model;
use wb_base::{FileTag, Place};

// A place in the lines of a web. To contracts it is the text that is left, with the place of its end.
#[derive(Drop)]
pub(crate) struct Cursor<'l> {
    lines: &'l Lines,
    // The line that comes next, and what is left of it.
    index: usize,
    line: &'l [u8],
    end: Place,
}

impl<'l> Model for Cursor<'l> {
    ghost use Rattle.std.specs.Prelude.{◌+◌, ◌-◌, ◌*◌, ◌^◌, ◌<◌, drop, length};
    ghost use Rattle.web_lex.specs.inner.Ahead.{Ahead, text_from};

    ghost Value = { Ahead };

    ghost view = { λ cursor. record {
      rest = text_from (drop cursor.index cursor.lines.now) cursor.line.now;
      end = cursor.end;
      passed = cursor.index * 2 ^ 64 + (2 ^ 64 - length cursor.line.now);
    } };

    ghost invariant = { λ cursor. cursor.index < 2 ^ 64 };
}

impl<'l> Cursor<'l> {
    // The begin of the text of these lines.
    pub(crate) fn new(lines: &'l Lines) -> Cursor<'l>
        ensures rest { result.rest ≡ raw_text lines.now }
        ensures end { result.end ≡ end_of lines.now }
    {
        Cursor {
            lines,
            index: 0,
            line: line_at(lines, 0),
            end: end_of(lines),
        }
    }

    // The same place.
    pub(crate) fn copied(&self) -> Cursor<'l>
        ensures { result ≡ self.now }
    {
        Cursor {
            lines: self.lines,
            index: self.index,
            line: self.line,
            end: self.end,
        }
    }

    // The place of the text's end.
    pub(crate) fn end(&self) -> Place
        ensures { result ≡ self.now.end }
    {
        self.end
    }

    // The place of the first byte, or at the end of the text that of the end.
    pub(crate) fn place(&self) -> Place
        ensures { result ≡ place_of self.now.end self.now.rest }
    {
        if self.index < self.lines.count() {
            self.lines.place(self.index)
        } else {
            self.end
        }
    }

    // The first byte.
    pub(crate) fn first(&self) -> Option<u8>
        ensures byte { result ≡ first_byte self.now.rest }
        ensures passed { 0 < self.now.passed }
    {
        if self.index < self.lines.count() {
            Some(self.line.first().copied().unwrap_or(b' '))
        } else {
            None
        }
    }

    // The bytes before the end of the line. The text is not at its end.
    pub(crate) fn line(&self) -> &'l [u8]
        requires { 0 < length self.now.rest }
        ensures line { result.now ≡ bytes_of_line self.now.rest }
        ensures visible { (byte : PlacedByte) (after : List PlacedByte) → self.now.rest ≡ byte ∷ after
            → byte.byte ≢ 32 → result.now ≡ byte.byte ∷ bytes_of_line after }
    {
        self.line
    }

    // Passes so many bytes, at most those of the line and its end.
    pub(crate) fn pass(&mut self, size: usize)
        requires { size ≤ length (bytes_of_line self.old.rest) + 1 }
        ensures rest { self.new.rest ≡ drop size self.old.rest }
        ensures end { self.new.end ≡ self.old.end }
        ensures passed { self.new.passed ≤ 2 ^ 128 }
        ensures kept { self.old.passed ≤ self.new.passed }
        ensures rises { 0 < size → 0 < length self.old.rest → self.old.passed < self.new.passed }
        ensures shorter { 0 < size → 0 < length self.old.rest → length self.new.rest < length self.old.rest }
    {
        if size <= self.line.len() {
            self.line = &self.line[size..];
        } else if self.index < self.lines.count() {
            self.index += 1;
            self.line = line_at(self.lines, self.index);
        }
    }
}

// The bytes of the line at this index, and none after the last line.
fn line_at(lines: &Lines, index: usize) -> &[u8]
    ensures { raw_text (drop index lines.now) ≡ text_from (drop index lines.now) result.now }
{
    if index < lines.count() {
        lines.line(index)
    } else {
        &[]
    }
}

// The place of the end of these lines.
fn end_of(lines: &Lines) -> Place
    ensures { result ≡ end_of lines.now }
{
    match lines.count() {
        0 => Place {
            file: FileTag::Web,
            line: 0,
        },
        count => lines.place(count - 1),
    }
}
