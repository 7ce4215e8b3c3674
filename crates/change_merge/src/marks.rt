//! The marks of a change file.
ghost use Rattle.std.specs.Prelude.{◌≡◌, ◌+◌, ◌≤◌, ◌↔◌, IsTrue, Some, length, drop};
ghost use Rattle.std.specs.List.{position_or_len};
ghost use Rattle.change_merge.specs.Changes.{mark_of, mark_of_letter, has_mark};
ghost use Rattle.change_merge.specs.inner.Spans.{lines_at, mark_there, AllInside};

use crate::spans::{Span, line_bytes};

// What a mark begins: `@x` the old part of a block, `@y` its new part, `@z` what stands after it.
#[derive(Clone, Copy, PartialEq, Eq)]
pub(crate) enum Mark {
    Old,
    New,
    End,
}

// The mark that a line of these bytes begins with.
fn mark_of(bytes: &[u8]) -> Option<Mark>
    ensures { result ≡ mark_of bytes.now }
{
    match bytes {
        [b'@', letter, ..] => mark_of_letter(*letter),
        _ => None,
    }
}

// The mark of the letter after an at sign.
fn mark_of_letter(letter: u8) -> Option<Mark>
    ensures { result ≡ mark_of_letter letter }
{
    match letter {
        b'x' | b'X' => Some(Mark::Old),
        b'y' | b'Y' => Some(Mark::New),
        b'z' | b'Z' => Some(Mark::End),
        _ => None,
    }
}

// The mark of the line at this index, where there is such a line and it has one.
pub(crate) fn mark_at(text: &[u8], spans: &[Span], index: usize) -> Option<Mark>
    requires { AllInside text.now spans.now }
    ensures { result ≡ mark_there (lines_at text.now spans.now) index }
{
    let span = spans.get(index)?;
    mark_of(line_bytes(text, span))
}

// Whether the line at this index begins with this mark; not where there is no such line.
pub(crate) fn is_mark_at(text: &[u8], spans: &[Span], index: usize, mark: Mark) -> bool
    requires { AllInside text.now spans.now }
    ensures { IsTrue result ↔ (mark_there (lines_at text.now spans.now) index ≡ Some mark) }
{
    mark_at(text, spans, index) == Some(mark)
}

// The index of the first line with a mark from this index on, or the number of lines.
pub(crate) fn next_mark(text: &[u8], spans: &[Span], from: usize) -> usize
    requires inside { AllInside text.now spans.now }
    requires from { from ≤ length spans.now }
    ensures value { result ≡ from + position_or_len has_mark (drop from (lines_at text.now spans.now)) }
    ensures within { result ≤ length spans.now }
{
    for index in from..spans.len() {
        if mark_of(line_bytes(text, &spans[index])).is_some() {
            return index;
        }
    }
    spans.len()
}
