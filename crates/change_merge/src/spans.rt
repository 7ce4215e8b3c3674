//! The spans of a text's lines.
ghost use Rattle.std.specs.Prelude.{◌≡◌, ◌==◌, ◌≤◌, IfOk, IfErr, OnOk, Ok, Err, length, drop, count_by};
ghost use Rattle.std.specs.List.{position_or_len};
ghost use Rattle.wb_base.specs.WorkResult.{IfFault};
ghost use Rattle.change_merge.specs.Lines.{lines_of, without_white_at_end};
ghost use Rattle.wb_base.specs.Bytes.{is_white};
ghost use Rattle.change_merge.specs.inner.Spans.{line_at, lines_at, IsWithin, AllInside};

use std::alloc::Global;
use wb_base::faults::{LIMIT_FILE_BYTES, LINE_TOO_LONG};
use wb_base::{FILE_LIMIT, Fault, FileTag, Place, WorkErr};

// The most bytes of a line after the white space at its end was removed.
const LINE_LIMIT: usize = 3000;

// The place of a line, and where its bytes begin and end in the text that holds it.
#[derive(Clone, Copy)]
pub(crate) struct Span {
    pub(crate) place: Place,
    pub(crate) start: u32,
    pub(crate) end: u32,
}

// The spans of the lines of what stands in a text from this place on. Room for all of them is taken at once.
pub(crate) fn spans_of(
    alloc: Global,
    tag: FileTag,
    text: &[u8],
    from: usize,
) -> Result<Vec<Span>, WorkErr>
    requires within { from ≤ length text.now }
    requires small { from ≤ FILE_LIMIT }
    ensures ok { IfOk result
        (λ spans. lines_of tag (drop from text.now) ≡ Ok (lines_at text.now spans.items)) }
    ensures inside { IfOk result (λ spans. AllInside text.now spans.items) }
    ensures fault { IfFault result (λ fault. lines_of tag (drop from text.now) ≡ Err fault) }
{
    check_length(tag, &text[from..])?;
    let mut spans = Vec::with_capacity(alloc, line_ends(&text[from..]) + 1)?;
    let mut start = from;
    while start < text.len() {
        let rest = &text[start..];
        let width = length_to_line_end(rest);
        let size = length_without_white(&rest[..width]);
        let place = Place {
            file: tag,
            line: spans.len() as u32 + 1,
        };
        if size > LINE_LIMIT {
            return Err(Fault::at(LINE_TOO_LONG, place).into());
        }
        spans.push(Span {
            place,
            start: start as u32,
            end: (start + size) as u32,
        })?;
        start += width + 1;
    }
    Ok(spans)
}

// Refuses a file that is longer than its limit.
pub(crate) fn check_length(tag: FileTag, bytes: &[u8]) -> Result<(), Fault>
    ensures ok { OnOk result (length bytes.now ≤ FILE_LIMIT) }
    ensures fault { IfErr result (λ fault. lines_of tag bytes.now ≡ Err fault) }
{
    if bytes.len() > FILE_LIMIT {
        let whole = Place { file: tag, line: 0 };
        return Err(Fault::limit(LIMIT_FILE_BYTES, whole));
    }
    Ok(())
}

// The bytes of the line at a span of the text.
pub(crate) fn line_bytes<'t>(text: &'t [u8], span: &Span) -> &'t [u8]
    requires { IsWithin (length text.now) span.now }
    ensures { result.now ≡ (line_at text.now span.now).bytes }
{
    &text[span.start as usize..span.end as usize]
}

// How many line ends the text has.
fn line_ends(bytes: &[u8]) -> usize
    ensures { result ≡ count_by (λ byte. byte == 10) bytes.now }
{
    bytes.iter().filter(|byte| **byte == b'\n').count()
}

// How many bytes stand before the first line end, or before the end of the bytes.
fn length_to_line_end(bytes: &[u8]) -> usize
    ensures value { result ≡ position_or_len (λ byte. byte == 10) bytes.now }
    ensures within { result ≤ length bytes.now }
{
    bytes
        .iter()
        .position(|byte| *byte == b'\n')
        .unwrap_or(bytes.len())
}

// How many bytes are left without the white space at the end.
fn length_without_white(bytes: &[u8]) -> usize
    ensures { result ≡ length (without_white_at_end bytes.now) }
{
    let white = bytes
        .iter()
        .rev()
        .take_while(|byte| is_white(**byte))
        .count();
    bytes.len() - white
}

// Whether the byte is a space, a tab or a carriage return.
fn is_white(byte: u8) -> bool
    ensures { result ≡ is_white byte }
{
    matches!(byte, b' ' | b'\t' | b'\r')
}
