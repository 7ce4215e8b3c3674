//! The merge of a web with a change file.
ghost use Rattle.std.specs.Prelude.{◌≡◌, ◌+◌, ◌-◌, ◌≤◌, List, ◌++◌, All, length, drop, slice_range};
ghost use Rattle.std.specs.Prelude.{IfOk, Result, Ok, Err};
ghost use Rattle.std.specs.List.{position_or_len};
ghost use Rattle.std.specs.Str.{bytes_eq};
ghost use Rattle.wb_base.specs.declared.faults.Fault.{Fault};
ghost use Rattle.wb_base.specs.WorkResult.{IfFault};
ghost use Rattle.change_merge.specs.Lines.{Line};
ghost use Rattle.wb_base.specs.Steps.{followed_by};
ghost use Rattle.change_merge.specs.Merge.{lines_after, with_change, with_changes, merge_of};
ghost use Rattle.change_merge.specs.inner.Spans.{lines_at, change_at, changes_at, AllInside, IsInOrder};

use crate::blocks::Block;
use crate::cutting::lines;
use crate::spans::{Span, check_length, line_bytes, spans_of};
use crate::{Changes, Lines};
use std::alloc::{AllocError, Global};
use wb_base::faults::{CHANGE_LINES_DIFFER, CHANGE_NOT_FOUND};
use wb_base::{Fault, FileTag, WorkErr};

/// The lines of a web with the blocks of a change file. The next block applies at the first line of the web, after
/// the block before, that equals its first old line. Its other old lines must be the next lines of the web. Its new
/// lines stand in place of its old ones, keep their places in the change file, and are not matched again.
///
/// Faults: those of `lines` for the web; then the first of 6, a block that applies nowhere, at its `@x`, and 7, an old
/// line that is not the web's next line, at that old line.
///
/// The rule is TANGLE's; the faults are this project's own.
pub fn merge(alloc: Global, web: &[u8], changes: &Changes) -> Result<Lines, WorkErr>
    ensures ok { IfOk result (λ lines. merge_of web.now changes.now ≡ Ok lines) }
    ensures fault { IfFault result (λ fault. merge_of web.now changes.now ≡ Err fault) }
{
    if changes.blocks.is_empty() {
        return lines(alloc, FileTag::Web, web);
    }
    check_length(FileTag::Web, web)?;
    let text = joined(alloc, &changes.text, web)?;
    let web_spans = spans_of(alloc, FileTag::Web, &text, changes.text.len())?;
    let spans = merged_spans(alloc, &text, &web_spans, &changes.spans, &changes.blocks)?;
    Ok(Lines::new(text, spans))
}

// One text after another.
fn joined(alloc: Global, prefix: &[u8], suffix: &[u8]) -> Result<Vec<u8>, AllocError>
    ensures { IfOk result (λ text. text.items ≡ prefix.now ++ suffix.now) }
{
    let mut text = Vec::with_capacity(alloc, prefix.len() + suffix.len())?;
    text.extend_from_slice(prefix)?;
    text.extend_from_slice(suffix)?;
    Ok(text)
}

// The web's lines with the blocks, all as spans of one text.
fn merged_spans(
    alloc: Global,
    text: &[u8],
    web: &[Span],
    change: &[Span],
    blocks: &[Block],
) -> Result<Vec<Span>, WorkErr>
    requires web { AllInside text.now web.now }
    requires change { AllInside text.now change.now }
    requires in_order { All (IsInOrder (length change.now)) blocks.now }
    ensures ok { IfOk result (λ merged.
        with_changes (changes_at (lines_at text.now change.now) blocks.now) (lines_at text.now web.now)
        ≡ Ok (lines_at text.now merged.items)) }
    ensures inside { IfOk result (λ merged. AllInside text.now merged.items) }
    ensures fault { IfFault result (λ fault.
        with_changes (changes_at (lines_at text.now change.now) blocks.now) (lines_at text.now web.now)
        ≡ Err fault) }
{
    let mut merged = Vec::with_capacity(alloc, web.len() + change.len())?;
    let mut next = 0;
    for block in blocks {
        let first = first_replaced(text, web, next, change, block)?;
        merged.extend_from_slice(&web[next..first])?;
        merged.extend_from_slice(&change[block.new_mark + 1..block.end_mark])?;
        next = first + (block.new_mark - block.first_old);
    }
    merged.extend_from_slice(&web[next..])?;
    Ok(merged)
}

// The index of the first line that the block replaces, among the web's lines from this index on.
fn first_replaced(
    text: &[u8],
    web: &[Span],
    from: usize,
    change: &[Span],
    block: &Block,
) -> Result<usize, WorkErr>
    requires web { AllInside text.now web.now }
    requires change { AllInside text.now change.now }
    requires in_order { IsInOrder (length change.now) block.now }
    requires within { from ≤ length web.now }
    ensures ok { IfOk result (λ first.
        let lines = lines_at text.now web.now in
        let change = change_at (lines_at text.now change.now) block.now in
        (further : List Line → Result (List Line) Fault)
        → with_change change further (drop from lines)
        ≡ followed_by (slice_range lines from first)
        (followed_by change.new
        (further (drop (first + (block.now.new_mark - block.now.first_old)) lines)))) }
    ensures from { IfOk result (λ first. from ≤ first) }
    ensures within { IfOk result
        (λ first. first + (block.now.new_mark - block.now.first_old) ≤ length web.now) }
    ensures fault { IfFault result (λ fault.
        (further : List Line → Result (List Line) Fault)
        → with_change (change_at (lines_at text.now change.now) block.now) further
        (drop from (lines_at text.now web.now))
        ≡ Err fault) }
{
    let first_old = line_bytes(text, &change[block.first_old]);
    let first = first_equal(text, web, from, first_old);
    if first == web.len() {
        return Err(Fault::at(CHANGE_NOT_FOUND, block.place).into());
    }
    compare_others(
        text,
        &web[first + 1..],
        &change[block.first_old + 1..block.new_mark],
    )?;
    Ok(first)
}

// The index of the first line of these bytes from this index on, or the number of lines.
fn first_equal(text: &[u8], spans: &[Span], from: usize, bytes: &[u8]) -> usize
    requires inside { AllInside text.now spans.now }
    requires from { from ≤ length spans.now }
    ensures value { result
        ≡ from + position_or_len (λ line. bytes_eq bytes.now line.bytes) (drop from (lines_at text.now spans.now)) }
    ensures within { result ≤ length spans.now }
{
    for index in from..spans.len() {
        if bytes == line_bytes(text, &spans[index]) {
            return index;
        }
    }
    spans.len()
}

// Compares old lines with the lines of the web at their places, and answers the fault of the first that differs or
// finds none.
fn compare_others(text: &[u8], web: &[Span], olds: &[Span]) -> Result<(), WorkErr>
    requires web { AllInside text.now web.now }
    requires olds { AllInside text.now olds.now }
    ensures ok { IfOk result (λ _.
        lines_after (lines_at text.now olds.now) (lines_at text.now web.now)
        ≡ Ok (drop (length olds.now) (lines_at text.now web.now))) }
    ensures within { IfOk result (λ _. length olds.now ≤ length web.now) }
    ensures fault { IfFault result
        (λ fault. lines_after (lines_at text.now olds.now) (lines_at text.now web.now) ≡ Err fault) }
{
    for (index, old) in olds.iter().enumerate() {
        if index == web.len() || line_bytes(text, old) != line_bytes(text, &web[index]) {
            return Err(Fault::at(CHANGE_LINES_DIFFER, old.place).into());
        }
    }
    Ok(())
}
