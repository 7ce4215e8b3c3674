//! The blocks of a change file, as indexes of its lines.
ghost use Rattle.std.specs.Prelude.{◌≡◌, ◌+◌, ◌<◌, ◌≤◌, [], ◌∷◌, All, length, drop};
ghost use Rattle.std.specs.Prelude.{IfOk, Ok, Err, Some};
ghost use Rattle.std.specs.List.{prefix_len, before_first};
ghost use Rattle.wb_base.specs.WorkResult.{IfFault};
ghost use Rattle.change_merge.specs.declared.marks.Mark.TheVariants.{Old};
ghost use Rattle.wb_base.specs.Steps.{followed_by};
ghost use Rattle.change_merge.specs.Changes.{part, parts_of, blocks_of, has_mark, is_empty};
ghost use Rattle.change_merge.specs.inner.Spans.{lines_at, mark_there, change_at, changes_at, AllInside, IsInOrder};

use crate::marks::{Mark, is_mark_at, mark_at, next_mark};
use crate::spans::{Span, line_bytes};
use std::alloc::Global;
use wb_base::faults::{EMPTY_CHANGE, NO_END_OF_CHANGE, NO_NEW_PART, STRAY_CHANGE_MARK};
use wb_base::{Fault, Place, WorkErr};

// A block: the place of its `@x`, and the indexes of its first old line, its `@y` and its `@z`.
#[derive(Clone, Copy)]
pub(crate) struct Block {
    pub(crate) place: Place,
    pub(crate) first_old: usize,
    pub(crate) new_mark: usize,
    pub(crate) end_mark: usize,
}

// The blocks of these lines of a change file.
pub(crate) fn blocks_in(alloc: Global, text: &[u8], spans: &[Span]) -> Result<Vec<Block>, WorkErr>
    requires { AllInside text.now spans.now }
    ensures ok { IfOk result
        (λ blocks. let lines = lines_at text.now spans.now in
        blocks_of (parts_of lines) ≡ Ok (changes_at lines blocks.items)) }
    ensures in_order { IfOk result (λ blocks. All (IsInOrder (length spans.now)) blocks.items) }
    ensures fault { IfFault result
        (λ fault. blocks_of (parts_of (lines_at text.now spans.now)) ≡ Err fault) }
{
    let mut blocks = Vec::new(alloc);
    let mut index = 0;
    while index < spans.len() {
        match mark_at(text, spans, index) {
            None => index += 1,
            Some(mark) => {
                let block = block_at(text, spans, index, mark)?;
                blocks.push(block)?;
                index = block.end_mark + 1;
            }
        }
    }
    Ok(blocks)
}

// The block that begins with this mark at this index.
fn block_at(text: &[u8], spans: &[Span], index: usize, mark: Mark) -> Result<Block, WorkErr>
    requires inside { AllInside text.now spans.now }
    requires within { index < length spans.now }
    requires mark { mark_there (lines_at text.now spans.now) index ≡ Some mark }
    ensures ok { IfOk result (λ block.
        let lines = lines_at text.now spans.now in
        blocks_of (parts_of (drop index lines))
        ≡ followed_by (change_at lines block ∷ []) (blocks_of (parts_of (drop (block.end_mark + 1) lines)))) }
    ensures in_order { IfOk result (λ block. IsInOrder (length spans.now) block) }
    ensures after { IfOk result (λ block. index < block.end_mark) }
    ensures fault { IfFault result
        (λ fault. blocks_of (parts_of (drop index (lines_at text.now spans.now))) ≡ Err fault) }
{
    let place = spans[index].place;
    match mark {
        Mark::Old => block_from(text, spans, place, index + 1),
        _ => Err(Fault::at(STRAY_CHANGE_MARK, place).into()),
    }
}

// The block whose `@x` is at this place, and whose old part begins at this index.
fn block_from(text: &[u8], spans: &[Span], place: Place, from: usize) -> Result<Block, WorkErr>
    requires inside { AllInside text.now spans.now }
    requires within { from ≤ length spans.now }
    ensures ok { IfOk result (λ block.
        let lines = lines_at text.now spans.now in
        let rest = drop from lines in
        blocks_of (part Old place (before_first has_mark rest) ∷ parts_of rest)
        ≡ followed_by (change_at lines block ∷ []) (blocks_of (parts_of (drop (block.end_mark + 1) lines)))) }
    ensures in_order { IfOk result (λ block. IsInOrder (length spans.now) block) }
    ensures after { IfOk result (λ block. from < block.end_mark) }
    ensures fault { IfFault result (λ fault.
        let rest = drop from (lines_at text.now spans.now) in
        blocks_of (part Old place (before_first has_mark rest) ∷ parts_of rest) ≡ Err fault) }
{
    let new_mark = next_mark(text, spans, from);
    if !is_mark_at(text, spans, new_mark, Mark::New) {
        return Err(Fault::at(NO_NEW_PART, place).into());
    }
    let first_old = from + empty_lines(text, &spans[from..new_mark]);
    if first_old == new_mark {
        return Err(Fault::at(EMPTY_CHANGE, place).into());
    }
    let end_mark = next_mark(text, spans, new_mark + 1);
    if !is_mark_at(text, spans, end_mark, Mark::End) {
        return Err(Fault::at(NO_END_OF_CHANGE, place).into());
    }
    Ok(Block {
        place,
        first_old,
        new_mark,
        end_mark,
    })
}

// How many of the first lines are empty.
fn empty_lines(text: &[u8], spans: &[Span]) -> usize
    requires { AllInside text.now spans.now }
    ensures value { result ≡ prefix_len is_empty (lines_at text.now spans.now) }
    ensures within { result ≤ length spans.now }
{
    for (index, span) in spans.iter().enumerate() {
        if !line_bytes(text, span).is_empty() {
            return index;
        }
    }
    spans.len()
}
