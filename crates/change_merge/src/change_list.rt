//! Change files.
ghost use Rattle.std.specs.Prelude.{◌≡◌, [], IfOk, Ok, Err};
ghost use Rattle.wb_base.specs.WorkResult.{IfFault};
ghost use Rattle.change_merge.specs.Changes.{changes_of};
ghost use Rattle.change_merge.specs.inner.Spans.{lines_at, changes_at, IsChangeFile};

use crate::blocks::{Block, blocks_in};
use crate::spans::{Span, spans_of};
use std::alloc::Global;
use std::marker::Model;
use wb_base::{FileTag, WorkErr};

/// The blocks of a change file, each with the place of its `@x`, its old lines and its new lines. To contracts it is
/// the list of these blocks. It keeps one copy of a change file with
/// blocks, and nothing of one without.
#[derive(Drop)]
pub struct Changes {
    pub(crate) text: Vec<u8>,
    pub(crate) spans: Vec<Span>,
    pub(crate) blocks: Vec<Block>,
}

impl Model for Changes {
    ghost use Rattle.std.specs.Prelude.{List};
    ghost use Rattle.change_merge.specs.Changes.{Change};

    ghost Value = { List Change };

    ghost use Rattle.change_merge.specs.inner.Spans.{lines_at, changes_at, IsChangeFile};

    ghost view = { λ file. changes_at (lines_at file.text.items file.spans.items) file.blocks.items };

    ghost invariant = { λ file. IsChangeFile file.text.items file.spans.items file.blocks.items };
}

impl Changes {
    // No blocks.
    fn none(alloc: Global) -> Changes
        ensures { result ≡ [] }
    {
        Changes {
            text: Vec::new(alloc),
            spans: Vec::new(alloc),
            blocks: Vec::new(alloc),
        }
    }
}

/// The blocks of a change file. A mark is a line that begins with `@x`, `@y` or `@z`, the letter in either case; the
/// rest of it is ignored. A block is `@x`, old lines, `@y`, new lines, `@z`. Empty lines directly after the `@x` are
/// skipped, and lines outside blocks are ignored.
///
/// Faults: those of `lines`; then the first in reading order of 2, a stray `@y` or `@z`, at its line; 3, no `@y` after
/// the old lines; 5, no old lines; 4, no `@z` after the new lines. Faults 3, 4 and 5 stand at the line of the `@x`.
///
/// The form is TANGLE's; the faults, and that an old part without lines is one, are this project's own.
pub fn parse_changes(alloc: Global, bytes: &[u8]) -> Result<Changes, WorkErr>
    ensures ok { IfOk result (λ changes. changes_of bytes.now ≡ Ok changes) }
    ensures fault { IfFault result (λ fault. changes_of bytes.now ≡ Err fault) }
{
    let spans = spans_of(alloc, FileTag::Change, bytes, 0)?;
    let blocks = blocks_in(alloc, bytes, &spans)?;
    if blocks.is_empty() {
        return Ok(Changes::none(alloc));
    }
    let text = Vec::from_slice(alloc, bytes)?;
    Ok(Changes {
        text,
        spans,
        blocks,
    })
}
