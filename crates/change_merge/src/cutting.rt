//! Cutting a text into its lines.
ghost use Rattle.std.specs.Prelude.{◌≡◌, IfOk, Ok, Err};
ghost use Rattle.wb_base.specs.WorkResult.{IfFault};
ghost use Rattle.change_merge.specs.Lines.{lines_of};

use crate::Lines;
use crate::spans::spans_of;
use std::alloc::Global;
use wb_base::{FileTag, WorkErr};

/// The lines of a text, cut at each byte 10 and numbered from 1. What follows the last byte 10 is a line if it is not
/// empty. Spaces, tabs and carriage returns at a line's end are removed.
///
/// Faults: 28, of its limit 1, at line 0 where the text is longer than 16,777,216 bytes; else 1 at the first line that
/// is then longer than 3000 bytes.
///
/// That a text is cut at byte 10 is the WEB profile's; white space, limits and faults are this project's own.
pub fn lines(alloc: Global, tag: FileTag, bytes: &[u8]) -> Result<Lines, WorkErr>
    ensures ok { IfOk result (λ lines. lines_of tag bytes.now ≡ Ok lines) }
    ensures fault { IfFault result (λ fault. lines_of tag bytes.now ≡ Err fault) }
{
    let spans = spans_of(alloc, tag, bytes, 0)?;
    let text = Vec::from_slice(alloc, bytes)?;
    Ok(Lines::new(text, spans))
}
