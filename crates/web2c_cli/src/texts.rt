//! Texts of bytes.
ghost use Rattle.std.specs.Prelude.{◌≡◌, IfOk};

use std::alloc::Global;
use wb_base::{OutOfMemory, Text};

/// A text of these bytes.
pub fn copy_of(alloc: Global, bytes: &[u8]) -> Result<Text, OutOfMemory>
    ensures { IfOk result (λ text. text ≡ bytes.now) }
{
    let mut text = Text::new(alloc);
    text.push_all(bytes)?;
    Ok(text)
}
