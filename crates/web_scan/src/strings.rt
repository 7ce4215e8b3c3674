//! Strings and verbatim texts without their doubled bytes.
ghost use Rattle.std.specs.Prelude.{◌≡◌, ◌<◌, ◌++◌, OnOk, IfOk, codes, drop, length};
ghost use Rattle.web_scan.specs.Texts.{undoubled, quoted_text, string_value};
ghost use Rattle.web_scan.specs.inner.Doubled.{begins_doubled};

use std::alloc::Global;
use wb_base::{OutOfMemory, Text};

// A string in single quotes as it is printed: with its quotes, inner ones still doubled, and at signs once.
pub(crate) fn quoted_text(alloc: Global, bytes: &[u8]) -> Result<Text, OutOfMemory>
    ensures { IfOk result (λ text. text ≡ quoted_text bytes.now) }
{
    let mut text = Text::new(alloc);
    text.push(b'\'')?;
    push_undoubled(&mut text, b"@", bytes)?;
    text.push(b'\'')?;
    Ok(text)
}

// A verbatim text as it is printed: with at signs once.
pub(crate) fn verbatim_text(alloc: Global, bytes: &[u8]) -> Result<Text, OutOfMemory>
    ensures { IfOk result (λ text. text ≡ undoubled (codes "@") bytes.now) }
{
    let mut text = Text::new(alloc);
    push_undoubled(&mut text, b"@", bytes)?;
    Ok(text)
}

// The value of a string in double quotes: with quotes and at signs once.
pub(crate) fn string_value(alloc: Global, bytes: &[u8]) -> Result<Text, OutOfMemory>
    ensures { IfOk result (λ text. text ≡ string_value bytes.now) }
{
    let mut text = Text::new(alloc);
    push_undoubled(&mut text, b"@\"", bytes)?;
    Ok(text)
}

// Adds bytes, with one in place of each doubled one of these.
fn push_undoubled(text: &mut Text, doubled: &[u8], bytes: &[u8]) -> Result<(), OutOfMemory>
    ensures { OnOk result (text.new ≡ text.old ++ undoubled doubled.now bytes.now) }
{
    let mut index = 0;
    while index < bytes.len() {
        let byte = bytes[index];
        text.push(byte)?;
        index += if is_doubled_at(doubled, bytes, index) {
            2
        } else {
            1
        };
    }
    Ok(())
}

// Whether the byte at this index is one of these and is doubled.
fn is_doubled_at(doubled: &[u8], bytes: &[u8], index: usize) -> bool
    requires { index < length bytes.now }
    ensures { result ≡ begins_doubled doubled.now (drop index bytes.now) }
{
    match &bytes[index..] {
        [byte, next, ..] => byte == next && doubled.contains(byte),
        _ => false,
    }
}
