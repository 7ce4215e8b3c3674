//! The spellings of a text's names and strings.
ghost use Rattle.std.specs.Prelude.{◌≡◌, ◌++◌, map, IfOk, OnOk};
ghost use Rattle.std.specs.Char.{to_ascii_lowercase};
ghost use Rattle.pas_tokens.specs.inner.CodeCuts.{token_by};
ghost use Rattle.pas_syntax.specs.inner.Places.{AreTokens, spelled_by, spelled_of};

use pas_tokens::{Cursor, Kind, Payload, Token};
use std::alloc::Global;
use wb_base::{OutOfMemory, Text};

// The spellings of all names, in small letters, and of all strings from a place on, one after the other.
pub(crate) fn spellings(alloc: Global, mut cursor: Cursor<'_>) -> Result<Text, OutOfMemory>
    requires { AreTokens cursor }
    ensures { IfOk result (λ all. all ≡ spelled_of cursor.entry) }
{
    let mut all = Text::new(alloc);
    'tokens: loop {
        let token = cursor.peek();
        match token.kind {
            Kind::EndOfText => return Ok(all),
            _ => spell(&mut all, token)?,
        }
        cursor.advance();
    }
}

// Adds the spelling of a token.
fn spell(all: &mut Text, token: Token<'_>) -> Result<(), OutOfMemory>
    ensures { OnOk result (all.new ≡ all.old ++ spelled_by (token_by token.entry).payload) }
{
    match (token.kind, token.payload) {
        (Kind::Name, Payload::Spelling(bytes)) => push_small(all, bytes),
        (_, Payload::Spelling(bytes)) => all.push_all(bytes),
        _ => Ok(()),
    }
}

// Adds bytes, in small letters.
fn push_small(all: &mut Text, bytes: &[u8]) -> Result<(), OutOfMemory>
    ensures { OnOk result (all.new ≡ all.old ++ map to_ascii_lowercase bytes.now) }
{
    for byte in bytes {
        all.push(byte.to_ascii_lowercase())?;
    }
    Ok(())
}
