//! Tokens of Pascal.

use crate::Kind;

/// What a token says beside its kind.
#[derive(Clone, Copy)]
pub enum Payload<'t> {
    /// Nothing: a reserved word, a sign or the end.
    Nothing,
    /// The value of a number.
    Value(u32),
    /// A name as it is spelled, or what stands between the quotes of a string, with quotes in it doubled.
    Spelling(&'t [u8]),
}

/// A token, and the line that it stands in.
#[derive(Clone, Copy)]
pub struct Token<'t> {
    /// What it is.
    pub kind: Kind,
    /// What it says beside that.
    pub payload: Payload<'t>,
    /// Its line, from 1. The end of the text stands in the last line, or in line 1 where the text has no byte.
    pub line: u32,
}
