//! Ranges of the stored tokens.

/// The Pascal text of a section, as a range of the stored tokens of its web.
#[derive(Clone, Copy, Debug, PartialEq, Eq)]
pub struct Piece {
    /// The number of the section, from 1.
    pub number: u32,
    /// How many tokens are stored before the text.
    pub first: u32,
    /// How many tokens the text has.
    pub count: u32,
}

// The text of a macro, as a range of the stored tokens.
#[derive(Clone, Copy)]
pub(crate) struct Span {
    pub(crate) first: u32,
    pub(crate) count: u32,
}
