//! The options of tangling.

/// How the letters of words are folded in the Pascal text. The options are those of Web2C's `tangle`.
#[derive(Clone, Copy, Debug, PartialEq, Eq)]
pub enum Case {
    /// All letters become upper case.
    Upper,
    /// All letters become lower case.
    Lower,
    /// Letters stay as they are.
    Mixed,
}

/// What the command line of `tangle` chooses. The options are those of Web2C's `tangle`, with the meaning that the
/// rules of names in docs/ give them.
#[derive(Clone, Copy, Debug, PartialEq, Eq)]
pub struct Options {
    /// How many bytes of a word tell it from others, 1 to 50.
    pub length: u8,
    /// Whether underlines stay in the Pascal text.
    pub underline: bool,
    /// How letters are folded.
    pub case: Case,
    /// Whether words are compared in upper case and without underlines, however they are printed.
    pub strict: bool,
}
