//! The tokens of Pascal text in a web, as they are stored.

/// A sign of two bytes.
#[derive(Clone, Copy, Debug, PartialEq, Eq)]
pub enum Joined {
    /// `..`
    Dots,
    /// `:=`
    Becomes,
    /// `<=`
    NotMore,
    /// `>=`
    NotLess,
    /// `<>`
    Differs,
    /// `==`
    Same,
}

/// A stored token of a macro's or a section's text. Numbers in it index what the web holds. The tokens are those of
/// TANGLE; their form is this project's own.
#[derive(Clone, Copy, Debug, PartialEq, Eq)]
pub enum Tok {
    /// A word of one letter: the letter, folded by the options.
    Letter(u8),
    /// A decimal digit.
    Digit(u8),
    /// A word of several letters, by its number among the names.
    Name(u32),
    /// A constant: octal, hexadecimal, or the value of a double-quoted string.
    Number(i64),
    /// A sign of one byte.
    Sign(u8),
    /// A sign of two bytes.
    Joined(Joined),
    /// A single-quoted string, by its number among the quoted texts.
    Quoted(u32),
    /// A verbatim text, by its number among the quoted texts.
    Verbatim(u32),
    /// The name of a section, by its number among the section names.
    Section(u32),
    /// The parameter of a parametric macro.
    Param,
    /// `@&`: what stands around it is joined.
    Join,
    /// `@\\`: a forced line.
    Line,
    /// `@{`: the begin of a metacomment.
    MetaOpen,
    /// `@}`: the end of a metacomment.
    MetaClose,
}
