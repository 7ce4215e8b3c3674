//! The operators of Pascal.

/// A sign before a term or a constant.
#[derive(Clone, Copy, Debug, PartialEq, Eq)]
pub enum Sign {
    /// `+`
    Plus,
    /// `-`
    Minus,
}

/// An operator between factors.
#[derive(Clone, Copy, Debug, PartialEq, Eq)]
pub enum Multiplying {
    /// `*`
    Times,
    /// `div`
    Div,
    /// `mod`
    Mod,
    /// `and`
    And,
}

/// An operator between terms.
#[derive(Clone, Copy, Debug, PartialEq, Eq)]
pub enum Adding {
    /// `+`
    Plus,
    /// `-`
    Minus,
    /// `or`
    Or,
}

/// An operator between sums.
#[derive(Clone, Copy, Debug, PartialEq, Eq)]
pub enum Relation {
    /// `=`
    Equal,
    /// `<>`
    NotEqual,
    /// `<`
    Less,
    /// `<=`
    LessOrEqual,
    /// `>`
    Greater,
    /// `>=`
    GreaterOrEqual,
}

/// The way of a `for`.
#[derive(Clone, Copy, Debug, PartialEq, Eq)]
pub enum Way {
    /// `to`
    Up,
    /// `downto`
    Down,
}
