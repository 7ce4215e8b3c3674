//! What an identifier stands for.

/// The class of an identifier, as TANGLE has it.
#[derive(Clone, Copy, Debug, PartialEq, Eq)]
pub enum Class {
    /// An identifier of the Pascal text.
    Ordinary,
    /// A macro that stands for a number.
    Numeric,
    /// A macro that stands for a text.
    Simple,
    /// A macro that stands for a text with a parameter.
    Parametric,
}
