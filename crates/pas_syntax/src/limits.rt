//! How deep a text may nest. This project's own.

/// The most forms that may be open at once, and the most operators on one way down through an expression.
pub const NESTING_LIMIT: usize = 250;
