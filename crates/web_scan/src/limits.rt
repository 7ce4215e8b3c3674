//! The limits of a web.

/// The most tokens of the texts of macros and sections together. This project's own.
pub const TOKEN_LIMIT: usize = 1_000_000;

/// The most sections. This project's own.
pub const SECTION_LIMIT: usize = 65_535;
