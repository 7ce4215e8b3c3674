//! Limits of programs. Their numbers are this project's own, but for that of labels (ISO 7185, 6.1.6).

/// A type, and all globals together, have at most so many cells.
pub const CELL_LIMIT: u32 = 4_194_304;

/// The parameters and variables of a routine have at most so many cells.
pub const ROUTINE_CELL_LIMIT: u32 = 4_096;

/// A program has at most so many routines.
pub const ROUTINE_LIMIT: u32 = 4_096;

/// The greatest label.
pub const GREATEST_LABEL: u32 = 9_999;
