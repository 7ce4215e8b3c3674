//! The errors that a run may commit. ISO 7185 (annex D) names them; their numbers are this project's own.

/// A value is used that is undefined.
pub const UNDEFINED_VALUE: u8 = 1;
/// A value is out of the range of what it is stored or passed to, or a byte that is read is no component of its file.
pub const OUT_OF_RANGE: u8 = 2;
/// An index is out of its range.
pub const INDEX_OUT_OF_RANGE: u8 = 3;
/// An integer is past maxint.
pub const PAST_MAXINT: u8 = 4;
/// A number is divided by zero.
pub const DIVISION_BY_ZERO: u8 = 5;
/// The right side of `mod` is below 1.
pub const MOD_BELOW_1: u8 = 6;
/// The argument of `chr` is no char's number.
pub const CHR_OUT_OF_RANGE: u8 = 7;
/// No constant of a `case` is the selector's value.
pub const NO_CASE_MATCHES: u8 = 8;
/// A width is below 1.
pub const WIDTH_BELOW_1: u8 = 9;
/// A file is not in the mode that is needed.
pub const WRONG_MODE: u8 = 10;
/// A file that is read is at its end.
pub const AT_END_OF_FILE: u8 = 11;
/// An undefined buffer is put.
pub const UNDEFINED_BUFFER: u8 = 12;
/// The result of a function is undefined.
pub const UNDEFINED_RESULT: u8 = 13;
/// The argument of `uexit` is not from 0 to 255.
pub const STATUS_OUT_OF_RANGE: u8 = 14;

/// So many calls may be active in a trial; one more is too deep. This project's own.
pub const CALL_LIMIT: u32 = 999;
