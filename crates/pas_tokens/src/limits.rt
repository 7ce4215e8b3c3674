//! What tokens may be. This project's own, but that the greatest integer is a limit.

/// The most bytes of a name.
pub const NAME_LIMIT: usize = 255;

/// The greatest number.
pub const GREATEST_NUMBER: u32 = 2_147_483_647;
