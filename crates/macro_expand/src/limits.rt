//! The limits of an expansion.

/// The most levels that are open at once: the unnamed section is one, and each replacement opens one. This project's
/// own.
pub const LEVEL_LIMIT: usize = 200;

/// The most heads that are removed from the list of what is still to be expanded. This project's own.
pub const STEP_LIMIT: u32 = 16_777_216;
