//! The tokens of a Pascal text.
#![tactic(auto)]

mod cursor;
mod cutting;
mod fronts;
mod kinds;
mod limits;
mod spellings;
mod tokens;

pub use cursor::Cursor;
pub use kinds::Kind;
pub use limits::{GREATEST_NUMBER, NAME_LIMIT};
pub use tokens::{Payload, Token};
