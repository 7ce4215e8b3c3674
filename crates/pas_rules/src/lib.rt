//! The rules on the scopes and types of Pascal, and the typed programs of texts that break none.
#![tactic(auto)]

mod limits;
mod program;

pub use limits::{CELL_LIMIT, GREATEST_LABEL, ROUTINE_CELL_LIMIT, ROUTINE_LIMIT};
pub use program::Typed;
