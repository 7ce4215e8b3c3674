//! The expansion of a web's macros and sections, in fixed space.
#![tactic(auto)]

mod arguments;
mod frames;
mod items;
mod limits;
mod meanings;
mod refusals;
mod stack;
mod stream;

pub use items::Item;
pub use limits::{LEVEL_LIMIT, STEP_LIMIT};
pub use refusals::ExpandErr;
pub use stream::Stream;
