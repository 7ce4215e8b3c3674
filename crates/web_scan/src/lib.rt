//! The scan of a web: its names, texts and strings, or its first fault.
#![tactic(auto)]

mod definitions;
mod limits;
mod numeric;
mod parts;
mod pieces;
mod refusals;
mod scanner;
mod scanning;
mod sections;
mod strings;
mod texts;
mod web;

pub use limits::{SECTION_LIMIT, TOKEN_LIMIT};
pub use pieces::Piece;
pub use scanning::scan;
pub use web::Web;
