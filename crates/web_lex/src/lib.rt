//! The words of a web: control codes, the tokens of Pascal text, and the names of sections.
#![tactic(auto)]

mod codes;
mod cursor;
mod gaps;
mod numbers;
mod quoting;
mod reader;
mod section_names;
mod skipping;
mod tokens;

pub use codes::{Code, control_code};
pub use reader::Reader;
pub use section_names::SectionName;
pub use tokens::Lexed;
