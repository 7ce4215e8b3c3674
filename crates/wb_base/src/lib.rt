//! Byte texts, lists of words, places in files, faults and the console lines that report them, and what all crates of a
//! web share: the options and the tokens.
#![tactic(auto)]

mod byte_text;
mod fault_texts;
pub mod faults;
mod memory;
mod options;
mod places;
mod tokens;
mod word_list;

pub use byte_text::Text;
pub use faults::{FILE_LIMIT, Fault, WorkErr};
pub use memory::OutOfMemory;
pub use options::{Case, Options};
pub use places::{FileTag, Place};
pub use tokens::{Joined, Tok};
pub use word_list::Words;
