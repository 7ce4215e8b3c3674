//! The lines of a text, change files, and the merge of a web with a change file.
#![tactic(auto)]

mod blocks;
mod change_list;
mod cutting;
mod line_list;
mod marks;
mod merging;
mod spans;

pub use change_list::{Changes, parse_changes};
pub use cutting::lines;
pub use line_list::Lines;
pub use merging::merge;
