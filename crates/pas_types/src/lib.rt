//! The scopes and types of Pascal.
#![tactic(auto)]

mod assignments;
mod blocks;
mod calls;
mod cases;
mod checking;
mod flow;
mod headings;
mod labels;
mod made;
mod program;
mod programs;
mod results;
mod routines;
mod statements;
mod transfers;

pub use pas_rules::{CELL_LIMIT, GREATEST_LABEL, ROUTINE_CELL_LIMIT, ROUTINE_LIMIT, Typed};
pub use program::check;
