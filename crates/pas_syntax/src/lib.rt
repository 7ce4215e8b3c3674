//! The grammar of Pascal: trees, and the texts that spell them.
#![tactic(auto)]

mod cases;
mod constants;
mod declarations;
mod depth;
mod expressions;
mod limits;
mod operator_kinds;
mod operators;
mod program;
mod programs;
mod reader;
mod regions;
mod routines;
mod spellings;
mod statements;
mod stop;
pub mod tree;
mod type_forms;

pub use limits::NESTING_LIMIT;
pub use operators::{Adding, Multiplying, Relation, Sign, Way};
pub use program::{Program, parse};
