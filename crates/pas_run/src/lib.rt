//! Runs Pascal programs.
#![tactic(auto)]

mod answers;
mod arguments;
mod arithmetic;
mod calls;
mod cells;
mod copies;
mod ends;
mod files;
mod laying;
mod layouts;
mod lines;
mod loops;
mod machine;
mod over_ports;
mod places;
mod quoted;
mod refusals;
mod runs;
mod selectors;
mod spots;
mod stack;
mod start;
mod statements;
mod transfers;
mod values;

pub use answers::{End, RunErr};
pub use files::{Ahead, FileState, RunFile, Usage};
pub use over_ports::run;
pub use refusals::Refused;
