//! Typed programs of Pascal: the types that its type expressions make, and the tree in which each name is resolved.
#![tactic(auto)]

pub mod typed;
pub mod types;
