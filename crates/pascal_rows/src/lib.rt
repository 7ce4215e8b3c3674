//! The tests of the libraries of Pascal: worked rows beside what the calls answer, and that calls succeed with ample
//! memory. They stand in a crate above all of these, since a crate with tests is proved twice.
#![tactic(auto)]

#[cfg(test)]
mod fields;
#[cfg(test)]
mod pascal_grammar;
#[cfg(test)]
mod pascal_runs;
#[cfg(test)]
mod pascal_tokens;
#[cfg(test)]
mod pascal_types;
#[cfg(test)]
mod run_files;
