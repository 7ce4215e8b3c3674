//! The tests of the libraries: worked rows beside what the calls answer, and that calls succeed with ample memory.
//! They stand in a crate above all others, since a crate with tests is proved twice.
#![tactic(auto)]

#[cfg(test)]
mod changes;
#[cfg(test)]
mod expansions;
#[cfg(test)]
mod faults_and_texts;
#[cfg(test)]
mod names;
#[cfg(test)]
mod outside;
#[cfg(test)]
mod pools;
#[cfg(test)]
mod scans;
#[cfg(test)]
mod tangled;
#[cfg(test)]
mod web_tokens;
#[cfg(test)]
mod webs;
