//! The tangle job: from a web and its change file to the Pascal text and the pool.
#![tactic(auto)]

mod copying;
mod emitting;
mod file_sink;
mod job;
mod output;
mod tangling;
mod writing;

pub use emitting::{EmitErr, expand_to};
pub use job::{Done, Job, TangleErr, TextCopy};
pub use tangling::tangle;
