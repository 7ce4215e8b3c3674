//! The names of a web: identifiers with their printed and compared forms, and the names of sections.
#![tactic(auto)]

mod classes;
mod forms;
mod name_errors;
mod names;
mod sections;

pub use classes::Class;
pub use forms::printed_letter;
pub use name_errors::NameErr;
pub use names::Names;
pub use sections::Sections;
