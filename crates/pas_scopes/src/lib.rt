//! Names, scopes, types, values and declarations of Pascal, and what is wrong with them.
#![tactic(auto)]

pub mod constants;
pub mod declarations;
pub mod expressions;
pub mod functions;
pub mod globals;
pub mod judged;
pub mod locals;
pub mod name_sets;
pub mod names;
pub mod new_names;
pub mod noting;
pub mod scopes;
pub mod simple_types;
pub mod stop;
mod type_forms;
pub mod variables;
