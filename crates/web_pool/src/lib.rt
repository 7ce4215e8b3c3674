//! The strings of a web that stand in double quotes: the pool that they make, its text, and the listing of a pool.
#![tactic(auto)]

mod entries;
mod gathering;
mod listing;
mod pool;
mod pool_lines;
mod refusals;
mod writing;

pub use listing::pooltype;
pub use pool::Pool;
pub use refusals::{PoolErr, PoolTypeErr};
pub use writing::write_pool;
