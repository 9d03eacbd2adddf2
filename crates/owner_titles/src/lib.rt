//! How owners are called, and the history of their commits.
//!
//! A transaction is found by its name and an owner by its number, each by hash. The history keeps what
//! is told of the last commits, takes one more without memory, and spells their texts when they are asked for.
#![tactic(auto)]

mod called;
mod history;
mod table;
mod text;
mod titles;
mod told;

pub use called::Called;
pub use history::History;
pub use titles::Titles;
pub use told::{Told, told_of};
