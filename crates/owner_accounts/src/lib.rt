//! What owners have to do with the committed objects: their steps, and their commits.
//!
//! The objects, the owners with their locks and changes, how these are called, the next serial and the history stand
//! together here, and each call moves them as the machine does.
#![tactic(auto)]

mod accounts;
mod coming;
mod commits;
mod leaving;
mod steps;
mod telling;

pub use accounts::Accounts;
pub use commits::Commit;
