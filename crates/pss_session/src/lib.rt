//! Sessions: their names, and how they are associated with transactions.
//!
//! A session is found by its name and by its number, each by hash. The sessions stand in the order in which they were
//! opened; what is said of all sessions of a transaction walks them all, so whoever opens sessions limits how many there
//! are at once.
//!
//! The entries of sessions are kept beside, as `Incarnations`: the calls that take them keep that these have exactly the
//! sessions that there are.
#![tactic(auto)]

mod coming;
mod detaching;
mod names;
mod register;
mod rows;
mod sessions;

pub use register::{Found, Standing};
pub use sessions::Sessions;
