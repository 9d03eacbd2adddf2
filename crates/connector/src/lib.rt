//! Every command of a script as one call.
//!
//! A connector keeps the objects of one schema with their owners, the sessions with their entries, and the store that holds
//! what was committed. A command is performed by the call that is named for it, in `session_calls`, `data_calls` or
//! `commit_calls`; a checkpoint by the store's own. A `get` that an entry's copy answers is also performed by its words, without a
//! command made of them.
#![tactic(auto)]

mod connector;
mod laws;
mod performing;
mod telling;

pub use connector::Connector;
pub use laws::gets_store_nothing;
