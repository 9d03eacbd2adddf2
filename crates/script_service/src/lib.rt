//! Serves the lines of a script by a connector: the command that a line says is performed, and its reply is spoken. What was
//! committed is in the store by then.
#![tactic(auto)]

mod daemon;
mod getting;
mod laws;
mod replying;
mod saying;
mod serving;

pub use daemon::Daemon;
pub use laws::{lines_are_run, runs_are_right, stored_is_between};
pub use replying::reply_to;
pub use serving::serve_script;
