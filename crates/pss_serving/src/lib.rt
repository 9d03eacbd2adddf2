//! The service below its words: a schema's text is read and checked; a store of its shape is made, or mounted, and a script is
//! served over it.
#![tactic(auto)]

mod checking;
mod laws;
mod making;
mod reading;
mod refusal;
mod running;
mod schema_fault;
mod status;
mod telling;

pub use checking::tell_checked;
pub use laws::scripts_are_right;
pub use making::{init_store, refuse_file};
pub use running::{refuse_store, run_script};
pub use status::Status;
