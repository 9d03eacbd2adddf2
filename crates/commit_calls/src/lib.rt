//! The commands by which owners commit: `commit` and `flush`, each as one call.
//!
//! Memory comes first: what a commit makes of the objects, what the history will tell, the list of the objects that it
//! changes, with one of those of which the owner has a value where it changed more, and the body that the store is to
//! hold. Then the store holds it. What follows takes no memory: the objects and the history move, entries leave the bodies
//! that are old, and the owner goes or begins anew.
#![tactic(auto)]

mod committing;
mod flushing;
mod objects;
mod ready;
mod settling;
mod storing;

pub use committing::commit;
pub use flushing::flush;
