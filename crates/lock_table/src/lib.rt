//! Which owner has locked what: for each owner a finite set of resources with modes, as the machine has them.
//!
//! Each lock is a node of a pool, in the row of its resource and in the column of its owner. So who holds up a need is found
//! by a walk of the row of its resource, and a release takes locks from the owner's column alone.
//!
//! Rows and columns are found by hash, but for those beside the row that was found last, and the first column. Strangers choose the
//! bytes of keys, and so some of the resources: `key_index` has the same hash, and says what chosen keys cost.
#![tactic(auto)]

mod asks;
mod copies;
mod grants;
mod laws;
mod links;
mod locks;
mod places;
mod releases;
mod rings;
mod tables;
mod walks;

pub use laws::{blockers_are_least, owners_agree};
pub use links::Lock;
pub use locks::LockTable;
