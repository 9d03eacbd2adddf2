//! What commands are performed on: the objects with their owners and the sessions with their entries, beside each other.
//!
//! Contracts see what the machine keeps of all this, where a run of it has come there.
#![tactic(auto)]

mod entries;
mod finding;
mod leaving;
mod naming;
mod parts;

pub use entries::entry_number;
pub use parts::Parts;
