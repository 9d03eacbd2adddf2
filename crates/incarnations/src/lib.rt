//! Entries of sessions, and the shared copies of objects that they stand on.
//!
//! A session calls an object by an entry: a number, the object's identifier, and a count of how often it was obtained. An
//! attached entry stands on a body, which is the object's record in one view; all entries on one body share its value,
//! and the body goes with the last of them.
//!
//! Each entry is a node of a pool of linked rings: its column is its session, its row the body that it stands on, or a
//! row of its session's own. In a column the attached entries stand first, so that what detaches them looks at no others.
//! Tables by hash find entries by session and number and by session and object, sessions by number, and bodies by object
//! and view. Each hashes by one multiplication, as `NumberHasher` of `table_hash` does.
#![tactic(auto)]

mod erasing;
mod incarnations;
mod loads;
mod loosening;
mod moves;
mod names;
mod obtaining;
mod opening;
mod standing;
mod stock;
mod sweeping;
mod tables;

pub use incarnations::{Incarnations, Shown};
pub use names::Slot;
