//! The committed objects of a store by their serials, with the holders of their keys and the extents of
//! their storage homes.
//!
//! A commit first reserves what it needs, and then makes its changes without memory. Records are kept as the
//! octets that they are stored in, and no record is read when changes are made: they tell the keys.
#![tactic(auto)]

mod applying;
mod change;
mod chunk;
mod counts;
mod extents;
mod homes;
pub mod indexes;
mod keys;
mod listing;
mod loading;
mod marks;
mod parts;
mod replacing;
mod reserving;
mod rows;

pub use change::{Change, Changes, KeyValues};
pub use homes::Homes;
pub use keys::{keys_of_octets, keys_of_record};
