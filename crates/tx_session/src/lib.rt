//! Owners with their views of the catalog: what each has changed and locked, and operations on what it sees.
#![tactic(auto)]

mod acting;
mod following;
mod owners;
mod parts;
mod table;

pub use owners::Owners;
