//! The objects of a store by their serials, and the families of storage homes that they belong to.
#![tactic(auto)]

mod families;
mod laws;
mod row;
mod table;

pub use families::Families;
pub use laws::{keys_stay_unique, lists_change, objects_change, totals_change};
