//! Sessions with their entries and the copies of objects that these stand on, as the catalog machine has them.
#![tactic(auto)]

mod attended;
mod laws;
mod parts;
mod settling;

pub use attended::Attended;
pub use laws::{homes_agree, sessions_are_owned};
