//! What the words of a data command ask of the catalog, or why they ask nothing.
//!
//! Homes, keys, factories and members are found by their names, and values are read by the types that these give them.
//! The first refusal that holds is the answer.
#![tactic(auto)]

mod asked;
mod asking;
mod making;
mod naming;
mod reading;

pub use asked::{AskFault, Asked, Named, Refusal};
pub use asking::Asking;
