//! Why a store is refused, and what is spoken of it.
#![tactic(auto)]

mod lines;
mod refusals;

pub use lines::{NOT_EMPTY, print_refusal};
pub use refusals::{StoreRefusal, refusal};
