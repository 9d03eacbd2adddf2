//! The station: what a service speaks and what it writes, on one clock, so that a contract can say what was on the disk
//! when a word was spoken.
#![tactic(auto)]

mod call;
mod gate;
mod image;
mod memory;
mod number;
mod real;
mod record;
mod station;

pub use call::Call;
pub use gate::set_gate;
pub use memory::MemStation;
pub use number::{read_number4, read_number8};
pub use real::RealStation;
pub use station::Station;
