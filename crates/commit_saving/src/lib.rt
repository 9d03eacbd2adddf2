//! What commits change is stored: their changes become a body of the store's journal, and with them the next serial is stored.
//! Which next serial that is after each effect of the machine is told here, too.
#![tactic(auto)]

mod saving;

pub use saving::save;
