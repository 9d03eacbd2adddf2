//! The journal of a store: bodies behind gates, so that a crash at any moment of an append leaves the bodies so far, or
//! these and the new one. Read it with `replay`, then append with `Journal`.
#![tactic(auto)]

mod bodies;
mod fault;
mod header;
mod journal;
mod laws;
mod layout;
mod reading;
mod records;
mod replayed;
mod window;

pub use bodies::Bodies;
pub use fault::ReplayFault;
pub use header::gate_after;
pub use journal::Journal;
pub use laws::a_journal_is_one_thing;
pub use layout::{CLOSED, JOURNAL_END, JOURNAL_START, OPEN};
pub use reading::replay;
pub use replayed::Replay;
