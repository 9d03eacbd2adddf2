// What an operation comes to.
use crate::states::Slot;
use pss_base::Bytes;
use pss_machine::{Answer, Needs};
use type_layout::KeyNo;

/// The keys that an object had, and those that it has.
#[derive(Drop)]
pub struct Pairs {
    pub had: Vec<(KeyNo, Bytes)>,
    pub has: Vec<(KeyNo, Bytes)>,
}

/// What an operation makes of one object: a new state, or none, with the keys that the object had and those that it has.
#[derive(Drop)]
pub struct NewState {
    pub(crate) serial: u64,
    pub(crate) slot: Slot,
    pub(crate) pairs: Pairs,
}

/// What an operation comes to on what an owner sees.
#[derive(Drop)]
pub struct Step {
    /// What the owner has to have locked before it takes the step.
    pub needs: Needs,
    /// What is answered where nobody holds the needs up.
    pub answer: Answer,
    /// What is put, where something changes.
    pub put: Option<NewState>,
}
