// What a journal holds.
use crate::bodies::Bodies;

/// What a journal holds.
#[derive(Drop)]
pub struct Replay {
    /// The bodies of its records, in order.
    pub bodies: Bodies,
    /// The place in the file of the gate that ends it.
    pub end: u32,
}
