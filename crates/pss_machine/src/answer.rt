// Answers to operations.

use pss_base::{OwnerNo, Pid, Pids};
use type_layout::{KeyNo, Value};

/// What an operation answers.
#[derive(Drop)]
pub enum Answer {
    /// The member has its value; the object is removed.
    Done,
    /// The object that was made, or found.
    Found(Pid),
    Truth(bool),
    Val(Value),
    Count(u64),
    /// The number of objects, and the first 256 by serial.
    List(u64, Pids),
    NotFound,
    /// An object that was named or referred to is not there.
    Gone(Pid),
    /// The member refers to nothing.
    Nil,
    /// Another object holds this key with the same bytes.
    Duplicate(KeyNo),
    /// The record would have more than 8,000 octets.
    TooLarge,
    /// What the operation needs clashes with a lock of this owner, the least such.
    Busy(OwnerNo),
}
