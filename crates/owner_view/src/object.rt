// An object as an owner changed it.
use type_layout::{HomeNo, Record};

/// An object whose record is decoded, with the length of the octets that the record is stored in. A greater length than 2^64 - 1
/// is not told.
#[derive(Drop)]
pub struct Changed {
    pub home: HomeNo,
    pub record: Record,
    pub len: u64,
}
