//! Hashes for tables: of bytes that strangers choose, and of numbers that are given in turn.
#![tactic(auto)]

mod byte_hasher;
mod number_hasher;

pub use byte_hasher::ByteHasher;
pub use number_hasher::NumberHasher;
