// The root of a store.
use crate::slots::Slots;
use pss_base::Bytes;

/// The current root of a store.
#[derive(Drop)]
pub struct Root {
    /// The root area that it stands in, 0 or 1.
    pub area: u8,
    /// How many roots were written before it, up to a whole turn of a u64.
    pub epoch: u64,
    /// The least serial that was never given, at least 1.
    pub next: u64,
    /// The shape of the store's types, at most 65,536 octets.
    pub shape: Bytes,
    /// The slots of its pages, at most 8,058, each below 16,384 and named once.
    pub slots: Slots,
}
