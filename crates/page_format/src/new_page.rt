// Pages that are to be written.
use crate::entries::Entries;

/// A page to be written: its slot and its entries.
#[derive(Drop)]
pub struct NewPage<'a> {
    pub slot: u32,
    pub entries: Entries<'a>,
}
