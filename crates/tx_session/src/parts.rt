// What is kept of all owners.
use crate::table::Table;
use lock_table::LockTable;
use owner_view::Owned;
use std::alloc::Global;

/// Owners by number, and what they have locked.
#[derive(Drop)]
pub struct Parts {
    pub alloc: Global,
    pub table: Table,
    pub locks: LockTable,
    /// The owner that ended last, where no other one has its memory yet.
    pub ended: Option<Owned>,
}
