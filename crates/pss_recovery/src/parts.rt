// What is known in memory of a store.
use page_store::Pages;
use redo_journal::Journal;
use std::alloc::Global;

/// What is known in memory of a store.
#[derive(Drop)]
pub struct Parts {
    pub alloc: Global,
    /// The current root and its pages, and the changes noted for the next one.
    pub pages: Pages,
    /// Where the journal ends.
    pub journal: Journal,
    /// The epoch of the current root, which the journal's records have.
    pub epoch: u64,
    /// The least serial that no object was given.
    pub next: u64,
}
