// What is stored: the rings, and what is found by hash.

use crate::names::Slot;
use crate::tables::bodies::BodyTable;
use crate::tables::entries::EntryTable;
use crate::tables::objects::ObjectTable;
use crate::tables::sessions::SessionTable;
use link_pool::Pool;

/// The rings of entries, the tables by which they, their sessions and their bodies are found, and how many stand on a
/// body.
#[derive(Drop)]
pub struct Stock {
    pub pool: Pool<Slot>,
    pub sessions: SessionTable,
    pub entries: EntryTable,
    pub objects: ObjectTable,
    pub bodies: BodyTable,
    pub attached: u64,
}
