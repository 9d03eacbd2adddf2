// Locks in rings, and the tables by which rings are found.

use crate::places::Places;
use crate::tables::NumberTable;
use link_pool::{Col, Pool};
use pss_base::OwnerNo;
use pss_machine::{Mode, Resource};
use std::alloc::Global;

/// An owner has locked a resource in a mode.
#[derive(Drop)]
pub struct Lock {
    pub owner: OwnerNo,
    pub resource: Resource,
    pub mode: Mode,
}

/// The locks, each in the row of its resource and in the column of its owner.
#[derive(Drop)]
pub struct Links {
    pub alloc: Global,
    pub pool: Pool<Lock>,
    pub places: Places,
    pub columns: NumberTable<OwnerNo, Col>,
    /// How many locks there are.
    pub held: u64,
}
