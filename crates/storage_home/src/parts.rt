// What is kept of the objects of a store.
use crate::extents::Extent;
use crate::indexes::KeyIndexes;
use crate::rows::Rows;
use pss_catalog::Families;
use std::alloc::Global;

/// Objects by serial, their sum and their number, the serials of each home and how many they are, and the holders of keys.
#[derive(Drop)]
pub struct Parts {
    pub alloc: Global,
    pub families: Families,
    pub rows: Rows,
    /// The sum over the objects of 16 and the length of the record.
    pub total: u64,
    /// The number of all objects.
    pub objects: u64,
    /// For each home, from number 1.
    pub extents: Vec<Extent>,
    /// The number of each home's own objects, from number 1.
    pub counts: Vec<u64>,
    pub keys: KeyIndexes,
}
