// Which page holds each object.
ghost use Rattle.std.specs.Prelude.{ℕ, ◌≡◌, ◌==◌, ◌+◌, ◌<◌, ◌≤◌, [], cond, length, slice_index_or, IsTrue, None, OnOk, Some};
ghost use Rattle.page_store.specs.Placed.{slot_under};
ghost use Rattle.page_store.specs.inner.SlotTables.{first_of};

use page_format::Places;
use pss_base::NoMemory;
use std::alloc::Global;
use std::marker::Model;

// How many cells there may be for each object in them. So they take memory as objects do, whatever serials these have.
const CELLS: u64 = 8;

// A store has room for fewer objects than there may be cells.
const MOST_CELLS: u64 = 67108864;

/// The slots of pages under the serials of the objects that they hold. Serials that stand close together have cells, which
/// are found without a hash; the others are in a map.
#[derive(Drop)]
pub struct SlotTable {
    // One for each serial from 0 on. What stands in a cell counts before the map.
    cells: Vec<Option<u32>>,
    // How many of them have a slot.
    filled: u64,
    others: Places,
}

impl Model for SlotTable {
    ghost use Rattle.std.specs.Prelude.{◌++◌};
    ghost use Rattle.page_store.specs.inner.SlotTables.{Slots, in_cells};

    ghost Value = { Slots };

    ghost view = { λ t. record { entries = in_cells 0 t.cells.items ++ t.others.entries } };
}

// Takes what stands in the cell of a serial.
fn take_cell(cells: &mut Vec<Option<u32>>, serial: u64) -> Option<u32>
    ensures found { result ≡ slice_index_or cells.old.items serial None }
    ensures taken { (q : ℕ) → slice_index_or cells.new.items q None ≡ cond (serial == q) None (slice_index_or cells.old.items q None) }
{
    if serial >= cells.len() as u64 {
        return None;
    }
    let slot = cells[serial as usize];
    cells[serial as usize] = None;
    slot
}

// Takes an object out of a map. Where it has none, it need not hash the serial.
fn take_other(others: &mut Places, serial: u64) -> Option<u32>
    ensures found { result ≡ slot_under serial others.old.entries }
    ensures taken { (q : ℕ) → slot_under q others.new.entries ≡ cond (serial == q) None (slot_under q others.old.entries) }
{
    if others.is_empty() {
        return None;
    }
    others.swap_remove(&serial)
}

// The first of two slots that is there.
fn first_of(cell: Option<u32>, other: Option<u32>) -> Option<u32>
    ensures { result ≡ first_of cell other }
{
    match cell {
        Some(slot) => Some(slot),
        None => other,
    }
}

// Puts a slot into the cell of a serial, and answers whether it had none.
#[inline(always)]
fn fill_cell(cells: &mut Vec<Option<u32>>, serial: u64, slot: u32) -> bool
    requires { serial < length cells.old.items }
    ensures { (q : ℕ) → slice_index_or cells.new.items q None ≡ cond (serial == q) (Some slot) (slice_index_or cells.old.items q None) }
{
    let was_empty = cells[serial as usize].is_none();
    cells[serial as usize] = Some(slot);
    was_empty
}

// Whether cells up to a serial are not too many for so many objects.
fn are_dense(objects: u64, last: u64) -> bool
    ensures { IsTrue result → last < 67108864 }
{
    last < MOST_CELLS && last / CELLS < objects
}

// Makes as many cells as there are to be.
fn make_cells(cells: &mut Vec<Option<u32>>, count: usize) -> Result<(), NoMemory>
    requires { length cells.old.items ≤ count }
    ensures { OnOk result ((q : ℕ) → slice_index_or cells.new.items q None ≡ slice_index_or cells.old.items q None) }
{
    cells.resize(count, None)?;
    Ok(())
}

impl SlotTable {
    /// What stands in a map.
    pub fn of(alloc: Global, others: Places) -> SlotTable
        ensures { result.entries ≡ others.entries }
    {
        SlotTable {
            cells: Vec::new(alloc),
            filled: 0,
            others,
        }
    }

    /// Whether there are certainly no objects: neither in cells nor in the map.
    pub fn has_none(&self) -> bool
        ensures { IsTrue result → self.now.entries ≡ [] }
    {
        self.cells.is_empty() && self.others.is_empty()
    }

    /// Takes an object away, and answers the slot of its page.
    pub fn take(&mut self, serial: u64) -> Option<u32>
        ensures found { result ≡ slot_under serial self.old.entries }
        ensures taken { (q : ℕ) → slot_under q self.new.entries ≡ cond (serial == q) None (slot_under q self.old.entries) }
    {
        let cell = take_cell(&mut self.cells, serial);
        let other = take_other(&mut self.others, serial);
        self.filled = self.filled.saturating_sub(cell.is_some() as u64);
        first_of(cell, other)
    }

    /// Puts an object into the page of a slot.
    #[inline(always)]
    pub fn put(&mut self, serial: u64, slot: u32) -> Result<(), NoMemory>
        ensures { OnOk result ((q : ℕ) → slot_under q self.new.entries ≡ cond (serial == q) (Some slot) (slot_under q self.old.entries)) }
    {
        if serial < self.cells.len() as u64 {
            let is_new = fill_cell(&mut self.cells, serial, slot);
            self.filled = self.filled.saturating_add(is_new as u64);
            return Ok(());
        }
        self.others.insert(serial, slot)?;
        Ok(())
    }

    /// Makes room for so many objects that come, the last of which has this serial: cells up to it where they are dense enough,
    /// or else room in the map.
    pub fn reserve(&mut self, count: usize, last: u64) -> Result<(), NoMemory>
        ensures { OnOk result ((q : ℕ) → slot_under q self.new.entries ≡ slot_under q self.old.entries) }
    {
        if last < self.cells.len() as u64 {
            return Ok(());
        }
        if are_dense(self.filled.saturating_add(count as u64), last) {
            make_cells(&mut self.cells, last as usize + 1)?;
            return Ok(());
        }
        self.others.reserve(count)?;
        Ok(())
    }
}
