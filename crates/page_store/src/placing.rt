// New pages get their slots, and objects their places.
ghost use Rattle.std.specs.Prelude.{ℕ, ◌≡◌, ◌-◌, ◌≤◌, cond, Some, length, map, IfOk, OnOk};
ghost use Rattle.page_format.specs.Objects.{entries_left};
ghost use Rattle.page_store.specs.Placed.{is_object, placed, slot_under};
ghost use Rattle.page_store.specs.Switch.{slots_of};
ghost use Rattle.page_store.specs.inner.Rows.{is_in_row};

use crate::slot_table::SlotTable;
use page_format::{Entries, NewPage};
use pss_base::{NoMemory, Put};
use std::alloc::Global;

/// Puts the objects of new pages where these are.
pub fn place_pages(places: &mut SlotTable, pages: &[NewPage]) -> Result<(), NoMemory>
    ensures { OnOk result ((q : ℕ) → slot_under q places.new.entries ≡ placed pages.now q (slot_under q places.old.entries)) }
{
    places.reserve(count_of(pages), last_serial(pages))?;
    for page in pages {
        match place_page(places, page.slot, &page.entries) {
            Ok(()) => {}
            Err(stop) => return Err(stop),
        }
    }
    Ok(())
}

// How many objects pages have.
fn count_of(pages: &[NewPage]) -> usize {
    let mut count = 0usize;
    for page in pages {
        count = count.saturating_add(page.entries.as_slice().len());
    }
    count
}

// The serial of the last object in the last page: the greatest one, since pages are packed by rising serial.
fn last_serial(pages: &[NewPage]) -> u64 {
    match pages.last() {
        Some(page) => serial_of(page.entries.as_slice().last()),
        None => 0,
    }
}

// The serial of an object, where there is one.
fn serial_of(put: Option<&Put>) -> u64 {
    match put {
        Some(put) => put.serial,
        None => 0,
    }
}

// Puts objects into the page of a slot.
fn place_entries(places: &mut SlotTable, slot: u32, puts: &[Put]) -> Result<(), NoMemory>
    ensures { OnOk result ((q : ℕ) → slot_under q places.new.entries ≡ cond (is_object q (entries_left puts.now)) (Some slot) (slot_under q places.old.entries)) }
{
    for put in puts {
        places.put(put.serial, slot)?;
    }
    Ok(())
}

// Puts the objects with serials from a first one up to another one into the page of a slot.
fn place_row(places: &mut SlotTable, slot: u32, first: u64, end: u64) -> Result<(), NoMemory>
    ensures { OnOk result ((q : ℕ) → slot_under q places.new.entries ≡ cond (is_in_row first (end - first) q) (Some slot) (slot_under q places.old.entries)) }
{
    for serial in first..end {
        places.put(serial, slot)?;
    }
    Ok(())
}

// Puts the objects of a page where it is. Serials in a row are not looked up.
fn place_page(places: &mut SlotTable, slot: u32, entries: &Entries) -> Result<(), NoMemory>
    ensures { OnOk result ((q : ℕ) → slot_under q places.new.entries ≡ cond (is_object q entries.now) (Some slot) (slot_under q places.old.entries)) }
{
    let puts = entries.as_slice();
    let Some(first) = entries.row() else {
        return place_entries(places, slot, puts);
    };
    let Some(end) = first.checked_add(puts.len() as u64) else {
        return place_entries(places, slot, puts);
    };
    place_row(places, slot, first, end)
}

/// Gives pages their slots.
pub fn new_pages<'a>(
    alloc: Global,
    pages: Vec<Entries<'a>>,
    slots: &[u32],
) -> Result<Vec<NewPage<'a>>, NoMemory>
    requires same { length pages.items ≡ length slots.now }
    requires few { length slots.now ≤ 16384 }
    ensures slots { IfOk result (λ new. slots_of new.items ≡ slots.now) }
    ensures pages { IfOk result (λ new. map (λ page. page.entries) new.items ≡ pages.entry.items) }
{
    let mut new = Vec::new(alloc);
    let mut k = 0;
    for entries in pages {
        let slot = slots[k];
        k += 1;
        new.push(NewPage { slot, entries })?;
    }
    Ok(new)
}
