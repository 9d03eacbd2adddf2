// Which pages of a root are packed anew.
ghost use Rattle.std.specs.Prelude.{ℕ, ◌≡◌, ◌==◌, ◌<◌, ◌||◌, ◌++◌, ◌∷◌, [], cond, not, if◌then◌else◌, false, None, length, slice_index, slice_index_or, IfOk, OnOk};
ghost use Rattle.std.specs.List.{filter};
ghost use Rattle.page_store.specs.Placed.{is_noted, slot_under};
ghost use Rattle.page_store.specs.Touched.{is_in, is_repacked, is_touched, under_serials};

use crate::slot_table::SlotTable;
use page_format::layout::SLOTS;
use page_format::{Slots, flags, mark};
use pss_base::{NoMemory, Put};
use std::alloc::Global;

/// The slots of a root: those whose pages are packed anew, and those that are kept, both in their order.
#[derive(Drop)]
pub struct Parted {
    pub repacked: Slots,
    pub kept: Slots,
}

/// Parts the slots of a root, and takes the objects away of which changes are noted. A page is packed anew where a change is
/// noted of an object in it, or where it is the one with little in use.
pub fn part_slots(
    alloc: Global,
    slots: &[u32],
    places: &mut SlotTable,
    noted: &[Put],
    small: Option<u32>,
) -> Result<Parted, NoMemory>
    requires { (k : ℕ) → k < length slots.now → slice_index slots.now k < 16384 }
    ensures repacked { IfOk result (λ parted. parted.repacked ≡ filter (is_repacked (under_serials places.old.entries) noted.now small) slots.now) }
    ensures kept { IfOk result (λ parted. parted.kept ≡ filter (λ s. not (is_repacked (under_serials places.old.entries) noted.now small s)) slots.now) }
    ensures places { OnOk result ((q : ℕ) → slot_under q places.new.entries ≡ cond (is_noted q noted.now) None (slot_under q places.old.entries)) }
{
    let mut marks = flags(alloc, SLOTS as usize)?;
    mark_repacked(&mut marks, places, noted, small);
    part_marked(alloc, slots, &marks)
}

// Sets the flag of each page that is packed anew, and takes the objects away of which changes are noted.
fn mark_repacked(marks: &mut [bool], places: &mut SlotTable, noted: &[Put], small: Option<u32>)
    requires { length marks.old ≡ 16384 }
    ensures marked { (s : ℕ) → s < 16384 → slice_index_or marks.new s false ≡ (is_repacked (under_serials places.old.entries) noted.now small s || slice_index_or marks.old s false) }
    ensures len { length marks.new ≡ 16384 }
    ensures places { (q : ℕ) → slot_under q places.new.entries ≡ cond (is_noted q noted.now) None (slot_under q places.old.entries) }
{
    mark_small(marks, small);
    mark_touched(marks, places, noted);
}

// Sets the flag of the page with little in use, where there is one.
fn mark_small(marks: &mut [bool], small: Option<u32>)
    requires { length marks.old ≡ 16384 }
    ensures { (s : ℕ) → s < 16384 → slice_index_or marks.new s false ≡ (is_in s small || slice_index_or marks.old s false) }
{
    if let Some(slot) = small {
        mark(marks, slot);
    }
}

// Sets the flag of each page that holds an object of which a change is noted, and takes these objects away. A new store
// has none to look for.
fn mark_touched(marks: &mut [bool], places: &mut SlotTable, noted: &[Put])
    requires { length marks.old ≡ 16384 }
    ensures marked { (s : ℕ) → s < 16384 → slice_index_or marks.new s false ≡ (is_touched (under_serials places.old.entries) noted.now s || slice_index_or marks.old s false) }
    ensures places { (q : ℕ) → slot_under q places.new.entries ≡ cond (is_noted q noted.now) None (slot_under q places.old.entries) }
{
    if !places.has_none() {
        mark_places(marks, places, noted);
    }
}

// The same, looking for each object.
fn mark_places(marks: &mut [bool], places: &mut SlotTable, noted: &[Put])
    requires { length marks.old ≡ 16384 }
    ensures marked { (s : ℕ) → s < 16384 → slice_index_or marks.new s false ≡ (is_touched (under_serials places.old.entries) noted.now s || slice_index_or marks.old s false) }
    ensures places { (q : ℕ) → slot_under q places.new.entries ≡ cond (is_noted q noted.now) None (slot_under q places.old.entries) }
{
    for put in noted {
        mark_place(marks, places, put.serial);
    }
}

// Sets the flag of the page that holds an object, where there is one, and takes the object away.
fn mark_place(marks: &mut [bool], places: &mut SlotTable, serial: u64)
    requires { length marks.old ≡ 16384 }
    ensures marked { (s : ℕ) → s < 16384 → slice_index_or marks.new s false ≡ (is_in s (slot_under serial places.old.entries) || slice_index_or marks.old s false) }
    ensures places { (q : ℕ) → slot_under q places.new.entries ≡ cond (serial == q) None (slot_under q places.old.entries) }
{
    mark_small(marks, places.take(serial));
}

// Parts slots by their flags.
fn part_marked(alloc: Global, slots: &[u32], marks: &[bool]) -> Result<Parted, NoMemory>
    requires len { length marks.now ≡ 16384 }
    requires below { (k : ℕ) → k < length slots.now → slice_index slots.now k < 16384 }
    ensures repacked { IfOk result (λ parted. parted.repacked ≡ filter (λ s. slice_index_or marks.now s false) slots.now) }
    ensures kept { IfOk result (λ parted. parted.kept ≡ filter (λ s. not (slice_index_or marks.now s false)) slots.now) }
{
    let kept = Slots::with_room(alloc, slots.len())?;
    let mut parted = Parted {
        repacked: Slots::new(alloc),
        kept,
    };
    for slot in slots {
        let marked = marks[*slot as usize];
        add_parted(&mut parted, *slot, marked)?;
    }
    Ok(parted)
}

// Adds a slot to one of the two.
fn add_parted(parted: &mut Parted, slot: u32, marked: bool) -> Result<(), NoMemory>
    ensures repacked { OnOk result (parted.new.repacked ≡ parted.old.repacked ++ (if marked then slot ∷ [] else [])) }
    ensures kept { OnOk result (parted.new.kept ≡ parted.old.kept ++ (if not marked then slot ∷ [] else [])) }
{
    if marked {
        parted.repacked.push(slot)
    } else {
        parted.kept.push(slot)
    }
}
