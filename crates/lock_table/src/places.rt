// Where the locks on each resource stand.
ghost use Rattle.std.specs.Prelude.{ℕ, ◌≡◌, ◌<◌, [], Some, None, IfNone, IfSome, OnOk};
ghost use Rattle.indexmap.specs.IndexMap.{spare};
ghost use Rattle.pss_machine.specs.Needs.{same_resource};
ghost use Rattle.pss_machine.specs.declared.lock.Resource.{Resource};
ghost use Rattle.lock_table.specs.inner.Tables.{Turns, entry_at, key_at};
ghost use Rattle.lock_table.specs.inner.Links.{IsAt};

use crate::tables::{self, Table};
use link_pool::Row;
use pss_base::NoMemory;
use pss_machine::Resource;
use std::alloc::Global;
use std::cell::Cell;

/// Where the locks on a resource stand, and how many they are.
#[derive(Clone, Copy, Drop)]
pub struct Place {
    pub row: Row,
    pub locks: usize,
}

/// A place, and where in the table it stands.
#[derive(Clone, Copy, Drop)]
pub struct FoundPlace {
    pub at: usize,
    pub place: Place,
}

/// The place of each resource that is locked, by hash.
#[derive(Drop)]
pub struct Places {
    pub table: Table<Resource, Place>,
    // Where in the table an object or a key was found last. There and beside it the next one is looked for first: what is locked in
    // one order is linked in the other, and released in both. It may be any number, as the next one.
    last: Cell<usize>,
    // Where an extent was found last: one is locked again with each object that comes to its home.
    extent: Cell<usize>,
}

/// No places. It takes no memory.
pub fn none(alloc: Global) -> Places
    ensures { result.table.entries ≡ [] }
{
    Places {
        table: tables::empty(alloc),
        last: Cell::new(0),
        extent: Cell::new(0),
    }
}

/// The place of a resource and where it stands, where it has one. What is written there needs no look-up more.
pub fn find(places: &Places, resource: &Resource) -> Option<FoundPlace>
    ensures some { IfSome result (IsAt places.now.table.entries resource.now) }
    ensures none { IfNone result (entry_at same_resource places.now.table.entries resource.now ≡ None) }
{
    let last = last_of(&places.last, &places.extent, resource);
    match near(&places.table, last.get(), resource) {
        Some(found) => {
            last.set(found.at);
            Some(found)
        }
        None => look_up(&places.table, last, resource),
    }
}

/// Makes room for one more place. Without memory the places are as before.
pub fn reserve(places: &mut Places) -> Result<(), NoMemory>
    ensures entries { places.new.table.entries ≡ places.old.table.entries }
    ensures ok { OnOk result (0 < spare places.new.table) }
{
    tables::reserve(&mut places.table)
}

/// Sets the place of a resource, for which there is room, and answers where it stands. It takes no memory.
#[inline(always)]
pub fn put(places: &mut Places, resource: Resource, place: Place) -> usize
    requires { 0 < spare places.old.table }
    ensures turns { Turns same_resource places.old.table.entries places.new.table.entries resource (Some place) }
    ensures at { key_at result places.new.table.entries ≡ Some resource }
{
    let last = last_of(&places.last, &places.extent, &resource);
    match places.table.insert_full(resource, place) {
        Ok((at, _)) => {
            last.set(at);
            at
        }
        Err(_) => unreachable!(),
    }
}

/// Sets the place of the resource that stands there. Each resource stands where it stood.
pub fn write(places: &mut Places, at: usize, place: Place)
    ensures turns { (resource : Resource) → key_at at places.old.table.entries ≡ Some resource → Turns same_resource places.old.table.entries places.new.table.entries resource (Some place) }
    ensures stand { (n : ℕ) → key_at n places.new.table.entries ≡ key_at n places.old.table.entries }
{
    if let Some(there) = places.table.get_index_mut(at) {
        *there = place;
    }
}

/// Takes the place of the resource that stands there away.
#[inline(always)]
pub fn remove(places: &mut Places, at: usize)
    ensures { (resource : Resource) → key_at at places.old.table.entries ≡ Some resource → Turns same_resource places.old.table.entries places.new.table.entries resource None }
{
    let _ = places.table.swap_remove_index(at);
}

// Where the last resource of this kind was found.
fn last_of<'a>(
    other: &'a Cell<usize>,
    extent: &'a Cell<usize>,
    resource: &Resource,
) -> &'a Cell<usize> {
    match resource {
        Resource::Extent(_) => extent,
        _ => other,
    }
}

// What stands where the last one was found, or beside it, where that is the resource. It is not hashed.
fn near(table: &Table<Resource, Place>, last: usize, resource: &Resource) -> Option<FoundPlace>
    ensures { IfSome result (IsAt table.now.entries resource.now) }
{
    if let Some(found) = found_at(table, last, resource) {
        return Some(found);
    }
    if let Some(found) = found_at(table, last.wrapping_sub(1), resource) {
        return Some(found);
    }
    found_at(table, last.wrapping_add(1), resource)
}

// What stands there, where that is the resource.
fn found_at(table: &Table<Resource, Place>, at: usize, resource: &Resource) -> Option<FoundPlace>
    ensures { IfSome result (IsAt table.now.entries resource.now) }
{
    match table.get_index(at) {
        Some((there, place)) if *there == *resource => Some(FoundPlace { at, place: *place }),
        _ => None,
    }
}

// The place of a resource by its hash, for which nothing is hashed where nothing is locked. The next one is looked for near it.
fn look_up(
    table: &Table<Resource, Place>,
    last: &Cell<usize>,
    resource: &Resource,
) -> Option<FoundPlace>
    ensures some { IfSome result (IsAt table.now.entries resource.now) }
    ensures none { IfNone result (entry_at same_resource table.now.entries resource.now ≡ None) }
{
    if table.is_empty() {
        return None;
    }
    match table.get_full(resource) {
        Some((at, _, place)) => {
            last.set(at);
            Some(FoundPlace { at, place: *place })
        }
        None => None,
    }
}
