// The tables behind an index: a slot for each key that is held, reserved or both.
ghost use Rattle.std.specs.Prelude.{◌≡◌, [], Some, None, true, OnOk, OnErr, IfOk, IfSome, IsSome};
ghost use Rattle.key_index.specs.Slots.{slot_at, key_at, long_slot, slots_of, bytes_of, Turns};

use crate::short::{ShortKey, short_of};
use indexmap::IndexMap;
use pss_base::NoMemory;
use std::alloc::Global;
use std::cell::Cell;
use std::hash::BuildHasherDefault;
use table_hash::ByteHasher;

/// What stands behind a key. A key with nothing behind it has no slot.
#[derive(Clone, Copy, Drop)]
pub enum Slot {
    /// The key is held with this serial.
    Held(u64),
    Reserved,
    /// The key is held with this serial, and reserved.
    Both(u64),
}

impl Slot {
    ghost use Rattle.key_index.specs.Slots.{serial_of, is_reserved};

    /// The serial that the key is held with, or none where it is not held.
    pub fn serial(self) -> Option<u64>
        ensures { result ≡ serial_of self }
    {
        match self {
            Slot::Held(serial) => Some(serial),
            Slot::Reserved => None,
            Slot::Both(serial) => Some(serial),
        }
    }

    pub fn is_reserved(self) -> bool
        ensures { result ≡ is_reserved self }
    {
        match self {
            Slot::Held(_) => false,
            Slot::Reserved => true,
            Slot::Both(_) => true,
        }
    }

    /// The slot with its key reserved, and held as before.
    pub fn and_reserved(self) -> Slot
        ensures held { serial_of result ≡ serial_of self }
        ensures reserved { is_reserved result ≡ true }
    {
        match self {
            Slot::Held(serial) => Slot::Both(serial),
            Slot::Reserved => Slot::Reserved,
            Slot::Both(serial) => Slot::Both(serial),
        }
    }
}

type Table<K> = IndexMap<K, Slot, BuildHasherDefault<ByteHasher>>;

/// A table for short keys, which lie in it, and one for longer ones, which lie on the heap: a look-up of a short key reads one place less.
#[derive(Drop)]
pub struct Slots {
    short: Table<ShortKey>,
    long: Table<Vec<u8>>,
    // The place of the short key that was added last, or behind that of the one found last, where the next one is looked for first:
    // keys are often asked for in the order in which they were put. It may be any number.
    ahead: Cell<usize>,
}

pub fn empty(alloc: Global) -> Slots
    ensures { slots_of result ≡ [] }
{
    Slots {
        short: IndexMap::with_hasher(alloc, BuildHasherDefault::new()),
        long: IndexMap::with_hasher(alloc, BuildHasherDefault::new()),
        ahead: Cell::new(0),
    }
}

/// The slot of a key, where it has one. Short keys that are found in the order of the table are not hashed.
pub fn find(slots: &Slots, key: &[u8]) -> Option<Slot>
    ensures { result ≡ slot_at key.now (slots_of slots.now) }
{
    match short_of(key) {
        Some(short) => find_short(&slots.short, &slots.ahead, &short),
        None => slots.long.get(key).copied(),
    }
}

fn find_short(table: &Table<ShortKey>, ahead: &Cell<usize>, key: &ShortKey) -> Option<Slot>
    ensures { result ≡ slot_at key.now table.now.entries }
{
    let next = ahead.get();
    match slot_there(table, next, key) {
        Some(slot) => {
            ahead.set(next.wrapping_add(1));
            Some(slot)
        }
        None => look_up(table, ahead, key),
    }
}

// The slot at a place of the table, where this key stands there.
fn slot_there(table: &Table<ShortKey>, place: usize, key: &ShortKey) -> Option<Slot>
    ensures { IfSome result (λ slot. slot_at key.now table.now.entries ≡ Some slot) }
{
    match table.get_index(place) {
        Some((there, slot)) if there == key => Some(*slot),
        _ => None,
    }
}

// The slot that a key has by its hash. The next one is looked for behind it.
fn look_up(table: &Table<ShortKey>, ahead: &Cell<usize>, key: &ShortKey) -> Option<Slot>
    ensures { result ≡ slot_at key.now table.now.entries }
{
    match table.get_full(key) {
        Some((place, _, slot)) => {
            ahead.set(place.wrapping_add(1));
            Some(*slot)
        }
        None => None,
    }
}

/// Writes into the slot that a key has.
pub fn write(slots: &mut Slots, key: &[u8], slot: Slot)
    requires { IsSome (slot_at key.now (slots_of slots.old)) }
    ensures { Turns (slots_of slots.old) (slots_of slots.new) key.now (Some slot) }
{
    match short_of(key) {
        Some(short) => write_short(&mut slots.short, &slots.ahead, &short, slot),
        None => write_long(&mut slots.long, key, slot),
    }
}

fn write_short(table: &mut Table<ShortKey>, ahead: &Cell<usize>, key: &ShortKey, slot: Slot)
    requires { IsSome (slot_at key.now table.old.entries) }
    ensures { Turns table.old.entries table.new.entries key.now (Some slot) }
{
    let place = known_place(table, ahead, key);
    ahead.set(place.wrapping_add(1));
    if let Some(there) = table.get_index_mut(place) {
        *there = slot;
    }
}

// The place of a key that is there. Where it is the next one, or the one before that, it is not hashed.
fn known_place(table: &Table<ShortKey>, ahead: &Cell<usize>, key: &ShortKey) -> usize
    requires { IsSome (slot_at key.now table.now.entries) }
    ensures { key_at result table.now.entries ≡ Some key.now }
{
    let next = ahead.get();
    if stands_at(table, next, key) {
        return next;
    }
    let last = next.wrapping_sub(1);
    if stands_at(table, last, key) {
        return last;
    }
    match table.get_full(key) {
        Some((place, _, _)) => place,
        None => unreachable!(),
    }
}

// Whether a key stands at a place of the table.
fn stands_at(table: &Table<ShortKey>, place: usize, key: &ShortKey) -> bool
    ensures { result ≡ true → key_at place table.now.entries ≡ Some key.now }
{
    match table.get_index(place) {
        Some((there, _)) => there == key,
        None => false,
    }
}

fn write_long(table: &mut Table<Vec<u8>>, key: &[u8], slot: Slot)
    requires { IsSome (long_slot key.now table.old.entries) }
    ensures { Turns (bytes_of table.old.entries) (bytes_of table.new.entries) key.now (Some slot) }
{
    if let Some(place) = table.get_mut(key) {
        *place = slot;
    }
}

/// Takes the slot that a key has away.
pub fn remove(slots: &mut Slots, key: &[u8])
    requires { IsSome (slot_at key.now (slots_of slots.old)) }
    ensures { Turns (slots_of slots.old) (slots_of slots.new) key.now None }
{
    match short_of(key) {
        Some(short) => remove_short(&mut slots.short, &slots.ahead, &short),
        None => {
            let _ = slots.long.swap_remove(key);
        }
    }
}

fn remove_short(table: &mut Table<ShortKey>, ahead: &Cell<usize>, key: &ShortKey)
    requires { IsSome (slot_at key.now table.old.entries) }
    ensures { Turns table.old.entries table.new.entries key.now None }
{
    let place = known_place(table, ahead, key);
    let _ = table.swap_remove_index(place);
}

/// Puts a slot for a key, and answers the one that it had. The key is looked for there next.
pub fn add(
    alloc: Global,
    slots: &mut Slots,
    key: &[u8],
    slot: Slot,
) -> Result<Option<Slot>, NoMemory>
    ensures had { IfOk result (λ had. had ≡ slot_at key.now (slots_of slots.old)) }
    ensures ok { OnOk result (Turns (slots_of slots.old) (slots_of slots.new) key.now (Some slot)) }
    ensures err { OnErr result (slots_of slots.new ≡ slots_of slots.old) }
{
    match short_of(key) {
        Some(short) => add_short(&mut slots.short, &slots.ahead, short, slot),
        None => add_long(alloc, &mut slots.long, key, slot),
    }
}

fn add_short(
    table: &mut Table<ShortKey>,
    ahead: &Cell<usize>,
    key: ShortKey,
    slot: Slot,
) -> Result<Option<Slot>, NoMemory>
    ensures had { IfOk result (λ had. had ≡ slot_at key table.old.entries) }
    ensures ok { OnOk result (Turns table.old.entries table.new.entries key (Some slot)) }
    ensures err { OnErr result (table.new.entries ≡ table.old.entries) }
{
    let (place, had) = table.insert_full(key, slot)?;
    ahead.set(place);
    Ok(had)
}

fn add_long(
    alloc: Global,
    table: &mut Table<Vec<u8>>,
    key: &[u8],
    slot: Slot,
) -> Result<Option<Slot>, NoMemory>
    ensures had { IfOk result (λ had. had ≡ long_slot key.now table.old.entries) }
    ensures ok { OnOk result (Turns (bytes_of table.old.entries) (bytes_of table.new.entries) key.now (Some slot)) }
    ensures err { OnErr result (table.new.entries ≡ table.old.entries) }
{
    let owned = key.to_vec(alloc)?;
    Ok(table.insert(owned, slot)?)
}
