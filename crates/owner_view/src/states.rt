// The states to which objects were changed, by serial.
ghost use Rattle.std.specs.Prelude.{◌≡◌, ◌++◌, ◌<◌, [], ◌∷◌, Some, None, true, length, nat_eq, is_some, IfOk, IfSome, OnOk, IsSome};
ghost use Rattle.std.specs.Option.{option_to_list};
ghost use Rattle.type_layout.specs.declared.schema.Schema.{Schema};
ghost use Rattle.owner_view.specs.Sized.{IsSlotSized, AreSized, IsToldSized};
ghost use Rattle.owner_view.specs.States.{slot_at, slot_state, slot_pid, pids_in, state_at, told_state, changes_of, KeepsStates, TurnsState, IsSlot, AreInOrder, AreValued};
ghost use Rattle.std.specs.List.{IsDistinct};
ghost use Rattle.std.specs.Map.{keys_of};

use crate::object::Changed;
use pss_base::{NoMemory, Pid};
use recent_table::RecentTable;
use std::alloc::Global;
use table_hash::NumberHasher;

/// What stands at a serial.
#[derive(Drop)]
pub enum Slot {
    /// Nothing yet. A state may be put there without memory.
    Reserved,
    /// The object is removed.
    Gone,
    /// The object is this one.
    There(Changed),
}

/// What stands at serials: an order is made of them where one is asked for. One command asks for its object several times, and a
/// commit for one object after the other.
pub type States = RecentTable<u64, Slot, NumberHasher>;

/// What an owner made of an object.
#[derive(Clone, Copy)]
pub enum Told<'a> {
    /// Nothing.
    Untouched,
    /// It removed the object.
    Gone,
    /// The object is this one.
    There(&'a Changed),
}

/// The most slots that an owner keeps the memory of.
const MOST_KEPT: usize = 64;

/// Takes all states away. The memory of a few slots stays for those that come next: a basic session puts one or two, again and
/// again.
pub fn clear(states: &mut States, alloc: Global)
    ensures { states.new ≡ [] }
{
    states.clear(alloc, MOST_KEPT);
}

/// What was made of the object with a serial.
pub fn told_at(states: &States, serial: u64) -> Told<'_>
    ensures { told_state result ≡ state_at serial states.now }
{
    match states.get(serial) {
        Some(slot) => told_by(slot),
        None => Told::Untouched,
    }
}

fn told_by(slot: &Slot) -> Told<'_>
    ensures state { told_state result ≡ slot_state slot.now }
    ensures sized { (S : Schema) → IsSlotSized S (Some slot.now) → IsToldSized S result }
{
    match slot {
        Slot::Reserved => Told::Untouched,
        Slot::Gone => Told::Gone,
        Slot::There(object) => Told::There(object),
    }
}

/// The serial of the slot at a place of the table, and what was made of its object.
pub fn slot_in(states: &States, place: usize) -> (u64, Told<'_>)
    requires { place < length states.now }
    ensures slot { IsSlot states.now place result.0 (told_state result.1) }
    ensures sized { (S : Schema) → AreSized S states.now → IsToldSized S result.1 }
{
    match states.at(place) {
        Some((serial, slot)) => (*serial, told_by(slot)),
        None => unreachable!(),
    }
}

/// Sees to it that a state may be put at a serial without memory. All states stay.
pub fn reserve(states: &mut States, serial: u64) -> Result<(), NoMemory>
    ensures kept { KeepsStates states.old states.new }
    ensures sized { (S : Schema) → AreSized S states.old → AreSized S states.new }
    ensures ok { OnOk result (IsSome (slot_at serial states.new)) }
{
    match states.get(serial) {
        Some(_) => Ok(()),
        None => states.insert(serial, Slot::Reserved),
    }
}

/// Puts a state at a serial, and tells whether one stood there.
pub fn put(states: &mut States, serial: u64, slot: Slot) -> bool
    requires { IsSome (slot_at serial states.old) }
    ensures before { result ≡ is_some (state_at serial states.old) }
    ensures turned { TurnsState states.old states.new serial (slot_state slot) }
    ensures sized { (S : Schema) → AreSized S states.old → IsSlotSized S (Some slot) → AreSized S states.new }
{
    match states.get_mut(serial) {
        Some(there) => {
            let before = stands(there);
            *there = slot;
            before
        }
        None => unreachable!(),
    }
}

// Whether a state stands in a slot.
fn stands(slot: &Slot) -> bool
    ensures { result ≡ is_some (slot_state slot.now) }
{
    match slot {
        Slot::Reserved => false,
        Slot::Gone => true,
        Slot::There(_) => true,
    }
}

/// The serial that has a slot, where one alone has.
pub fn only(states: &States) -> Option<u64>
    ensures { IfSome result (λ serial. AreInOrder states.now (serial ∷ [])) }
{
    if states.len() != 1 {
        return None;
    }
    match states.at(0) {
        Some((serial, _)) => Some(*serial),
        None => None,
    }
}

/// The serials that have a slot, in their order.
pub fn in_order(alloc: Global, states: &States) -> Result<Vec<u64>, NoMemory>
    ensures { IfOk result (λ serials. AreInOrder states.now serials.items) }
{
    let mut serials = serials_of(alloc, states)?;
    serials.sort_unstable();
    Ok(serials)
}

// The serials of the states, in the order in which they stand in the table.
fn serials_of(alloc: Global, states: &States) -> Result<Vec<u64>, NoMemory>
    ensures apart { OnOk result (IsDistinct nat_eq (keys_of states.now)) }
    ensures all { IfOk result (λ serials. serials.items ≡ keys_of states.now) }
{
    let mut serials = Vec::with_capacity(alloc, states.len())?;
    for (serial, _) in states.iter() {
        serials.push(*serial)?;
    }
    Ok(serials)
}

/// The pids of the objects that stand in slots, in the order of the slots.
pub fn pids(alloc: Global, states: &States) -> Result<Vec<Pid>, NoMemory>
    ensures { IfOk result (λ pids. AreValued (changes_of states.now) pids.items) }
{
    slot_pids(alloc, states)
}

fn slot_pids(alloc: Global, states: &States) -> Result<Vec<Pid>, NoMemory>
    ensures apart { OnOk result (IsDistinct nat_eq (keys_of states.now)) }
    ensures all { IfOk result (λ pids. pids.items ≡ pids_in states.now) }
{
    let mut pids = Vec::with_capacity(alloc, states.len())?;
    for (serial, slot) in states.iter() {
        put_pid(&mut pids, *serial, slot)?;
    }
    Ok(pids)
}

fn put_pid(pids: &mut Vec<Pid>, serial: u64, slot: &Slot) -> Result<(), NoMemory>
    ensures { OnOk result (pids.new.items ≡ pids.old.items ++ option_to_list (slot_pid serial slot.now)) }
{
    match slot {
        Slot::There(object) => pids.push(Pid {
            home: object.home.0,
            serial,
        })?,
        Slot::Gone => (),
        Slot::Reserved => (),
    }
    Ok(())
}
