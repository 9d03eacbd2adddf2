// What changes leave of objects, by rising serial.
ghost use Rattle.std.specs.Prelude.{ℕ, ◌≡◌, ◌+◌, ◌<◌, ◌≤◌, List, [], ◌∷◌, ◌++◌, All, IfOk, IsTrue, OnOk, Some};
ghost use Rattle.std.specs.FinMap.{empty, entries};
ghost use Rattle.pss_base.specs.declared.put.Put.{Put as Change};
ghost use Rattle.page_format.specs.Objects.{HasRecord, IsRightPut, entries_left, entries_of, entry_left, left_by, over};
ghost use Rattle.page_format.specs.Written.{AreStorable, IsStorable};
ghost use Rattle.page_format.specs.inner.Settling.{AreInOrder, AreOthersSettled, AreSettled, Climbs, IsSettling};

use crate::objects::Stored;
use pss_base::{Bytes, NoMemory, Put, Puts};
use std::alloc::Global;

/// The objects that were settled, and what the changes so far leave of the one with this serial, which comes next.
#[derive(Drop)]
pub struct Settling {
    settled: Puts,
    serial: u64,
    left: Option<Stored>,
}

// No changes so far. It takes no memory.
fn nothing(alloc: Global) -> Settling
    ensures so_far { IsSettling [] result }
    ensures serial { result.serial ≡ 0 }
{
    Settling {
        settled: Puts::new(alloc),
        serial: 0,
        left: None,
    }
}

// What a change leaves of its object.
fn left_by(home: u32, bytes: Option<Bytes>) -> Option<Stored>
    ensures { result ≡ left_by home bytes }
{
    match bytes {
        Some(octets) => Some(Stored { home, octets }),
        None => None,
    }
}

// The change that leaves an object.
fn put_of(serial: u64, stored: Stored) -> Put
    requires { HasRecord stored.octets }
    ensures put { result ≡ record { home = stored.home; serial = serial; bytes = Some stored.octets } }
    ensures storable { IsStorable (entry_left result) }
{
    Put {
        home: stored.home,
        serial,
        bytes: Some(stored.octets),
    }
}

impl Settling {
    // Takes a change of the object that comes next, or of a later one.
    fn take(&mut self, put: Put) -> Result<(), NoMemory>
        requires so_far { (puts : List Change) × IsSettling puts self.old }
        requires later { self.old.serial ≤ put.serial }
        requires right { IsRightPut put }
        ensures taken { OnOk result ((puts : List Change) → IsSettling puts self.old → IsSettling (puts ++ put ∷ []) self.new) }
        ensures serial { OnOk result (self.new.serial ≡ put.serial) }
    {
        let Put {
            home,
            serial,
            bytes,
        } = put;
        match self.turn_to(serial) {
            Ok(()) => {
                self.left = left_by(home, bytes);
                Ok(())
            }
            Err(stop) => Err(stop),
        }
    }

    // Lets the object with this serial come next, and settles the one before it.
    fn turn_to(&mut self, serial: u64) -> Result<(), NoMemory>
        requires so_far { (puts : List Change) × IsSettling puts self.old }
        requires later { self.old.serial ≤ serial }
        ensures others { OnOk result ((puts : List Change) → IsSettling puts self.old → AreOthersSettled puts serial self.new.settled) }
        ensures serial { OnOk result (self.new.serial ≡ serial) }
    {
        if serial == self.serial {
            return Ok(());
        }
        match self.release() {
            Ok(()) => {
                self.serial = serial;
                Ok(())
            }
            Err(stop) => Err(stop),
        }
    }

    // Settles the object that comes next, where there is one.
    fn release(&mut self) -> Result<(), NoMemory>
        requires { (puts : List Change) × IsSettling puts self.old }
        ensures { OnOk result ((puts : List Change) (next : ℕ) → self.old.serial < next → IsSettling puts self.old → AreSettled puts next self.new.settled) }
    {
        match self.left.take() {
            Some(stored) => self.settled.push(put_of(self.serial, stored)),
            None => Ok(()),
        }
    }

    // All objects.
    fn finish(mut self) -> Result<Vec<Put>, NoMemory>
        requires { (puts : List Change) × IsSettling puts self }
        ensures settled { (puts : List Change) → IsSettling puts self → IfOk result (λ settled. entries_left settled.items ≡ entries_of (entries (over empty puts))) }
        ensures storable { (puts : List Change) → IsSettling puts self → IfOk result (λ settled. AreStorable (entries_left settled.items)) }
    {
        match self.release() {
            Ok(()) => Ok(self.settled.into_vec()),
            Err(stop) => Err(stop),
        }
    }
}

// Sorts changes by their serials. Those of an object stay in their order.
fn sort(changes: &mut Vec<Put>) -> Result<(), NoMemory>
    ensures { OnOk result (AreInOrder changes.old.items changes.new.items) }
{
    changes.sort_by_key(|put| put.serial)?;
    Ok(())
}

// Settles sorted changes.
fn settle_sorted(alloc: Global, changes: Vec<Put>) -> Result<Vec<Put>, NoMemory>
    requires climbing { Climbs 0 changes.items }
    requires right { All IsRightPut changes.items }
    ensures settled { IfOk result (λ settled. entries_left settled.items ≡ entries_of (entries (over empty changes.items))) }
    ensures storable { IfOk result (λ settled. AreStorable (entries_left settled.items)) }
{
    let mut settling = nothing(alloc);
    for put in changes {
        match settling.take(put) {
            Ok(()) => {}
            Err(stop) => return Err(stop),
        }
    }
    settling.finish()
}

// Whether a change leaves a record, and its serial is above one.
fn is_next(put: &Put, serial: u64) -> bool
    requires { IsRightPut put.now }
    ensures above { IsTrue result → serial < put.now.serial }
    ensures left { IsTrue result → put.now.bytes ≡ Some (entry_left put.now).octets }
    ensures storable { IsTrue result → IsStorable (entry_left put.now) }
{
    // For the proof alone: the home that is read is a number of 32 bits.
    let _home = put.home;
    serial < put.serial && put.bytes.is_some()
}

// Whether changes are settled as they stand: by rising serial, one of each object, and each leaves a record.
fn are_settled(changes: &[Put]) -> bool
    requires { All IsRightPut changes.now }
    ensures settled { IsTrue result → entries_left changes.now ≡ entries_of (entries (over empty changes.now)) }
    ensures storable { IsTrue result → AreStorable (entries_left changes.now) }
{
    let mut last = 0;
    for put in changes {
        if !is_next(put, last) {
            return false;
        }
        last = put.serial;
    }
    true
}

/// Tells that changes that are settled as they stand, the last of which has this serial, are so with one more behind them.
/// Where it does not, they may be so too.
#[inline(always)]
pub fn stay_settled(are: bool, last: u64, put: &Put) -> bool
    requires { IsRightPut put.now }
    ensures { (puts : List Change) → (IsTrue are → AreSettled puts (last + 1) puts) → IsTrue result → AreSettled (puts ++ put.now ∷ []) (put.now.serial + 1) (puts ++ put.now ∷ []) }
{
    are && is_next(put, last)
}

// Sorts and settles changes.
fn settle_anew(alloc: Global, mut changes: Vec<Put>) -> Result<Vec<Put>, NoMemory>
    requires { All IsRightPut changes.items }
    ensures settled { IfOk result (λ settled. entries_left settled.items ≡ entries_of (entries (over empty changes.items))) }
    ensures storable { IfOk result (λ settled. AreStorable (entries_left settled.items)) }
{
    match sort(&mut changes) {
        Ok(()) => settle_sorted(alloc, changes),
        Err(stop) => Err(stop),
    }
}

/// What changes, made one after the other, leave of objects, by rising serial. Where they stand so already, none is moved.
/// `NoMemory`: there was no room to sort them or for those that are left, and all are gone.
pub fn settle(alloc: Global, changes: Vec<Put>) -> Result<Vec<Put>, NoMemory>
    requires { All IsRightPut changes.items }
    ensures settled { IfOk result (λ settled. entries_left settled.items ≡ entries_of (entries (over empty changes.items))) }
    ensures storable { IfOk result (λ settled. AreStorable (entries_left settled.items)) }
{
    if are_settled(&changes) {
        Ok(changes)
    } else {
        settle_anew(alloc, changes)
    }
}
