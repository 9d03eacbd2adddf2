// The serials of each storage home in their order.
ghost use Rattle.std.specs.Prelude.{◌≡◌, ◌+◌, ◌*◌, ◌<◌, ◌≤◌, ◌/◌, ◌||◌, ℕ, None, Some, true, false, length, OnOk, OnErr};
ghost use Rattle.storage_home.specs.Blocks.{block_at, enters_in, IsLeastIn, IsFirstHeld};
ghost use Rattle.storage_home.specs.Extents.{is_entered_at, is_entered_in, last_number, IsNear, IsNext, IsNextIn, TurnsHeld, KeepsHeld, TurnsEntered, KeepsEntered, TurnsHeldIn, KeepsHeldIn, TurnsEnteredIn, KeepsEnteredIn};

use crate::chunk::WIDTH;
use crate::marks::{least_from, with_bit, with_mark};
use pss_base::NoMemory;
use std::collections::BTreeMap;
use std::collections::btree_map::Range;
use std::ops::Bound;
use type_layout::HomeNo;

/// Which of 64 neighbouring serials are a home's: for each, from the lowest bit, whether its object may come, and whether it
/// is there.
#[derive(Clone, Copy)]
pub struct Block {
    pub entered: u64,
    pub held: u64,
}

/// The serials of a home's own objects and those that may come: each 64 that have one, under their number.
pub type Extent = BTreeMap<u64, Block>;

/// The greatest number of a block.
const LAST: u64 = u64::MAX / WIDTH;

/// Enters a serial of a home, whose object may come. One that is there stays there.
#[inline(always)]
pub fn enter_in(extents: &mut [Extent], home: HomeNo, serial: u64) -> Result<(), NoMemory>
    requires some { 1 ≤ home.0 }
    requires there { home.0 ≤ length extents.old }
    ensures held { KeepsHeldIn extents.old extents.new }
    ensures ok { OnOk result (TurnsEnteredIn extents.old extents.new home.0 serial true) }
    ensures err { OnErr result (KeepsEnteredIn extents.old extents.new) }
    ensures size { length extents.new ≡ length extents.old }
{
    let extent = &mut extents[home.0 as usize - 1];
    enter(extent, serial)
}

/// The object of a serial that was entered for its home is there from now on.
#[inline(always)]
pub fn hold_in(extents: &mut [Extent], home: HomeNo, serial: u64)
    requires { is_entered_in extents.old home.0 serial ≡ true }
    ensures held { TurnsHeldIn extents.old extents.new home.0 serial true }
    ensures entered { KeepsEnteredIn extents.old extents.new }
    ensures size { length extents.new ≡ length extents.old }
{
    let extent = &mut extents[home.0 as usize - 1];
    hold(extent, serial);
}

/// The object of a serial is there no longer. The serial stays entered where its object may come again.
pub fn release_in(extents: &mut [Extent], home: HomeNo, serial: u64, stays: bool)
    requires { is_entered_in extents.old home.0 serial ≡ true }
    ensures held { TurnsHeldIn extents.old extents.new home.0 serial false }
    ensures entered { TurnsEnteredIn extents.old extents.new home.0 serial stays }
    ensures size { length extents.new ≡ length extents.old }
{
    let extent = &mut extents[home.0 as usize - 1];
    release(extent, serial, stays);
}

/// The least serial of a home from this one on whose object is there.
pub fn next_in(extents: &[Extent], home: HomeNo, from: u64) -> Option<u64>
    requires some { 1 ≤ home.0 }
    requires there { home.0 ≤ length extents.now }
    ensures { IsNextIn extents.now home.0 from result }
{
    next(&extents[home.0 as usize - 1], from)
}

/// The least serial of a home above this one whose object is there.
pub fn next_above_in(extents: &[Extent], home: HomeNo, serial: u64) -> Option<u64>
    requires some { 1 ≤ home.0 }
    requires there { home.0 ≤ length extents.now }
    ensures { IsNextIn extents.now home.0 (serial + 1) result }
{
    next_above(&extents[home.0 as usize - 1], serial)
}

// Enters a serial whose object may come. One that is there stays there.
#[inline(always)]
fn enter(extent: &mut Extent, serial: u64) -> Result<(), NoMemory>
    ensures held { KeepsHeld extent.old.entries extent.new.entries }
    ensures ok { OnOk result (TurnsEntered extent.old.entries extent.new.entries serial true) }
    ensures err { OnErr result (extent.new.entries ≡ extent.old.entries) }
{
    if ends_with(extent, serial / WIDTH) {
        enter_last(extent, serial);
        return Ok(());
    }
    match extent.get_mut(&(serial / WIDTH)) {
        Some(block) => {
            block.entered = with_bit(block.entered, serial % WIDTH);
            Ok(())
        }
        None => begin(extent, serial),
    }
}

// Whether the last block has this number. Serials are given one after the other, so that a new one is of the last block as a
// rule, which is reached without a search.
fn ends_with(extent: &Extent, number: u64) -> bool
    ensures { result ≡ true → last_number extent.now ≡ Some number }
{
    match extent.last_key_value() {
        Some((last, _)) => *last == number,
        None => false,
    }
}

// Enters a serial of the last block.
fn enter_last(extent: &mut Extent, serial: u64)
    requires { last_number extent.old ≡ Some (serial / 64) }
    ensures held { KeepsHeld extent.old.entries extent.new.entries }
    ensures entered { TurnsEntered extent.old.entries extent.new.entries serial true }
{
    if let Some(entry) = extent.last_entry() {
        let block = entry.into_mut();
        block.entered = with_bit(block.entered, serial % WIDTH);
    }
}

// Enters the first serial of its block.
fn begin(extent: &mut Extent, serial: u64) -> Result<(), NoMemory>
    requires { block_at (serial / 64) extent.old.entries ≡ None }
    ensures held { KeepsHeld extent.old.entries extent.new.entries }
    ensures ok { OnOk result (TurnsEntered extent.old.entries extent.new.entries serial true) }
    ensures err { OnErr result (extent.new.entries ≡ extent.old.entries) }
{
    let block = Block {
        entered: with_bit(0, serial % WIDTH),
        held: 0,
    };
    extent.insert(serial / WIDTH, block)?;
    Ok(())
}

// The object of a serial that was entered is there from now on.
fn hold(extent: &mut Extent, serial: u64)
    requires { is_entered_at serial extent.old.entries ≡ true }
    ensures held { TurnsHeld extent.old.entries extent.new.entries serial true }
    ensures entered { KeepsEntered extent.old.entries extent.new.entries }
{
    write(extent, serial, true, true);
}

fn release(extent: &mut Extent, serial: u64, stays: bool)
    requires { is_entered_at serial extent.old.entries ≡ true }
    ensures held { TurnsHeld extent.old.entries extent.new.entries serial false }
    ensures entered { TurnsEntered extent.old.entries extent.new.entries serial stays }
{
    write(extent, serial, stays, false);
    if !stays {
        end(extent, serial);
    }
}

// Says of a serial that was entered whether it still is, and whether its object is there.
#[inline(always)]
fn write(extent: &mut Extent, serial: u64, enters: bool, holds: bool)
    requires { is_entered_at serial extent.old.entries ≡ true }
    ensures held { TurnsHeld extent.old.entries extent.new.entries serial holds }
    ensures entered { TurnsEntered extent.old.entries extent.new.entries serial (enters || holds) }
{
    if ends_with(extent, serial / WIDTH) {
        write_last(extent, serial, enters, holds);
    } else {
        write_found(extent, serial, enters, holds);
    }
}

// The same of a serial of the last block.
fn write_last(extent: &mut Extent, serial: u64, enters: bool, holds: bool)
    requires { last_number extent.old ≡ Some (serial / 64) }
    ensures held { TurnsHeld extent.old.entries extent.new.entries serial holds }
    ensures entered { TurnsEntered extent.old.entries extent.new.entries serial (enters || holds) }
{
    if let Some(entry) = extent.last_entry() {
        let block = entry.into_mut();
        block.entered = with_mark(block.entered, serial % WIDTH, enters);
        block.held = with_mark(block.held, serial % WIDTH, holds);
    }
}

// The same by a search for its block.
fn write_found(extent: &mut Extent, serial: u64, enters: bool, holds: bool)
    requires { is_entered_at serial extent.old.entries ≡ true }
    ensures held { TurnsHeld extent.old.entries extent.new.entries serial holds }
    ensures entered { TurnsEntered extent.old.entries extent.new.entries serial (enters || holds) }
{
    if let Some(block) = extent.get_mut(&(serial / WIDTH)) {
        block.entered = with_mark(block.entered, serial % WIDTH, enters);
        block.held = with_mark(block.held, serial % WIDTH, holds);
    }
}

// Gives the block of a serial back where nothing is marked in it.
fn end(extent: &mut Extent, serial: u64)
    ensures held { KeepsHeld extent.old.entries extent.new.entries }
    ensures entered { KeepsEntered extent.old.entries extent.new.entries }
{
    if is_done(extent, serial) {
        let _ = extent.remove(&(serial / WIDTH));
    }
}

fn is_done(extent: &Extent, serial: u64) -> bool
    ensures { result ≡ true → (q : ℕ) → enters_in (block_at (serial / 64) extent.now.entries) q ≡ false }
{
    match extent.get(&(serial / WIDTH)) {
        Some(block) => block.entered == 0 && block.held == 0,
        None => false,
    }
}

// The least serial from this one on whose object is there.
fn next(extent: &Extent, from: u64) -> Option<u64>
    ensures { IsNext extent.now.entries from result }
{
    match next_near(extent, from) {
        Some(serial) => Some(serial),
        None => next_far(extent, from / WIDTH),
    }
}

// The least serial above this one whose object is there.
fn next_above(extent: &Extent, serial: u64) -> Option<u64>
    ensures { IsNext extent.now.entries (serial + 1) result }
{
    match serial.checked_add(1) {
        Some(from) => next(extent, from),
        None => None,
    }
}

// The same among the serials of its block.
fn next_near(extent: &Extent, from: u64) -> Option<u64>
    ensures { IsNear extent.now.entries from result }
{
    match extent.get(&(from / WIDTH)) {
        Some(block) => least_in(from / WIDTH, block, from % WIDTH),
        None => None,
    }
}

// The least serial behind a block whose object is there.
fn next_far(extent: &Extent, number: u64) -> Option<u64>
    ensures { IsNext extent.now.entries (64 * (number + 1)) result }
{
    first_in(extent.range((Bound::Excluded(number), Bound::Unbounded)))
}

fn first_in(range: Range<'_, u64, Block>) -> Option<u64>
    ensures { IsFirstHeld range.entry result }
{
    for (number, block) in range {
        if let Some(serial) = least_in(*number, block, 0) {
            return Some(serial);
        }
    }
    None
}

// The least serial of a block, from a place on, whose object is there.
fn least_in(number: u64, block: &Block, from: u64) -> Option<u64>
    requires { from < 64 }
    ensures { IsLeastIn number block.now from result }
{
    if LAST < number {
        return None;
    }
    match least_from(block.held, from) {
        Some(place) => Some(number * WIDTH + place),
        None => None,
    }
}
