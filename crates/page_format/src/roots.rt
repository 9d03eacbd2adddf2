// The current root of a store is read and tested.
ghost use Rattle.std.specs.Prelude.{ℕ, ◌≡◌, ◌+◌, ◌<◌, ◌≤◌, List, false, length, IfErr, IfOk, IfSome, MatchOption, OnOk};
ghost use Rattle.pss_base.specs.Causes.{HasCauseIf};
ghost use Rattle.pss_disk.specs.Parts.{Stands};
ghost use Rattle.pss_disk.specs.Reading.{OnlyReads};
ghost use Rattle.redo_journal.specs.Journal.{journal_end};
ghost use Rattle.page_format.specs.Faults.{is_disk_stop, is_root_disk_fault};
ghost use Rattle.page_format.specs.Places.{area_start};
ghost use Rattle.page_format.specs.Refusals.{IsRootRefusal};
ghost use Rattle.page_format.specs.Roots.{HasRoot, IsWithinLimits};
ghost use Rattle.page_format.specs.inner.Current.{AreItsSlots, AreRight, IsOpened, IsRightHead, IsWrongHead};

use crate::current::{Current, read_current};
use crate::fault::RootFault;
use crate::head::Head;
use crate::layout::{
    AREA, FIRST_SLOT, MOST_PAGES, NEXT, PAGE_COUNT, SHAPE, SHAPE_LENGTH, SLOT_LIST,
};
use crate::reading::read_octets;
use crate::root::Root;
use crate::slot_list::{first_wrong, read_slots};
use crate::slots::Slots;
use pss_base::{Bytes, DamageKind, LONGEST_SHAPE, StoreStop};
use pss_disk::Station;
use std::alloc::Global;

// Where in its area the first number of a head is that is wrong.
fn wrong_number(head: Head) -> Option<u64>
    ensures { MatchOption result (IsRightHead head) (IsWrongHead head) }
{
    if head.next == 0 {
        Some(NEXT as u64)
    } else if head.shape_length > LONGEST_SHAPE {
        Some(SHAPE_LENGTH as u64)
    } else if head.page_count > MOST_PAGES {
        Some(PAGE_COUNT as u64)
    } else {
        None
    }
}

// Tests the numbers of a head.
fn test_head(found: Current) -> Result<(), RootFault>
    requires { found.area ≤ 1 }
    ensures right { OnOk result (IsRightHead found.head) }
    ensures refused { (len : ℕ) (image : List ℕ) → IsOpened len found image → IfErr result (λ fault. IsRootRefusal fault image) }
    ensures memory { is_root_disk_fault result ≡ false }
{
    match wrong_number(found.head) {
        None => Ok(()),
        Some(at) => Err(RootFault::Damaged(found.area as u64 * AREA + at, DamageKind::Root)),
    }
}

// Tests the slots of a root in a file of this length.
fn test_slots(alloc: Global, slots: &[u32], len: u64, found: Current) -> Result<(), RootFault>
    requires area { found.area ≤ 1 }
    requires few { length slots.now ≤ 8058 }
    requires head { IsRightHead found.head }
    ensures right { OnOk result (AreRight len slots.now) }
    ensures refused { (image : List ℕ) → IsOpened len found image → AreItsSlots found slots.now image → IfErr result (λ fault. IsRootRefusal fault image) }
    ensures memory { is_root_disk_fault result ≡ false }
{
    match first_wrong(alloc, slots, len) {
        Ok(None) => Ok(()),
        Ok(Some(k)) => Err(RootFault::Damaged(
            found.area as u64 * AREA + SLOT_LIST + k as u64 * 4,
            DamageKind::Root,
        )),
        Err(_) => Err(RootFault::NoMemory),
    }
}

// Reads the slots of a root, and tests them.
fn read_right_slots<W: Station>(
    alloc: Global,
    w: &mut W,
    len: u64,
    found: Current,
) -> Result<Slots, RootFault>
    requires area { found.area ≤ 1 }
    requires head { IsRightHead found.head }
    requires opened { IfSome (W.content w.old) (IsOpened len found) }
    ensures right { IfOk result (λ slots. AreRight len slots) }
    ensures count { IfOk result (λ slots. length slots ≡ found.head.page_count) }
    ensures slots { IfOk result (λ slots. IfSome (W.content w.old) (AreItsSlots found slots)) }
    ensures refused { IfErr result (λ fault. IfSome (W.content w.old) (IsRootRefusal fault)) }
    ensures reads { OnlyReads W.now W.content W.history W.speak_faults w.old w.new }
    ensures cause { HasCauseIf (W.disk_faults w.old) (W.disk_faults w.new) (is_root_disk_fault result) }
{
    let slots = match read_slots(alloc, w, found.area, found.head.page_count) {
        Ok(slots) => slots,
        Err(StoreStop::DiskFault) => return Err(RootFault::DiskFault),
        Err(StoreStop::NoMemory) => return Err(RootFault::NoMemory),
    };
    match test_slots(alloc, slots.as_slice(), len, found) {
        Ok(()) => Ok(slots),
        Err(fault) => Err(fault),
    }
}

// Reads the shape of a root.
fn read_shape<W: Station>(alloc: Global, w: &mut W, area: u8, len: u32) -> Result<Bytes, StoreStop>
    requires area { area ≤ 1 }
    requires short { len ≤ 65536 }
    ensures len { IfOk result (λ shape. length shape ≡ len) }
    ensures stands { IfOk result (λ shape. IfSome (W.content w.old) (λ c. Stands c (area_start area + 32) shape)) }
    ensures reads { OnlyReads W.now W.content W.history W.speak_faults w.old w.new }
    ensures cause { HasCauseIf (W.disk_faults w.old) (W.disk_faults w.new) (is_disk_stop result) }
{
    match read_octets(alloc, w, area as u64 * AREA + SHAPE as u64, len as usize) {
        Ok(octets) => Ok(Bytes::from_vec(octets)),
        Err(stop) => Err(stop),
    }
}

// Reads what stands behind the head of a root.
fn read_fields<W: Station>(
    alloc: Global,
    w: &mut W,
    len: u64,
    found: Current,
) -> Result<Root, RootFault>
    requires area { found.area ≤ 1 }
    requires head { IsRightHead found.head }
    requires opened { IfSome (W.content w.old) (IsOpened len found) }
    ensures root { IfOk result (λ root. IfSome (W.content w.old) (HasRoot root)) }
    ensures limits { IfOk result (λ root. IsWithinLimits root) }
    ensures refused { IfErr result (λ fault. IfSome (W.content w.old) (IsRootRefusal fault)) }
    ensures reads { OnlyReads W.now W.content W.history W.speak_faults w.old w.new }
    ensures cause { HasCauseIf (W.disk_faults w.old) (W.disk_faults w.new) (is_root_disk_fault result) }
{
    let slots = match read_right_slots(alloc, w, len, found) {
        Ok(slots) => slots,
        Err(fault) => return Err(fault),
    };
    match read_shape(alloc, w, found.area, found.head.shape_length) {
        Ok(shape) => Ok(Root {
            area: found.area,
            epoch: found.head.epoch,
            next: found.head.next,
            shape,
            slots,
        }),
        Err(StoreStop::DiskFault) => Err(RootFault::DiskFault),
        Err(StoreStop::NoMemory) => Err(RootFault::NoMemory),
    }
}

// Reads the current root of a file of this length, which is long enough for a store.
fn root_of<W: Station>(alloc: Global, w: &mut W, len: u64) -> Result<Root, RootFault>
    requires len { IfSome (W.content w.old) (λ c. length c ≡ len) }
    requires long { journal_end ≤ len }
    ensures root { IfOk result (λ root. IfSome (W.content w.old) (HasRoot root)) }
    ensures limits { IfOk result (λ root. IsWithinLimits root) }
    ensures refused { IfErr result (λ fault. IfSome (W.content w.old) (IsRootRefusal fault)) }
    ensures reads { OnlyReads W.now W.content W.history W.speak_faults w.old w.new }
    ensures cause { HasCauseIf (W.disk_faults w.old) (W.disk_faults w.new) (is_root_disk_fault result) }
{
    let found = match read_current(w) {
        Ok(found) => found,
        Err(fault) => return Err(fault),
    };
    match test_head(found) {
        Ok(()) => read_fields(alloc, w, len, found),
        Err(fault) => Err(fault),
    }
}

/// Reads the current root of a store, and tests it.
pub fn read_root<W: Station>(alloc: Global, w: &mut W) -> Result<Root, RootFault>
    ensures root { IfOk result (λ root. IfSome (W.content w.old) (HasRoot root)) }
    ensures limits { IfOk result (λ root. IsWithinLimits root) }
    ensures refused { IfErr result (λ fault. IfSome (W.content w.old) (IsRootRefusal fault)) }
    ensures reads { OnlyReads W.now W.content W.history W.speak_faults w.old w.new }
    ensures cause { HasCauseIf (W.disk_faults w.old) (W.disk_faults w.new) (is_root_disk_fault result) }
{
    let Ok(len) = w.len() else {
        return Err(RootFault::DiskFault);
    };
    if len < FIRST_SLOT {
        return Err(RootFault::NotAStore);
    }
    root_of(alloc, w, len)
}
