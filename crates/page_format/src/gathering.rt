// The pages of a root are read, one after another.
ghost use Rattle.std.specs.Prelude.{ℕ, ◌≡◌, ◌↔◌, ◌+◌, ◌*◌, ◌<◌, ◌≤◌, IsTrue, List, length, take, Err, IfErr, IfOk, IfSome, None, IsSome, OnOk, Some, false, slice_index};
ghost use Rattle.std.specs.Map.{keys_of};
ghost use Rattle.pss_base.specs.Causes.{HasCauseIf};
ghost use Rattle.pss_base.specs.declared.damage.DamageKind.{DamageKind as Kind};
ghost use Rattle.pss_base.specs.declared.damage.DamageKind.TheVariants.{Packing};
ghost use Rattle.pss_disk.specs.Reading.{OnlyReads};
ghost use Rattle.page_format.specs.Faults.{is_page_disk_fault};
ghost use Rattle.page_format.specs.Pages.{IsPageHead, entry_count, octets_in_use};
ghost use Rattle.page_format.specs.Places.{slot_start};
ghost use Rattle.page_format.specs.Refusals.{IsPageRefusal};
ghost use Rattle.page_format.specs.Rows.{AreRows};
ghost use Rattle.page_format.specs.declared.fault.PageFault.TheVariants.{Damaged};
ghost use Rattle.page_format.specs.inner.Copies.{IsCopy};
ghost use Rattle.page_format.specs.inner.Gathering.{AreAdded, AreGatheredOf, AreRowsSoFar, IsBadHere};
ghost use Rattle.page_format.specs.inner.Stops.{in_file};

use crate::fault::PageFault;
use crate::gathered::{Gathered, ReadPage, nothing, take_entries};
use crate::layout::{FIRST_SLOT, LITTLE, PAGE};
use crate::page::{PageHead, read_page_head};
use crate::reading::room;
use crate::stop::PageStop;
use pss_base::DamageKind;
use pss_disk::Station;
use std::alloc::Global;

// How many pages are read at once, where they stand one behind the other.
const MOST_AT_ONCE: usize = 8;

// Where the page in a slot begins.
fn start_of(slot: u32) -> u64
    requires { slot < 16384 }
    ensures { result ≡ slot_start slot }
{
    FIRST_SLOT + slot as u64 * PAGE
}

// The fault of a page in a slot, with its place in the file.
fn in_file(slot: u32, stop: PageStop) -> PageFault
    requires { slot < 16384 }
    ensures { result ≡ in_file slot stop }
{
    match stop {
        PageStop::Damaged(at, kind) => PageFault::Damaged(start_of(slot) + at as u64, kind),
        PageStop::NoMemory => PageFault::NoMemory,
    }
}

// Notes a page with so many octets in use.
fn note_small(gathered: &mut Gathered, slot: u32, used: u32) -> Result<(), DamageKind>
    ensures little { OnOk result (used ≤ 8328 → (gathered.old.small ≡ None) × (gathered.new.small ≡ Some slot)) }
    ensures more { OnOk result (8328 < used → gathered.new.small ≡ gathered.old.small) }
    ensures second { IfErr result (λ kind. (kind ≡ Packing) × (used ≤ 8328) × IsSome gathered.old.small) }
    ensures places { gathered.new.places.entries ≡ gathered.old.places.entries }
    ensures rows { gathered.new.rows ≡ gathered.old.rows }
{
    if used > LITTLE {
        return Ok(());
    }
    if gathered.small.is_some() {
        return Err(DamageKind::Packing);
    }
    gathered.small = Some(slot);
    Ok(())
}

// Gathers the entries of a page with a right head.
fn add_page(page: &ReadPage<'_>, head: PageHead, gathered: &mut Gathered) -> Result<(), PageFault>
    requires page { length page.now.octets.now ≡ 16384 }
    requires slot { page.now.slot < 16384 }
    requires head { IsPageHead page.now.octets.now 0 page.now.slot }
    requires count { entry_count page.now.octets.now 0 ≡ head.count }
    requires used { octets_in_use page.now.octets.now 0 ≡ head.used }
    ensures added { (image : List ℕ) → IsCopy (slot_start page.now.slot) 16384 page.now.octets.now image → OnOk result (AreAdded image page.now.next page.now.slot gathered.old.places.entries gathered.new.places.entries gathered.old.rows gathered.new.rows gathered.old.small gathered.new.small) }
    ensures damaged { (image : List ℕ) → IsCopy (slot_start page.now.slot) 16384 page.now.octets.now image → (at : ℕ) (kind : Kind) → result ≡ Err (Damaged at kind) → IsBadHere image page.now.next (keys_of gathered.old.places.entries) (IsSome gathered.old.small) page.now.slot at kind }
    ensures memory { is_page_disk_fault result ≡ false }
{
    match take_entries(page, head, gathered) {
        Ok(()) => {}
        Err(stop) => return Err(in_file(page.slot, stop)),
    }
    match note_small(gathered, page.slot, head.used) {
        Ok(()) => Ok(()),
        Err(kind) => Err(PageFault::Damaged(start_of(page.slot), kind)),
    }
}

// Gathers the entries of a page.
fn gather_page(page: &ReadPage<'_>, gathered: &mut Gathered) -> Result<(), PageFault>
    requires page { length page.now.octets.now ≡ 16384 }
    requires slot { page.now.slot < 16384 }
    ensures alone { (pages : ℕ) → AreRowsSoFar page.now.next pages gathered.old.places.entries gathered.old.rows → OnOk result (AreRowsSoFar page.now.next (pages + 1) gathered.new.places.entries gathered.new.rows) }
    ensures added { (image : List ℕ) → IsCopy (slot_start page.now.slot) 16384 page.now.octets.now image → OnOk result (AreAdded image page.now.next page.now.slot gathered.old.places.entries gathered.new.places.entries gathered.old.rows gathered.new.rows gathered.old.small gathered.new.small) }
    ensures damaged { (image : List ℕ) → IsCopy (slot_start page.now.slot) 16384 page.now.octets.now image → (at : ℕ) (kind : Kind) → result ≡ Err (Damaged at kind) → IsBadHere image page.now.next (keys_of gathered.old.places.entries) (IsSome gathered.old.small) page.now.slot at kind }
    ensures memory { is_page_disk_fault result ≡ false }
{
    match read_page_head(page.octets, page.slot) {
        Some(head) => add_page(page, head, gathered),
        None => Err(PageFault::Damaged(start_of(page.slot), DamageKind::Page)),
    }
}

// Slots whose pages are gathered in their order, those in front of the k-th already, and the next serial.
#[derive(Clone, Copy)]
struct Ahead<'a> {
    slots: &'a [u32],
    k: usize,
    next: u64,
}

// How many of these slots stand one behind the other, up to so many.
fn run_of(slots: &[u32], most: usize) -> usize
    requires some { 0 < length slots.now }
    requires most { 0 < most }
    ensures some { 0 < result }
    ensures within { result ≤ length slots.now }
    ensures most { result ≤ most }
    ensures run { (i : ℕ) → i < result → slice_index slots.now i ≡ slice_index slots.now 0 + i }
{
    let mut count = 1;
    while count < slots.len() && count < most && is_next(slots, count) {
        count += 1;
    }
    count
}

// Whether a slot stands as far behind the first one as in the list.
fn is_next(slots: &[u32], k: usize) -> bool
    requires { k < length slots.now }
    ensures { IsTrue result ↔ (slice_index slots.now k ≡ slice_index slots.now 0 + k) }
{
    slots[k] as u64 == slots[0] as u64 + k as u64
}

// Gathers the entries of pages that stand one behind the other, behind those of the slots before them.
fn add_pages(
    octets: &[u8],
    ahead: &Ahead<'_>,
    count: usize,
    gathered: &mut Gathered,
) -> Result<(), PageFault>
    requires octets { length octets.now ≡ count * 16384 }
    requires within { ahead.now.k + count ≤ length ahead.now.slots.now }
    requires slots { (i : ℕ) → i < length ahead.now.slots.now → slice_index ahead.now.slots.now i < 16384 }
    requires run { (i : ℕ) → i < count → slice_index ahead.now.slots.now (ahead.now.k + i) ≡ slice_index ahead.now.slots.now ahead.now.k + i }
    ensures alone { AreRowsSoFar ahead.now.next ahead.now.k gathered.old.places.entries gathered.old.rows → OnOk result (AreRowsSoFar ahead.now.next (ahead.now.k + count) gathered.new.places.entries gathered.new.rows) }
    ensures gathered { (image : List ℕ) → IsCopy (slot_start (slice_index ahead.now.slots.now ahead.now.k)) (count * 16384) octets.now image → AreGatheredOf ahead.now.next (take ahead.now.k ahead.now.slots.now) gathered.old.places.entries gathered.old.rows gathered.old.small image → OnOk result (AreGatheredOf ahead.now.next (take (ahead.now.k + count) ahead.now.slots.now) gathered.new.places.entries gathered.new.rows gathered.new.small image) }
    ensures refused { (image : List ℕ) → IsCopy (slot_start (slice_index ahead.now.slots.now ahead.now.k)) (count * 16384) octets.now image → AreGatheredOf ahead.now.next (take ahead.now.k ahead.now.slots.now) gathered.old.places.entries gathered.old.rows gathered.old.small image → IfErr result (λ fault. IsPageRefusal ahead.now.next ahead.now.slots.now fault image) }
    ensures memory { is_page_disk_fault result ≡ false }
{
    'pages: for i in 0..count {
        let page = ReadPage {
            octets: &octets[i * PAGE as usize..i * PAGE as usize + PAGE as usize],
            slot: ahead.slots[ahead.k + i],
            next: ahead.next,
        };
        match gather_page(&page, gathered) {
            Ok(()) => {}
            Err(fault) => return Err(fault),
        }
    }
    Ok(())
}

// Reads pages from the k-th slot on that stand one behind the other, gathers their entries, and answers the number of
// slots whose pages were gathered.
fn take_run<W: Station>(
    w: &mut W,
    octets: &mut [u8],
    ahead: &Ahead<'_>,
    gathered: &mut Gathered,
) -> Result<usize, PageFault>
    requires octets { length octets.old ≡ 131072 }
    requires within { ahead.now.k < length ahead.now.slots.now }
    requires slots { (i : ℕ) → i < length ahead.now.slots.now → slice_index ahead.now.slots.now i < 16384 }
    requires so_far { IfSome (W.content w.old) (AreGatheredOf ahead.now.next (take ahead.now.k ahead.now.slots.now) gathered.old.places.entries gathered.old.rows gathered.old.small) }
    requires alone { AreRowsSoFar ahead.now.next ahead.now.k gathered.old.places.entries gathered.old.rows }
    ensures onward { IfOk result (λ n. (ahead.now.k < n) × (n ≤ length ahead.now.slots.now)) }
    ensures alone { IfOk result (λ n. AreRowsSoFar ahead.now.next n gathered.new.places.entries gathered.new.rows) }
    ensures gathered { IfOk result (λ n. IfSome (W.content w.old) (AreGatheredOf ahead.now.next (take n ahead.now.slots.now) gathered.new.places.entries gathered.new.rows gathered.new.small)) }
    ensures refused { IfErr result (λ fault. IfSome (W.content w.old) (IsPageRefusal ahead.now.next ahead.now.slots.now fault)) }
    ensures reads { OnlyReads W.now W.content W.history W.speak_faults w.old w.new }
    ensures cause { HasCauseIf (W.disk_faults w.old) (W.disk_faults w.new) (is_page_disk_fault result) }
{
    let count = run_of(&ahead.slots[ahead.k..], MOST_AT_ONCE);
    let pages = &mut octets[..count * PAGE as usize];
    let Ok(()) = w.read_at(start_of(ahead.slots[ahead.k]), pages) else {
        return Err(PageFault::DiskFault);
    };
    match add_pages(pages, ahead, count, gathered) {
        Ok(()) => Ok(ahead.k + count),
        Err(fault) => Err(fault),
    }
}

// Reads the pages of all slots from the k-th on.
fn take_pages<W: Station>(
    w: &mut W,
    octets: &mut [u8],
    ahead: &Ahead<'_>,
    gathered: &mut Gathered,
) -> Result<(), PageFault>
    requires octets { length octets.old ≡ 131072 }
    requires within { ahead.now.k ≤ length ahead.now.slots.now }
    requires slots { (i : ℕ) → i < length ahead.now.slots.now → slice_index ahead.now.slots.now i < 16384 }
    requires so_far { IfSome (W.content w.old) (AreGatheredOf ahead.now.next (take ahead.now.k ahead.now.slots.now) gathered.old.places.entries gathered.old.rows gathered.old.small) }
    requires alone { AreRowsSoFar ahead.now.next ahead.now.k gathered.old.places.entries gathered.old.rows }
    ensures alone { OnOk result (AreRowsSoFar ahead.now.next (length ahead.now.slots.now) gathered.new.places.entries gathered.new.rows) }
    ensures gathered { OnOk result (IfSome (W.content w.old) (AreGatheredOf ahead.now.next ahead.now.slots.now gathered.new.places.entries gathered.new.rows gathered.new.small)) }
    ensures refused { IfErr result (λ fault. IfSome (W.content w.old) (IsPageRefusal ahead.now.next ahead.now.slots.now fault)) }
    ensures reads { OnlyReads W.now W.content W.history W.speak_faults w.old w.new }
    ensures cause { HasCauseIf (W.disk_faults w.old) (W.disk_faults w.new) (is_page_disk_fault result) }
{
    let mut k = ahead.k;
    'pages: while k < ahead.slots.len() {
        let rest = Ahead {
            slots: ahead.slots,
            k,
            next: ahead.next,
        };
        match take_run(w, octets, &rest, gathered) {
            Ok(n) => k = n,
            Err(fault) => return Err(fault),
        }
    }
    Ok(())
}

/// Reads the pages of these slots, in their order, and gathers their entries. Up to eight that stand one behind the other
/// are read at once.
pub fn gather<W: Station>(
    alloc: Global,
    w: &mut W,
    slots: &[u32],
    next: u64,
) -> Result<Gathered, PageFault>
    requires { (k : ℕ) → k < length slots.now → slice_index slots.now k < 16384 }
    ensures alone { IfOk result (λ gathered. AreRows next (length slots.now) gathered.rows) }
    ensures gathered { IfOk result (λ gathered. IfSome (W.content w.old) (AreGatheredOf next slots.now gathered.places.entries gathered.rows gathered.small)) }
    ensures refused { IfErr result (λ fault. IfSome (W.content w.old) (IsPageRefusal next slots.now fault)) }
    ensures reads { OnlyReads W.now W.content W.history W.speak_faults w.old w.new }
    ensures cause { HasCauseIf (W.disk_faults w.old) (W.disk_faults w.new) (is_page_disk_fault result) }
{
    let Ok(mut octets) = room(alloc, MOST_AT_ONCE * PAGE as usize) else {
        return Err(PageFault::NoMemory);
    };
    let mut gathered = nothing(alloc);
    let ahead = Ahead { slots, k: 0, next };
    match take_pages(w, &mut octets, &ahead, &mut gathered) {
        Ok(()) => Ok(gathered),
        Err(fault) => Err(fault),
    }
}
