// The entries of pages are gathered.
ghost use Rattle.std.specs.Prelude.{ℕ, ◌≡◌, ◌≢◌, ◌↔◌, ◌+◌, ◌<◌, ◌≤◌, ◌++◌, ◌∷◌, [], IsTrue, length, map, Err, IfOk, None, OnOk, Some, slice_index};
ghost use Rattle.std.specs.Map.{keys_of};
ghost use Rattle.pss_base.specs.declared.damage.DamageKind.{DamageKind as Kind};
ghost use Rattle.pss_disk.specs.Parts.{number8};
ghost use Rattle.page_format.specs.PageDamage.{AreWrongEntries, IsWrongEntry};
ghost use Rattle.page_format.specs.Pages.{AreGiven, Fits, IsGiven, IsPage, IsPageHead, behind_entry, entries_of, entry_at, entry_count, octets_in_use, put_of, record_length, serials_of};
ghost use Rattle.page_format.specs.declared.stop.PageStop.TheVariants.{Damaged as DamagedAt};

use crate::layout::{ENTRIES, PAGE, RECORD};
use crate::page::{EntryHead, PageHead, read_entry};
use crate::places::{Places, add_place, no_places};
use crate::stop::PageStop;
use pss_base::{Bytes, DamageKind, NoMemory, Put, Puts};
use std::alloc::Global;

/// A page that was read: its octets and its slot, and the next serial, below which those of its entries stand.
#[derive(Clone, Copy)]
pub struct ReadPage<'a> {
    pub octets: &'a [u8],
    pub slot: u32,
    pub next: u64,
}

/// The entries of some pages.
#[derive(Drop)]
pub struct Gathered {
    alloc: Global,
    /// Which page holds each object.
    pub places: Places,
    /// The objects as they are stored.
    pub rows: Puts,
    /// The page that has little in use, where there is one.
    pub small: Option<u32>,
}

/// No entries. It takes no memory.
pub fn nothing(alloc: Global) -> Gathered
    ensures places { result.places.entries ≡ [] }
    ensures rows { result.rows ≡ [] }
    ensures small { result.small ≡ None }
{
    Gathered {
        alloc,
        places: no_places(alloc),
        rows: Puts::new(alloc),
        small: None,
    }
}

// Adds an object to the rows.
fn add_row(alloc: Global, rows: &mut Puts, entry: EntryHead, octets: &[u8]) -> Result<(), NoMemory>
    ensures { OnOk result (rows.new ≡ rows.old ++ (record { home = entry.home; serial = entry.serial; bytes = Some octets.now }) ∷ []) }
{
    let bytes = Bytes::from_slice(alloc, octets)?;
    rows.push(Put {
        home: entry.home,
        serial: entry.serial,
        bytes: Some(bytes),
    })
}

// Adds an object whose serial is given and new, and tells whether it is. Of one that is not no row is added.
fn add_entry(
    page: &ReadPage<'_>,
    entry: EntryHead,
    octets: &[u8],
    gathered: &mut Gathered,
) -> Result<bool, NoMemory>
    ensures given { IfOk result (λ is_given. IsTrue is_given ↔ IsGiven page.now.next (keys_of gathered.old.places.entries) entry.serial) }
    ensures places { IfOk result (λ is_given. IsTrue is_given → gathered.new.places.entries ≡ gathered.old.places.entries ++ (entry.serial, page.now.slot) ∷ []) }
    ensures rows { IfOk result (λ is_given. IsTrue is_given → gathered.new.rows ≡ gathered.old.rows ++ (record { home = entry.home; serial = entry.serial; bytes = Some octets.now }) ∷ []) }
    ensures small { gathered.new.small ≡ gathered.old.small }
{
    if entry.serial == 0 || entry.serial >= page.next {
        return Ok(false);
    }
    if !add_place(&mut gathered.places, entry.serial, page.slot)? {
        return Ok(false);
    }
    add_row(gathered.alloc, &mut gathered.rows, entry, octets)?;
    Ok(true)
}

// Gathers the entry at a place of a page, and answers the place behind it.
fn take_entry(
    page: &ReadPage<'_>,
    at: usize,
    end: usize,
    gathered: &mut Gathered,
) -> Result<usize, PageStop>
    requires page { length page.now.octets.now ≡ 16384 }
    requires end { end ≤ 16384 }
    requires at { at ≤ end }
    ensures fits { OnOk result (Fits end at (record_length page.now.octets.now at)) }
    ensures given { OnOk result (IsGiven page.now.next (keys_of gathered.old.places.entries) (number8 page.now.octets.now (at + 8))) }
    ensures behind { IfOk result (λ place. place ≡ behind_entry page.now.octets.now at) }
    ensures places { OnOk result (gathered.new.places.entries ≡ gathered.old.places.entries ++ ((entry_at page.now.octets.now at).serial, page.now.slot) ∷ []) }
    ensures rows { OnOk result (gathered.new.rows ≡ gathered.old.rows ++ put_of (entry_at page.now.octets.now at) ∷ []) }
    ensures small { gathered.new.small ≡ gathered.old.small }
    ensures damaged { (place : ℕ) (kind : Kind) → result ≡ Err (DamagedAt place kind) → (place ≡ at) × IsWrongEntry page.now.octets.now end page.now.next (keys_of gathered.old.places.entries) at kind }
{
    let Some(entry) = read_entry(page.octets, at, end) else {
        return Err(PageStop::Damaged(at as u32, DamageKind::Entry));
    };
    let behind = at + RECORD + entry.len as usize;
    match add_entry(page, entry, &page.octets[at + RECORD..behind], gathered) {
        Ok(true) => Ok(behind),
        Ok(false) => Err(PageStop::Damaged(at as u32, DamageKind::Serial)),
        Err(_) => Err(PageStop::NoMemory),
    }
}

/// Gathers the entries of a page.
pub fn take_entries(
    page: &ReadPage<'_>,
    head: PageHead,
    gathered: &mut Gathered,
) -> Result<(), PageStop>
    requires page { length page.now.octets.now ≡ 16384 }
    requires head { IsPageHead page.now.octets.now 0 page.now.slot }
    requires count { entry_count page.now.octets.now 0 ≡ head.count }
    requires used { octets_in_use page.now.octets.now 0 ≡ head.used }
    ensures whole { OnOk result (IsPage page.now.octets.now 0 page.now.slot) }
    ensures given { OnOk result (AreGiven page.now.next (keys_of gathered.old.places.entries) (serials_of (entries_of page.now.octets.now 0))) }
    ensures places { OnOk result (gathered.new.places.entries ≡ gathered.old.places.entries ++ map (λ e. (e.serial, page.now.slot)) (entries_of page.now.octets.now 0)) }
    ensures rows { OnOk result (gathered.new.rows ≡ gathered.old.rows ++ map put_of (entries_of page.now.octets.now 0)) }
    ensures small { gathered.new.small ≡ gathered.old.small }
    ensures damaged { (place : ℕ) (kind : Kind) → result ≡ Err (DamagedAt place kind) → AreWrongEntries page.now.octets.now 0 page.now.next (keys_of gathered.old.places.entries) place kind }
{
    let end = ENTRIES + head.used as usize;
    let mut at = ENTRIES;
    'entries: for k in 0..head.count {
        match take_entry(page, at, end, gathered) {
            Ok(behind) => at = behind,
            Err(stop) => return Err(stop),
        }
    }
    if at != end {
        return Err(PageStop::Damaged(at as u32, DamageKind::Entry));
    }
    Ok(())
}
