// Entries are packed into pages.
ghost use Rattle.std.specs.Prelude.{◌≡◌, ◌+◌, ◌/◌, ◌<◌, ◌≤◌, ◌++◌, ◌∷◌, [], length, slice_index_or, slice_range, IfOk, IfSome, OnOk, Some};
ghost use Rattle.page_format.specs.Objects.{entries_left, entry_left};
ghost use Rattle.page_format.specs.Packing.{AreInARow, IsPacking, OnlyLastIsSmall, size_of, used_by};
ghost use Rattle.page_format.specs.Written.{AreStorable};
ghost use Rattle.page_format.specs.inner.Packing.{AreFilledUpTo};

use crate::entries::Entries;
use crate::layout::{MOST_USED, RECORD};
use pss_base::{NoMemory, Put};
use std::alloc::Global;

/// The page that is being filled: it has the entries from one change up to another one, and uses so many octets. Where the
/// serials of its entries stand in a row, the first one is kept.
#[derive(Clone, Copy)]
pub struct Filling {
    pub start: usize,
    pub end: usize,
    pub used: u32,
    pub row: Option<u64>,
}

/// The record that a change leaves; no octets where it removes its object.
#[inline(always)]
pub fn record_of(put: &Put) -> &[u8]
    ensures { result.now ≡ (entry_left put.now).octets }
{
    match &put.bytes {
        Some(octets) => octets.as_slice(),
        None => &[],
    }
}

// The octets that an entry takes.
fn size_of(put: &Put) -> u32
    requires { length (entry_left put.now).octets ≤ 8000 }
    ensures { result ≡ size_of (entry_left put.now) }
{
    (RECORD + record_of(put).len()) as u32
}

// The first of some serials in a row, where one more stands behind them.
#[inline(always)]
fn row_with(row: Option<u64>, count: usize, serial: u64) -> Option<u64>
    ensures { IfSome result (λ first. (row ≡ Some first) × (serial ≡ first + count)) }
{
    match row {
        Some(first) if serial >= first && serial - first == count as u64 => Some(first),
        _ => None,
    }
}

// Closes the page that is being filled, and begins one with the entry that comes next, which takes so many octets.
fn begin<'a>(
    pages: &mut Vec<Entries<'a>>,
    puts: &'a [Put],
    filling: Filling,
    size: u32,
    serial: u64,
) -> Result<Filling, NoMemory>
    requires there { filling.end < length puts.now }
    requires begun { filling.start ≤ filling.end }
    requires row { IfSome filling.row (λ first. AreInARow first (entries_left (slice_range puts.now filling.start filling.end))) }
    requires used { filling.used ≡ used_by (entries_left (slice_range puts.now filling.start filling.end)) }
    ensures closed { OnOk result (pages.new.items ≡ pages.old.items ++ entries_left (slice_range puts.now filling.start filling.end) ∷ []) }
    ensures filling { IfOk result (λ new. new ≡ record { start = filling.end; end = filling.end + 1; used = size; row = Some serial }) }
{
    let page = &puts[filling.start..filling.end];
    pages.push(Entries::of(page, filling.row, filling.used))?;
    Ok(Filling {
        start: filling.end,
        end: filling.end + 1,
        used: size,
        row: Some(serial),
    })
}

// Puts the entry that comes next behind those that are packed. Where the page that is being filled has no room for it, that
// page is closed and another one begun.
fn add<'a>(
    pages: &mut Vec<Entries<'a>>,
    puts: &'a [Put],
    filling: Filling,
    put: &Put,
) -> Result<Filling, NoMemory>
    requires there { filling.end < length puts.now }
    requires next { put.now ≡ slice_index_or puts.now filling.end put.now }
    requires short { length (entry_left put.now).octets ≤ 8000 }
    requires so_far { AreFilledUpTo puts.now pages.old.items filling }
    ensures filled { IfOk result (AreFilledUpTo puts.now pages.new.items) }
    ensures end { IfOk result (λ new. new.end ≡ filling.end + 1) }
{
    let size = size_of(put);
    if filling.used + size > MOST_USED {
        return begin(pages, puts, filling, size, put.serial);
    }
    Ok(Filling {
        start: filling.start,
        end: filling.end + 1,
        used: filling.used + size,
        row: row_with(filling.row, filling.end - filling.start, put.serial),
    })
}

// Closes the last page, where it has entries.
fn finish<'a>(
    mut pages: Vec<Entries<'a>>,
    puts: &'a [Put],
    filling: Filling,
) -> Result<Vec<Entries<'a>>, NoMemory>
    requires filled { AreFilledUpTo puts.now pages.items filling }
    requires all { filling.end ≡ length puts.now }
    ensures { IfOk result (λ all. IsPacking (entries_left puts.now) all.items) }
{
    if filling.used == 0 {
        return Ok(pages);
    }
    let page = &puts[filling.start..];
    pages.push(Entries::of(page, filling.row, filling.used))?;
    Ok(pages)
}

// The serial of the first change, where there is one.
fn first_serial(puts: &[Put]) -> Option<u64> {
    match puts.first() {
        Some(put) => Some(put.serial),
        None => None,
    }
}

/// Packs the entries that changes leave into pages. `NoMemory`: there was no room for the list.
pub fn pack(alloc: Global, puts: &[Put]) -> Result<Vec<Entries<'_>>, NoMemory>
    requires { AreStorable (entries_left puts.now) }
    ensures packed { IfOk result (λ pages. IsPacking (entries_left puts.now) pages.items) }
    ensures large { IfOk result (λ pages. OnlyLastIsSmall pages.items) }
    ensures few { IfOk result (λ pages. length pages.items ≤ used_by (entries_left puts.now) / 8328 + 1) }
{
    let mut pages = Vec::new(alloc);
    let mut filling = Filling {
        start: 0,
        end: 0,
        used: 0,
        row: first_serial(puts),
    };
    for put in puts {
        filling = match add(&mut pages, puts, filling, put) {
            Ok(filling) => filling,
            Err(stop) => return Err(stop),
        };
    }
    finish(pages, puts, filling)
}
