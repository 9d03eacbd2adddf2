// The list of slots of a root area.
ghost use Rattle.std.specs.Prelude.{ℕ, ◌≡◌, ◌↔◌, ◌⊎◌, ◌+◌, ◌*◌, ◌<◌, ◌≤◌, IsTrue, true, false, length, slice_index, slice_index_or, IfOk, IfSome, IsNone};
ghost use Rattle.pss_base.specs.Causes.{HasCauseIf};
ghost use Rattle.pss_disk.specs.Parts.{number4};
ghost use Rattle.pss_disk.specs.Reading.{OnlyReads};
ghost use Rattle.page_format.specs.Faults.{is_disk_stop};
ghost use Rattle.page_format.specs.Places.{slot_end};
ghost use Rattle.page_format.specs.Roots.{IsWrongSlot, slot_in};

use crate::layout::{AREA, FIRST_SLOT, PAGE, SLOT_LIST, SLOTS};
use crate::marks::flags;
use crate::reading::read_octets;
use crate::slots::Slots;
use pss_base::{NoMemory, StoreStop};
use pss_disk::{Station, read_number4};
use std::alloc::Global;

// The numbers of four octets each.
fn slots_of(alloc: Global, octets: &[u8], count: usize) -> Result<Slots, StoreStop>
    requires { length octets.now ≡ count * 4 }
    ensures len { IfOk result (λ slots. length slots ≡ count) }
    ensures memory { is_disk_stop result ≡ false }
    ensures slots { IfOk result (λ slots. (k : ℕ) → k < count → number4 octets.now (k * 4) ≡ slice_index slots k) }
{
    let mut slots = Slots::with_room(alloc, count)?;
    for k in 0..count {
        slots.push(read_number4(octets, k * 4))?;
    }
    Ok(slots)
}

/// Reads so many slots.
pub fn read_slots<W: Station>(
    alloc: Global,
    w: &mut W,
    area: u8,
    count: u32,
) -> Result<Slots, StoreStop>
    requires area { area ≤ 1 }
    requires few { count ≤ 8058 }
    ensures len { IfOk result (λ slots. length slots ≡ count) }
    ensures slots { IfOk result (λ slots. IfSome (W.content w.old) (λ c. (k : ℕ) → k < count → slot_in c area k ≡ slice_index slots k)) }
    ensures reads { OnlyReads W.now W.content W.history W.speak_faults w.old w.new }
    ensures cause { HasCauseIf (W.disk_faults w.old) (W.disk_faults w.new) (is_disk_stop result) }
{
    let count = count as usize;
    match read_octets(alloc, w, area as u64 * AREA + SLOT_LIST, count * 4) {
        Ok(octets) => slots_of(alloc, &octets, count),
        Err(stop) => Err(stop),
    }
}

// Whether a slot is no page of a file of this length, or named before.
fn is_wrong(named: &[bool], slot: u32, len: u64) -> bool
    requires { length named.now ≡ 16384 }
    ensures { IsTrue result ↔ ((16384 ≤ slot) ⊎ (len < slot_end slot) ⊎ (slice_index_or named.now slot false ≡ true)) }
{
    slot >= SLOTS || len < FIRST_SLOT + slot as u64 * PAGE + PAGE || named[slot as usize]
}

/// The index of the first slot that is no page of a file of this length, or named before.
pub fn first_wrong(alloc: Global, slots: &[u32], len: u64) -> Result<Option<usize>, NoMemory>
    ensures none { IfOk result (λ found. IsNone found → (k : ℕ) → k < length slots.now → IsWrongSlot (slice_index slots.now) len k → ⊥) }
    ensures within { IfOk result (λ found. IfSome found (λ at. at < length slots.now)) }
    ensures wrong { IfOk result (λ found. IfSome found (λ at. IsWrongSlot (slice_index slots.now) len at)) }
    ensures first { IfOk result (λ found. IfSome found (λ at. (k : ℕ) → k < at → IsWrongSlot (slice_index slots.now) len k → ⊥)) }
{
    let mut named = flags(alloc, SLOTS as usize)?;
    for (k, slot) in slots.iter().enumerate() {
        if is_wrong(&named, *slot, len) {
            return Ok(Some(k));
        }
        named[*slot as usize] = true;
    }
    Ok(None)
}
