// Where the entry of a row stands.
ghost use Rattle.std.specs.Prelude.{ℕ, ◌≡◌, ◌+◌, ◌^◌, ◌<◌, ◌≤◌, length, slice_index, IfOk, IfSome};
ghost use Rattle.pss_base.specs.Causes.{HasCause};
ghost use Rattle.pss_disk.specs.Octets.{disk_end};
ghost use Rattle.pss_disk.specs.Parts.{number4};
ghost use Rattle.pss_disk.specs.Reading.{OnlyReads};
ghost use Rattle.page_format.specs.Pages.{ArePages, IsPage, entries_start, entry_count, place_of};
ghost use Rattle.page_format.specs.Places.{slot_start};
ghost use Rattle.pss_recovery.specs.Loading.{entry_places};

use page_format::layout::{ENTRIES, ENTRY_COUNT, FIRST_SLOT, PAGE, RECORD, RECORD_LENGTH};
use pss_base::Failed;
use pss_disk::Station;

// The number in the four octets from a place on.
fn number_at<W: Station>(w: &mut W, at: u64) -> Result<u32, Failed>
    requires { at + 4 ≤ disk_end }
    ensures number { IfOk result (λ number. IfSome (W.content w.old) (λ c. number ≡ number4 c at)) }
    ensures reads { OnlyReads W.now W.content W.history W.speak_faults w.old w.new }
    ensures cause { HasCause (W.disk_faults w.old) (W.disk_faults w.new) result }
{
    let mut octets = [0; 4];
    w.read_at(at, &mut octets)?;
    Ok(u32::from_be_bytes(octets))
}

// The place behind so many entries of the page in a slot. A file that another process changed since it was read could lead anywhere,
// so the walk ends where the page does.
fn place_in<W: Station>(w: &mut W, slot: u32, count: u64) -> Result<u64, Failed>
    requires { slot < 16384 }
    ensures place { IfOk result (λ place. IfSome (W.content w.old) (λ c. IsPage c (slot_start slot) slot → count < entry_count c (slot_start slot) → place ≡ place_of count c (entries_start (slot_start slot)))) }
    ensures bounded { IfOk result (λ place. place < 2 ^ 40) }
    ensures reads { OnlyReads W.now W.content W.history W.speak_faults w.old w.new }
    ensures cause { HasCause (W.disk_faults w.old) (W.disk_faults w.new) result }
{
    let end = FIRST_SLOT + slot as u64 * PAGE + PAGE;
    let mut at = FIRST_SLOT + slot as u64 * PAGE + ENTRIES as u64;
    'entries: for k in 0..count {
        if at + RECORD as u64 > end {
            return Ok(at);
        }
        at += RECORD as u64 + number_at(w, at + RECORD_LENGTH as u64)? as u64;
    }
    Ok(at)
}

/// The place in the file of the entry with an index among those in the pages of some slots.
pub fn entry_place<W: Station>(w: &mut W, slots: &[u32], index: u64) -> Result<u64, Failed>
    requires { (k : ℕ) → k < length slots.now → slice_index slots.now k < 16384 }
    ensures place { IfOk result (λ place. IfSome (W.content w.old) (λ c. (next : ℕ) → ArePages next slots.now c → index < length (entry_places c slots.now) → place ≡ slice_index (entry_places c slots.now) index)) }
    ensures bounded { IfOk result (λ place. place < 2 ^ 40) }
    ensures reads { OnlyReads W.now W.content W.history W.speak_faults w.old w.new }
    ensures cause { HasCause (W.disk_faults w.old) (W.disk_faults w.new) result }
{
    let mut left = index;
    for slot in slots {
        let count = number_at(w, FIRST_SLOT + *slot as u64 * PAGE + ENTRY_COUNT as u64)?;
        if left < count as u64 {
            return place_in(w, *slot, left);
        }
        left -= count as u64;
    }
    Ok(FIRST_SLOT)
}
