// The objects in pages with changes over them.
ghost use Rattle.std.specs.Prelude.{ℕ, ◌≡◌, ◌++◌, ◌^◌, ◌<◌, length, slice_index, All, Err, IfOk, IfSome, IsTrue};
ghost use Rattle.std.specs.FinMap.{empty, entries};
ghost use Rattle.pss_base.specs.Causes.{HasCauseIf};
ghost use Rattle.pss_disk.specs.Reading.{OnlyReads};
ghost use Rattle.page_store.specs.Kept.{rows_in};
ghost use Rattle.page_format.specs.Objects.{IsRightPut, entries_left, entries_of, over};
ghost use Rattle.page_format.specs.Pages.{ArePages};
ghost use Rattle.page_format.specs.Written.{AreStorable};
ghost use Rattle.page_format.specs.inner.Settling.{AreSettled};
ghost use Rattle.page_store.specs.declared.stop.PlanStop.TheVariants.{Lost as AreLost};
ghost use Rattle.page_store.specs.inner.Lost.{is_plan_disk_fault};

use crate::rereading::reread;
use crate::stop::PlanStop;
use page_format::settle;
use pss_base::{NoMemory, Put, Puts};
use pss_disk::Station;
use std::alloc::Global;

/// Changes that were noted, and whether they are settled as they stand.
#[derive(Drop)]
pub struct Noted {
    pub puts: Vec<Put>,
    pub settled: bool,
}

/// Reads the pages of these slots again, and answers what changes, made one after the other, leave of the objects in them, by
/// rising serial.
pub fn reread_with<W: Station>(
    alloc: Global,
    w: &mut W,
    slots: &[u32],
    noted: Noted,
) -> Result<Vec<Put>, PlanStop>
    requires below { (k : ℕ) → k < length slots.now → slice_index slots.now k < 16384 }
    requires noted { All IsRightPut noted.puts.items }
    requires settled { IsTrue noted.settled → (next : ℕ) × AreSettled noted.puts.items next noted.puts.items }
    ensures storable { IfOk result (λ puts. AreStorable (entries_left puts.items)) }
    ensures left { IfOk result (λ puts. IfSome (W.content w.old) (λ c. entries_left puts.items ≡ entries_of (entries (over (over empty (rows_in c slots.now)) noted.puts.items)))) }
    ensures lost { result ≡ Err AreLost → IfSome (W.content w.old) (λ c. (next : ℕ) → next < 2 ^ 64 → ArePages next slots.now c → ⊥) }
    ensures reads { OnlyReads W.now W.content W.history W.speak_faults w.old w.new }
    ensures cause { HasCauseIf (W.disk_faults w.old) (W.disk_faults w.new) (is_plan_disk_fault result) }
{
    let rows = match reread(alloc, w, slots) {
        Ok(rows) => rows,
        Err(stop) => return Err(stop),
    };
    match left_of(alloc, rows, noted) {
        Ok(puts) => Ok(puts),
        Err(_) => Err(PlanStop::NoMemory),
    }
}

// What changes, made one after the other, leave of the objects of some rows.
fn left_of(alloc: Global, rows: Puts, noted: Noted) -> Result<Vec<Put>, NoMemory>
    requires rows { All IsRightPut rows }
    requires noted { All IsRightPut noted.puts.items }
    requires settled { IsTrue noted.settled → (next : ℕ) × AreSettled noted.puts.items next noted.puts.items }
    ensures storable { IfOk result (λ puts. AreStorable (entries_left puts.items)) }
    ensures left { IfOk result (λ puts. entries_left puts.items ≡ entries_of (entries (over (over empty rows) noted.puts.items))) }
{
    let rows = rows.into_vec();
    if rows.is_empty() && noted.settled {
        return Ok(noted.puts);
    }
    match behind(rows, noted.puts) {
        Ok(changes) => settle(alloc, changes),
        Err(stop) => Err(stop),
    }
}

// Puts changes behind rows.
fn behind(mut rows: Vec<Put>, mut noted: Vec<Put>) -> Result<Vec<Put>, NoMemory>
    ensures { IfOk result (λ all. all.items ≡ rows.items ++ noted.items) }
{
    if rows.is_empty() {
        return Ok(noted);
    }
    rows.append(&mut noted)?;
    Ok(rows)
}
