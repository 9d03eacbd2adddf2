// Pages are read again.
ghost use Rattle.std.specs.Prelude.{ℕ, ◌≡◌, ◌^◌, ◌<◌, length, slice_index, All, Err, IfOk, IfSome};
ghost use Rattle.pss_base.specs.Causes.{HasCauseIf};
ghost use Rattle.pss_disk.specs.Reading.{OnlyReads};
ghost use Rattle.page_format.specs.Objects.{IsRightPut};
ghost use Rattle.page_format.specs.Pages.{ArePages};
ghost use Rattle.page_store.specs.Kept.{rows_in};
ghost use Rattle.page_store.specs.declared.stop.PlanStop.TheVariants.{Lost as AreLost};
ghost use Rattle.page_store.specs.inner.Lost.{is_plan_disk_fault};

use crate::stop::PlanStop;
use page_format::{PageFault, gather};
use pss_base::Puts;
use pss_disk::Station;
use std::alloc::Global;

/// Reads pages again that were read or written before, and answers the objects in them.
pub fn reread<W: Station>(alloc: Global, w: &mut W, slots: &[u32]) -> Result<Puts, PlanStop>
    requires { (k : ℕ) → k < length slots.now → slice_index slots.now k < 16384 }
    ensures rows { IfOk result (λ rows. IfSome (W.content w.old) (λ c. rows ≡ rows_in c slots.now)) }
    ensures right { IfOk result (λ rows. All IsRightPut rows) }
    ensures lost { result ≡ Err AreLost → IfSome (W.content w.old) (λ c. (next : ℕ) → next < 2 ^ 64 → ArePages next slots.now c → ⊥) }
    ensures reads { OnlyReads W.now W.content W.history W.speak_faults w.old w.new }
    ensures cause { HasCauseIf (W.disk_faults w.old) (W.disk_faults w.new) (is_plan_disk_fault result) }
{
    if slots.is_empty() {
        return Ok(Puts::new(alloc));
    }
    match gather(alloc, w, slots, u64::MAX) {
        Ok(gathered) => Ok(gathered.rows),
        Err(PageFault::Damaged(_, _)) => Err(PlanStop::Lost),
        Err(PageFault::DiskFault) => Err(PlanStop::DiskFault),
        Err(PageFault::NoMemory) => Err(PlanStop::NoMemory),
    }
}
