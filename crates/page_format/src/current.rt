// Which of the two roots is current.
ghost use Rattle.std.specs.Prelude.{ℕ, ◌≡◌, ◌↔◌, ◌+◌, ◌%◌, ◌^◌, ◌≤◌, IsTrue, List, false, length, IfErr, IfOk, IfSome};
ghost use Rattle.pss_base.specs.Causes.{HasCauseIf};
ghost use Rattle.pss_disk.specs.Reading.{OnlyReads};
ghost use Rattle.redo_journal.specs.Journal.{journal_end};
ghost use Rattle.page_format.specs.Faults.{is_root_disk_fault};
ghost use Rattle.page_format.specs.Refusals.{IsRootRefusal};
ghost use Rattle.page_format.specs.inner.Heads.{IsHead};
ghost use Rattle.page_format.specs.inner.Current.{IsCurrentHead};

use crate::fault::RootFault;
use crate::head::{Head, read_head};
use crate::layout::AREA;
use pss_base::DamageKind;
use pss_disk::Station;

/// The head of the current root, and its area.
#[derive(Clone, Copy)]
pub struct Current {
    pub area: u8,
    pub head: Head,
}

// Whether an epoch is another one plus one.
fn follows(epoch: u64, other: u64) -> bool
    ensures { IsTrue result ↔ (epoch ≡ (other + 1) % 2 ^ 64) }
{
    epoch == other.wrapping_add(1)
}

// The one of two roots that follows the other.
fn newer(first: Head, second: Head) -> Result<Current, RootFault>
    requires first { IsTrue first.is_root }
    requires second { IsTrue second.is_root }
    ensures area { IfOk result (λ current. current.area ≤ 1) }
    ensures current { (image : List ℕ) → IsHead 0 first image → IsHead 1 second image → IfOk result (λ current. IsCurrentHead current image) }
    ensures refused { (image : List ℕ) → journal_end ≤ length image → IsHead 0 first image → IsHead 1 second image → IfErr result (λ fault. IsRootRefusal fault image) }
    ensures memory { is_root_disk_fault result ≡ false }
{
    if follows(second.epoch, first.epoch) {
        Ok(Current {
            area: 1,
            head: second,
        })
    } else if follows(first.epoch, second.epoch) {
        Ok(Current {
            area: 0,
            head: first,
        })
    } else {
        Err(RootFault::Damaged(AREA, DamageKind::Root))
    }
}

// The current one of two roots, either of which may be none.
fn choose(first: Head, second: Head) -> Result<Current, RootFault>
    ensures area { IfOk result (λ current. current.area ≤ 1) }
    ensures current { (image : List ℕ) → IsHead 0 first image → IsHead 1 second image → IfOk result (λ current. IsCurrentHead current image) }
    ensures refused { (image : List ℕ) → journal_end ≤ length image → IsHead 0 first image → IsHead 1 second image → IfErr result (λ fault. IsRootRefusal fault image) }
    ensures memory { is_root_disk_fault result ≡ false }
{
    if first.is_root {
        if second.is_root {
            newer(first, second)
        } else {
            Ok(Current {
                area: 0,
                head: first,
            })
        }
    } else if second.is_root {
        Ok(Current {
            area: 1,
            head: second,
        })
    } else {
        Err(RootFault::NotAStore)
    }
}

/// Reads the heads of both root areas, and answers the current one.
pub fn read_current<W: Station>(w: &mut W) -> Result<Current, RootFault>
    requires long { IfSome (W.content w.old) (λ c. journal_end ≤ length c) }
    ensures area { IfOk result (λ current. current.area ≤ 1) }
    ensures current { IfOk result (λ current. IfSome (W.content w.old) (IsCurrentHead current)) }
    ensures refused { IfErr result (λ fault. IfSome (W.content w.old) (IsRootRefusal fault)) }
    ensures reads { OnlyReads W.now W.content W.history W.speak_faults w.old w.new }
    ensures cause { HasCauseIf (W.disk_faults w.old) (W.disk_faults w.new) (is_root_disk_fault result) }
{
    let Ok(first) = read_head(w, 0) else {
        return Err(RootFault::DiskFault);
    };
    let Ok(second) = read_head(w, 1) else {
        return Err(RootFault::DiskFault);
    };
    choose(first, second)
}
