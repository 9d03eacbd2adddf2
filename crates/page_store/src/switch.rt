// The root of a store is followed by the next one.
ghost use Rattle.std.specs.Prelude.{ℕ, ◌≡◌, ◌≢◌, ◌+◌, ◌≤◌, is_some, IfErr, IfSome, List, OnOk};
ghost use Rattle.std.specs.Option.{option_map};
ghost use Rattle.pss_base.specs.Causes.{HasCause, HasCauseIf};
ghost use Rattle.pss_base.specs.declared.stop.StoreStop.TheVariants as stop;
ghost use Rattle.pss_disk.specs.Images.{IsQuiet};
ghost use Rattle.pss_disk.specs.Moments.{IsSettled, Through};
ghost use Rattle.pss_disk.specs.Reading.{OnlyReads};
ghost use Rattle.redo_journal.specs.Journal.{IsClosed, journal_start};
ghost use Rattle.page_format.specs.Faults.{is_disk_stop};
ghost use Rattle.page_format.specs.Places.{area_start};
ghost use Rattle.page_format.specs.Roots.{IsWithinLimits};
ghost use Rattle.page_store.specs.Stores.{AllHave, IsEmptied};
ghost use Rattle.page_store.specs.Switch.{HasOld, HasPages, IsEither, IsNextOf, IsWritten, MayFollow, Next, Old};
ghost use Rattle.page_format.specs.Written.{AreWritable, with_pages, with_root};
ghost use Rattle.page_store.specs.inner.Switching.{Becomes, IsEntered, IsReady, LaysReady, MakesReady, MayBeLaid};

use crate::gates::{close_journal, close_other, open_other};
use crate::laying::{BUFFER, lay_root};
use page_format::{Buffer, NewPage, Root};
use pss_base::{Failed, StoreStop};
use pss_disk::Station;
use std::alloc::Global;

// Writes new pages and the next root behind its gate, and makes sure of them.
fn write_new<W: Station>(
    w: &mut W,
    buffer: &mut Buffer,
    new: &Root,
    pages: &[NewPage],
) -> Result<(), Failed>
    requires size { 131072 ≤ buffer.old.size }
    requires limits { IsWithinLimits new.now }
    requires pages { AreWritable pages.now }
    requires settled { IsSettled (W.content w.old) (W.now w.old) }
    ensures stores { (old : Old) (next : Next) → IsNextOf old next new.now pages.now → IfSome (W.content w.old) (MayBeLaid old next) → Through (W.history w.old) (W.history w.new) (AllHave (HasOld old)) }
    ensures ready { OnOk result ((old : Old) (next : Next) → IsNextOf old next new.now pages.now → LaysReady old next (W.content w.old) (W.content w.new)) }
    ensures content { OnOk result (W.content w.new ≡ option_map (λ c. with_root new.now (with_pages new.now.epoch pages.now c)) (W.content w.old)) }
    ensures settled { OnOk result (IsSettled (W.content w.new) (W.now w.new)) }
    ensures quiet { Through (W.history w.old) (W.history w.new) (IsQuiet (W.now w.old)) }
    ensures said { IsQuiet (W.now w.old) (W.now w.new) }
    ensures cause { HasCause (W.disk_faults w.old) (W.disk_faults w.new) result }
    ensures other { W.speak_faults w.new ≡ W.speak_faults w.old }
{
    lay_root(w, buffer, new, pages)
}

// Closes the gate of the area that is not current, and writes the next root behind it.
fn prepare_root<W: Station>(
    w: &mut W,
    buffer: &mut Buffer,
    new: &Root,
    pages: &[NewPage],
) -> Result<(), Failed>
    requires size { 131072 ≤ buffer.old.size }
    requires limits { IsWithinLimits new.now }
    requires pages { AreWritable pages.now }
    requires settled { IsSettled (W.content w.old) (W.now w.old) }
    ensures stores { (old : Old) (next : Next) → IsNextOf old next new.now pages.now → IfSome (W.content w.old) (MayFollow old next) → Through (W.history w.old) (W.history w.new) (AllHave (HasOld old)) }
    ensures ready { OnOk result ((old : Old) (next : Next) → IsNextOf old next new.now pages.now → MakesReady old next (W.content w.old) (W.content w.new)) }
    ensures laid { OnOk result (Becomes (λ i. i ≢ area_start new.now.area) (λ c. with_root new.now (with_pages new.now.epoch pages.now c)) (W.content w.old) (W.content w.new)) }
    ensures settled { OnOk result (IsSettled (W.content w.new) (W.now w.new)) }
    ensures quiet { Through (W.history w.old) (W.history w.new) (IsQuiet (W.now w.old)) }
    ensures said { IsQuiet (W.now w.old) (W.now w.new) }
    ensures cause { HasCause (W.disk_faults w.old) (W.disk_faults w.new) result }
    ensures other { W.speak_faults w.new ≡ W.speak_faults w.old }
{
    close_other(w, new.area)?;
    write_new(w, buffer, new, pages)?;
    Ok(())
}

// Opens the gate of the next root, and closes the first one of the journal.
fn enter_root<W: Station>(w: &mut W, area: u8) -> Result<(), Failed>
    requires area { area ≤ 1 }
    requires settled { IsSettled (W.content w.old) (W.now w.old) }
    ensures stores { (old : Old) (next : Next) (before : List ℕ) → old.root.area + area ≡ 1 → next.root.area ≡ area → IfSome (W.content w.old) (IsReady old next before) → Through (W.history w.old) (W.history w.new) (AllHave (IsEither old next)) }
    ensures entered { OnOk result ((old : Old) (next : Next) (before : List ℕ) → old.root.area + area ≡ 1 → next.root.area ≡ area → IfSome (W.content w.old) (IsReady old next before) → IfSome (W.content w.new) (IsEntered next before)) }
    ensures closed { OnOk result (IfSome (W.content w.new) (λ c. IsClosed c journal_start)) }
    ensures kept { OnOk result (Becomes (λ i. (i ≢ area_start area) × (i ≢ journal_start)) (λ c. c) (W.content w.old) (W.content w.new)) }
    ensures settled { OnOk result (IsSettled (W.content w.new) (W.now w.new)) }
    ensures quiet { Through (W.history w.old) (W.history w.new) (IsQuiet (W.now w.old)) }
    ensures said { IsQuiet (W.now w.old) (W.now w.new) }
    ensures cause { HasCause (W.disk_faults w.old) (W.disk_faults w.new) result }
    ensures other { W.speak_faults w.new ≡ W.speak_faults w.old }
{
    open_other(w, area)?;
    close_journal(w)?;
    Ok(())
}

// Switches the roots, with a buffer for what is written.
fn switch_with<W: Station>(
    w: &mut W,
    buffer: &mut Buffer,
    new: &Root,
    pages: &[NewPage],
) -> Result<(), Failed>
    requires size { 131072 ≤ buffer.old.size }
    requires limits { IsWithinLimits new.now }
    requires pages { AreWritable pages.now }
    requires settled { IsSettled (W.content w.old) (W.now w.old) }
    ensures stores { (old : Old) (next : Next) → IsNextOf old next new.now pages.now → IfSome (W.content w.old) (MayFollow old next) → Through (W.history w.old) (W.history w.new) (AllHave (IsEither old next)) }
    ensures entered { OnOk result ((old : Old) (next : Next) → IsNextOf old next new.now pages.now → IfSome (W.content w.old) (λ before. MayFollow old next before → IfSome (W.content w.new) (IsEntered next before))) }
    ensures closed { OnOk result (IfSome (W.content w.new) (λ c. IsClosed c journal_start)) }
    ensures written { OnOk result (IfSome (W.content w.old) (λ before. IfSome (W.content w.new) (IsWritten new.now pages.now before))) }
    ensures told { OnOk result (is_some (W.content w.new) ≡ is_some (W.content w.old)) }
    ensures settled { OnOk result (IsSettled (W.content w.new) (W.now w.new)) }
    ensures quiet { Through (W.history w.old) (W.history w.new) (IsQuiet (W.now w.old)) }
    ensures said { IsQuiet (W.now w.old) (W.now w.new) }
    ensures cause { HasCause (W.disk_faults w.old) (W.disk_faults w.new) result }
    ensures other { W.speak_faults w.new ≡ W.speak_faults w.old }
{
    prepare_root(w, buffer, new, pages)?;
    enter_root(w, new.area)?;
    Ok(())
}

/// Lets the next root follow the current one: closes the gate of its area; writes the new pages and the root behind that
/// gate; opens it; closes the first gate of the journal; and syncs after each of these. At each moment each image has
/// the old store and its journal as they were, or the next store and no record of its epoch.
///
/// After `Ok` the content has the next store, and nothing is pending. `NoMemory`: nothing was written. `DiskFault`: the
/// content is one of the images.
pub fn switch_roots<W: Station>(
    alloc: Global,
    w: &mut W,
    new: &Root,
    pages: &[NewPage],
) -> Result<(), StoreStop>
    requires limits { IsWithinLimits new.now }
    requires pages { AreWritable pages.now }
    requires settled { IsSettled (W.content w.old) (W.now w.old) }
    ensures stores { (old : Old) (next : Next) → IsNextOf old next new.now pages.now → IfSome (W.content w.old) (MayFollow old next) → Through (W.history w.old) (W.history w.new) (AllHave (IsEither old next)) }
    ensures switched { OnOk result ((old : Old) (next : Next) → IsNextOf old next new.now pages.now → IfSome (W.content w.old) (λ before. MayFollow old next before → IfSome (W.content w.new) (IsEmptied next.root next.objects))) }
    ensures placed { OnOk result ((old : Old) (next : Next) → IsNextOf old next new.now pages.now → IfSome (W.content w.old) (λ before. MayFollow old next before → IfSome (W.content w.new) (HasPages next before))) }
    ensures closed { OnOk result (IfSome (W.content w.new) (λ c. IsClosed c journal_start)) }
    ensures written { OnOk result (IfSome (W.content w.old) (λ before. IfSome (W.content w.new) (IsWritten new.now pages.now before))) }
    ensures told { OnOk result (is_some (W.content w.new) ≡ is_some (W.content w.old)) }
    ensures settled { OnOk result (IsSettled (W.content w.new) (W.now w.new)) }
    ensures memory { IfErr result (λ why. why ≡ stop.NoMemory → OnlyReads W.now W.content W.history W.speak_faults w.old w.new) }
    ensures quiet { Through (W.history w.old) (W.history w.new) (IsQuiet (W.now w.old)) }
    ensures said { IsQuiet (W.now w.old) (W.now w.new) }
    ensures cause { HasCauseIf (W.disk_faults w.old) (W.disk_faults w.new) (is_disk_stop result) }
    ensures other { W.speak_faults w.new ≡ W.speak_faults w.old }
{
    let Ok(mut buffer) = Buffer::of_size(alloc, BUFFER) else {
        return Err(StoreStop::NoMemory);
    };
    match switch_with(w, &mut buffer, new, pages) {
        Ok(()) => Ok(()),
        Err(_) => Err(StoreStop::DiskFault),
    }
}
