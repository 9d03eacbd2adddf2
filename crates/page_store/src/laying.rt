// Pages and the next root are written where nothing of the current one stands.
ghost use Rattle.std.specs.Prelude.{ℕ, ◌≡◌, ◌≢◌, ◌↔◌, ◌+◌, ◌<◌, ◌≤◌, ◌^◌, IfOk, IsTrue, List, OnOk, length, slice_index, take};
ghost use Rattle.std.specs.declared.option.Option.{Option};
ghost use Rattle.std.specs.Option.{option_map};
ghost use Rattle.pss_base.specs.Causes.{HasCause};
ghost use Rattle.pss_disk.specs.Images.{IsQuiet, Keeps, Stretch};
ghost use Rattle.pss_disk.specs.Moments.{IsSettled, Moment, Through};
ghost use Rattle.page_store.specs.Switch.{slots_of};
ghost use Rattle.page_format.specs.Written.{AreWritable, with_pages, with_root};
ghost use Rattle.page_format.specs.declared.new_page.NewPage.{NewPage as Page};
ghost use Rattle.page_store.specs.inner.Laying.{IsApart, IsLeft, IsRun};

use page_format::layout::{AREA, FIRST_SLOT, PAGE, SLOT_LIST};
use page_format::{Buffer, NewPage, Root, put_pages, put_root, put_slots};
use pss_base::Failed;
use pss_disk::Station;

// How many pages are written at once, where they stand one behind the other.
const MOST_AT_ONCE: usize = 8;

/// The size of a buffer for them. It is enough for what is written of a root area.
pub const BUFFER: usize = 131072;

// Whether a page stands as far behind the first one as in the list.
fn is_next(pages: &[NewPage], k: usize) -> bool
    requires { k < length pages.now }
    ensures { IsTrue result ↔ (slice_index (slots_of pages.now) k ≡ slice_index (slots_of pages.now) 0 + k) }
{
    pages[k].slot as u64 == pages[0].slot as u64 + k as u64
}

// How many of these pages stand one behind the other, up to as many as are written at once.
fn run_of(pages: &[NewPage]) -> usize
    requires { 0 < length pages.now }
    ensures some { 0 < result }
    ensures within { result ≤ length pages.now }
    ensures most { result ≤ 8 }
    ensures run { IsRun (slice_index (slots_of pages.now) 0) (take result pages.now) }
    ensures whole { result < length pages.now → result < 8 → slice_index (slots_of pages.now) result ≢ slice_index (slots_of pages.now) 0 + result }
{
    let mut count = 1;
    while count < pages.len() && count < MOST_AT_ONCE && is_next(pages, count) {
        count += 1;
    }
    count
}

// Writes the first pages that stand one behind the other, and answers their number.
fn write_run<W: Station>(
    w: &mut W,
    buffer: &mut Buffer,
    epoch: u64,
    pages: &[NewPage],
) -> Result<usize, Failed>
    requires some { 0 < length pages.now }
    requires size { 131072 ≤ buffer.old.size }
    requires writable { AreWritable pages.now }
    ensures size { buffer.new.size ≡ buffer.old.size }
    ensures within { IfOk result (λ n. (0 < n) × (n ≤ length pages.now)) }
    ensures content { IfOk result (λ n. W.content w.new ≡ option_map (with_pages epoch (take n pages.now)) (W.content w.old)) }
    ensures stretch { (area : ℕ) (all : List Page) (content : Option (List ℕ)) (first : Moment) (before : List Moment) → ((i : ℕ) → IsApart all i → IsApart pages.now i) → Stretch (IsLeft area all) content first before (W.history w.old) (W.now w.old) → Stretch (IsLeft area all) content first before (W.history w.new) (W.now w.new) }
    ensures cause { HasCause (W.disk_faults w.old) (W.disk_faults w.new) result }
    ensures other { W.speak_faults w.new ≡ W.speak_faults w.old }
{
    let count = run_of(pages);
    buffer.clear();
    put_pages(buffer, epoch, &pages[..count]);
    w.write_at(FIRST_SLOT + pages[0].slot as u64 * PAGE, buffer.as_slice())?;
    Ok(count)
}

// Writes pages into their slots.
fn write_pages<W: Station>(
    w: &mut W,
    buffer: &mut Buffer,
    epoch: u64,
    pages: &[NewPage],
) -> Result<(), Failed>
    requires size { 131072 ≤ buffer.old.size }
    requires writable { AreWritable pages.now }
    ensures size { buffer.new.size ≡ buffer.old.size }
    ensures content { OnOk result (W.content w.new ≡ option_map (with_pages epoch pages.now) (W.content w.old)) }
    ensures stretch { (area : ℕ) (content : Option (List ℕ)) (first : Moment) (before : List Moment) → Stretch (IsLeft area pages.now) content first before (W.history w.old) (W.now w.old) → Stretch (IsLeft area pages.now) content first before (W.history w.new) (W.now w.new) }
    ensures cause { HasCause (W.disk_faults w.old) (W.disk_faults w.new) result }
    ensures other { W.speak_faults w.new ≡ W.speak_faults w.old }
{
    let mut k = 0;
    'runs: while k < pages.len() {
        k += write_run(w, buffer, epoch, &pages[k..])?;
    }
    Ok(())
}

// Writes a root into its area, but for its gate.
fn write_root<W: Station>(w: &mut W, buffer: &mut Buffer, root: &Root) -> Result<(), Failed>
    requires size { 131072 ≤ buffer.old.size }
    requires area { root.now.area ≤ 1 }
    requires shape { length root.now.shape ≤ 65536 }
    requires slots { length root.now.slots ≤ 8058 }
    ensures next { root.now.next < 2 ^ 64 }
    ensures content { OnOk result (W.content w.new ≡ option_map (with_root root.now) (W.content w.old)) }
    ensures stretch { (pages : List Page) (content : Option (List ℕ)) (first : Moment) (before : List Moment) → Stretch (IsLeft root.now.area pages) content first before (W.history w.old) (W.now w.old) → Stretch (IsLeft root.now.area pages) content first before (W.history w.new) (W.now w.new) }
    ensures cause { HasCause (W.disk_faults w.old) (W.disk_faults w.new) result }
    ensures other { W.speak_faults w.new ≡ W.speak_faults w.old }
{
    let start = root.area as u64 * AREA;
    buffer.clear();
    put_root(buffer, root);
    w.write_at(start + 1, buffer.as_slice())?;
    buffer.clear();
    put_slots(buffer, root.slots.as_slice());
    w.write_at(start + SLOT_LIST, buffer.as_slice())?;
    Ok(())
}

/// Writes pages into their slots and a root into its area, but for its gate, and makes sure of them. At each moment all
/// other places are as they were.
pub fn lay_root<W: Station>(
    w: &mut W,
    buffer: &mut Buffer,
    root: &Root,
    pages: &[NewPage],
) -> Result<(), Failed>
    requires size { 131072 ≤ buffer.old.size }
    requires area { root.now.area ≤ 1 }
    requires shape { length root.now.shape ≤ 65536 }
    requires slots { length root.now.slots ≤ 8058 }
    requires writable { AreWritable pages.now }
    requires settled { IsSettled (W.content w.old) (W.now w.old) }
    ensures next { OnOk result (root.now.next < 2 ^ 64) }
    ensures content { OnOk result (W.content w.new ≡ option_map (λ c. with_root root.now (with_pages root.now.epoch pages.now c)) (W.content w.old)) }
    ensures settled { OnOk result (IsSettled (W.content w.new) (W.now w.new)) }
    ensures images { Through (W.history w.old) (W.history w.new) (Keeps (IsLeft root.now.area pages.now) (W.content w.old)) }
    ensures quiet { Through (W.history w.old) (W.history w.new) (IsQuiet (W.now w.old)) }
    ensures said { IsQuiet (W.now w.old) (W.now w.new) }
    ensures cause { HasCause (W.disk_faults w.old) (W.disk_faults w.new) result }
    ensures other { W.speak_faults w.new ≡ W.speak_faults w.old }
{
    write_pages(w, buffer, root.epoch, pages)?;
    write_root(w, buffer, root)?;
    w.sync()?;
    Ok(())
}
