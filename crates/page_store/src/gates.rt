// Gates of a store are closed and opened.
ghost use Rattle.std.specs.Prelude.{ℕ, ◌≡◌, ◌≢◌, ◌⊎◌, ◌↔◌, ◌+◌, ◌<◌, ◌≤◌, ◌∷◌, [], IsTrue, IfOk, IfSome, List, OnOk};
ghost use Rattle.std.specs.Option.{option_map};
ghost use Rattle.pss_base.specs.Causes.{HasCause};
ghost use Rattle.pss_disk.specs.Images.{IsQuiet, Keeps};
ghost use Rattle.pss_disk.specs.Moments.{IsSettled, Through};
ghost use Rattle.pss_disk.specs.Octets.{StaysOutside, disk_end, range_of, write};
ghost use Rattle.pss_disk.specs.Reading.{OnlyReads};
ghost use Rattle.redo_journal.specs.Journal.{Holds, IsClosed, IsOpen, Position, journal_start};
ghost use Rattle.page_format.specs.Pages.{Entry};
ghost use Rattle.page_format.specs.Places.{area_start};
ghost use Rattle.page_store.specs.Stores.{AllHave, HasStore, IsEmptied, IsJournal, IsPrepared, IsSwitched};
ghost use Rattle.page_format.specs.declared.root.Root.{Root};
ghost use Rattle.page_store.specs.Gates.{IsAnywhere};

use page_format::layout::AREA;
use pss_base::Failed;
use pss_disk::{Station, set_gate};
use redo_journal::{CLOSED, JOURNAL_START, OPEN};

// Whether a gate is open.
fn is_open<W: Station>(w: &mut W, gate: u64) -> Result<bool, Failed>
    requires { gate < disk_end }
    ensures open_ { IfOk result (λ open_. IfSome (W.content w.old) (λ c. IsTrue open_ ↔ IsOpen c gate)) }
    ensures reads { OnlyReads W.now W.content W.history W.speak_faults w.old w.new }
    ensures cause { HasCause (W.disk_faults w.old) (W.disk_faults w.new) result }
{
    let mut octet = [0; 1];
    w.read_at(gate, &mut octet)?;
    Ok(octet[0] == OPEN)
}

// Makes sure of a content of which nothing is pending. The gate that was read may be what a run left that was killed before its sync:
// the system shows it then, and no contract tells whether the disk has it.
fn make_sure<W: Station>(w: &mut W) -> Result<(), Failed>
    requires settled { IsSettled (W.content w.old) (W.now w.old) }
    ensures content { W.content w.new ≡ W.content w.old }
    ensures settled { OnOk result (IsSettled (W.content w.new) (W.now w.new)) }
    ensures images { Through (W.history w.old) (W.history w.new) (Keeps IsAnywhere (W.content w.old)) }
    ensures quiet { Through (W.history w.old) (W.history w.new) (IsQuiet (W.now w.old)) }
    ensures said { IsQuiet (W.now w.old) (W.now w.new) }
    ensures cause { HasCause (W.disk_faults w.old) (W.disk_faults w.new) result }
    ensures other { W.speak_faults w.new ≡ W.speak_faults w.old }
{
    w.sync()?;
    Ok(())
}

/// Closes a gate where it is open, and makes sure of it. Where it is closed already, nothing is written. At each moment a crash
/// leaves all other octets of the content as they are. `Failed`: the gate may be open or closed.
pub fn close_gate<W: Station>(w: &mut W, gate: u64) -> Result<(), Failed>
    requires within { gate < disk_end }
    requires settled { IsSettled (W.content w.old) (W.now w.old) }
    ensures closed { OnOk result (IfSome (W.content w.new) (λ c. IsClosed c gate)) }
    ensures content { OnOk result ((W.content w.new ≡ W.content w.old) ⊎ (W.content w.new ≡ option_map (write gate (0 ∷ [])) (W.content w.old))) }
    ensures stays { StaysOutside (range_of gate (0 ∷ [])) (W.content w.old) (W.content w.new) }
    ensures same { IfSome (W.content w.old) (λ c. IsClosed c gate → W.content w.new ≡ W.content w.old) }
    ensures settled { OnOk result (IsSettled (W.content w.new) (W.now w.new)) }
    ensures images { Through (W.history w.old) (W.history w.new) (Keeps (λ i. i ≢ gate) (W.content w.old)) }
    ensures still { IfSome (W.content w.old) (λ c. IsClosed c gate) → Through (W.history w.old) (W.history w.new) (Keeps IsAnywhere (W.content w.old)) }
    ensures quiet { Through (W.history w.old) (W.history w.new) (IsQuiet (W.now w.old)) }
    ensures said { IsQuiet (W.now w.old) (W.now w.new) }
    ensures cause { HasCause (W.disk_faults w.old) (W.disk_faults w.new) result }
    ensures other { W.speak_faults w.new ≡ W.speak_faults w.old }
{
    match is_open(w, gate) {
        Ok(true) => set_gate(w, gate, CLOSED),
        Ok(false) => make_sure(w),
        Err(failed) => Err(failed),
    }
}

/// Closes the gate of the root area that is not current. At each moment each image has the store that was there.
pub fn close_other<W: Station>(w: &mut W, other: u8) -> Result<(), Failed>
    requires other { other ≤ 1 }
    requires settled { IsSettled (W.content w.old) (W.now w.old) }
    ensures stores { (root : Root) (objects : List Entry) → root.area + other ≡ 1 → IfSome (W.content w.old) (HasStore root objects) → Through (W.history w.old) (W.history w.new) (AllHave (HasStore root objects)) }
    ensures journal { (position : Position) (bodies : List (List ℕ)) → IfSome (W.content w.old) (IsJournal position bodies) → Through (W.history w.old) (W.history w.new) (AllHave (Holds position bodies)) }
    ensures closed { OnOk result (IfSome (W.content w.new) (λ c. IsClosed c (area_start other))) }
    ensures content { OnOk result ((W.content w.new ≡ W.content w.old) ⊎ (W.content w.new ≡ option_map (write (area_start other) (0 ∷ [])) (W.content w.old))) }
    ensures settled { OnOk result (IsSettled (W.content w.new) (W.now w.new)) }
    ensures quiet { Through (W.history w.old) (W.history w.new) (IsQuiet (W.now w.old)) }
    ensures said { IsQuiet (W.now w.old) (W.now w.new) }
    ensures cause { HasCause (W.disk_faults w.old) (W.disk_faults w.new) result }
    ensures other { W.speak_faults w.new ≡ W.speak_faults w.old }
{
    close_gate(w, other as u64 * AREA)
}

/// Opens the gate of a root that was prepared. At each moment each image has the old store or the new one, and after it
/// the content has the new one.
pub fn open_other<W: Station>(w: &mut W, other: u8) -> Result<(), Failed>
    requires other { other ≤ 1 }
    requires settled { IsSettled (W.content w.old) (W.now w.old) }
    ensures stores { (root new : Root) (objects packed : List Entry) → root.area + other ≡ 1 → IfSome (W.content w.old) (IsPrepared root objects new packed (area_start other)) → Through (W.history w.old) (W.history w.new) (AllHave (IsSwitched root objects new packed)) }
    ensures journal { (position : Position) (bodies : List (List ℕ)) → IfSome (W.content w.old) (IsJournal position bodies) → Through (W.history w.old) (W.history w.new) (AllHave (Holds position bodies)) }
    ensures opened { OnOk result ((root new : Root) (objects packed : List Entry) → IfSome (W.content w.old) (IsPrepared root objects new packed (area_start other)) → IfSome (W.content w.new) (HasStore new packed)) }
    ensures content { OnOk result (W.content w.new ≡ option_map (write (area_start other) (165 ∷ [])) (W.content w.old)) }
    ensures settled { OnOk result (IsSettled (W.content w.new) (W.now w.new)) }
    ensures quiet { Through (W.history w.old) (W.history w.new) (IsQuiet (W.now w.old)) }
    ensures said { IsQuiet (W.now w.old) (W.now w.new) }
    ensures cause { HasCause (W.disk_faults w.old) (W.disk_faults w.new) result }
    ensures other { W.speak_faults w.new ≡ W.speak_faults w.old }
{
    set_gate(w, other as u64 * AREA, OPEN)
}

/// Closes the first gate of the journal of a store that was switched. At each moment each image has the store, and no
/// record of its epoch.
pub fn close_journal<W: Station>(w: &mut W) -> Result<(), Failed>
    requires settled { IsSettled (W.content w.old) (W.now w.old) }
    ensures stores { (root : Root) (objects : List Entry) → IfSome (W.content w.old) (IsEmptied root objects) → Through (W.history w.old) (W.history w.new) (AllHave (IsEmptied root objects)) }
    ensures closed { OnOk result (IfSome (W.content w.new) (λ c. IsClosed c journal_start)) }
    ensures content { OnOk result ((W.content w.new ≡ W.content w.old) ⊎ (W.content w.new ≡ option_map (write journal_start (0 ∷ [])) (W.content w.old))) }
    ensures settled { OnOk result (IsSettled (W.content w.new) (W.now w.new)) }
    ensures quiet { Through (W.history w.old) (W.history w.new) (IsQuiet (W.now w.old)) }
    ensures said { IsQuiet (W.now w.old) (W.now w.new) }
    ensures cause { HasCause (W.disk_faults w.old) (W.disk_faults w.new) result }
    ensures other { W.speak_faults w.new ≡ W.speak_faults w.old }
{
    close_gate(w, JOURNAL_START as u64)
}
