// A journal is read.
ghost use Rattle.std.specs.Prelude.{ℕ, ◌≡◌, ◌<◌, ◌≤◌, Err, IfOk, IfSome};
ghost use Rattle.pss_base.specs.Causes.{HasCauseIf};
ghost use Rattle.pss_disk.specs.Reading.{OnlyReads};
ghost use Rattle.redo_journal.specs.Faults.{is_disk_fault};
ghost use Rattle.redo_journal.specs.Journal.{Holds, IsDamaged, journal_end, journal_start};
ghost use Rattle.redo_journal.specs.declared.fault.ReplayFault.TheVariants.{Damaged};
ghost use Rattle.redo_journal.specs.inner.Window.{IsPiece};

use crate::bodies::Bodies;
use crate::fault::ReplayFault;
use crate::records::read_records;
use crate::replayed::Replay;
use crate::window::Window;
use pss_base::StoreStop;
use pss_disk::Station;
use std::alloc::Global;

// How many octets are read at once.
const PIECE: usize = 131072;

// Reads the records from a first piece on.
fn replay_from<W: Station>(
    alloc: Global,
    w: &mut W,
    window: &mut Window,
    epoch: u64,
) -> Result<Replay, ReplayFault>
    requires { IsPiece (W.content w.old) window.old }
    ensures held { IfOk result (λ replay. IfSome (W.content w.old) (Holds (record { end = replay.end; epoch = epoch }) replay.bodies)) }
    ensures within { IfOk result (λ replay. (journal_start ≤ replay.end) × (replay.end < journal_end)) }
    ensures damaged { (at : ℕ) → result ≡ Err (Damaged at) → IfSome (W.content w.old) (IsDamaged epoch at) }
    ensures reads { OnlyReads W.now W.content W.history W.speak_faults w.old w.new }
    ensures cause { HasCauseIf (W.disk_faults w.old) (W.disk_faults w.new) (is_disk_fault result) }
{
    let mut bodies = Bodies::new(alloc);
    match read_records(alloc, w, window, epoch, &mut bodies) {
        Ok(end) => Ok(Replay { bodies, end }),
        Err(fault) => Err(fault),
    }
}

/// Reads the journal of an epoch: the bodies of its records, up to the first gate that is not open, or that is the
/// first one and has another epoch. It is read in pieces of 131,072 octets.
pub fn replay<W: Station>(alloc: Global, w: &mut W, epoch: u64) -> Result<Replay, ReplayFault>
    ensures held { IfOk result (λ replay. IfSome (W.content w.old) (Holds (record { end = replay.end; epoch = epoch }) replay.bodies)) }
    ensures within { IfOk result (λ replay. (journal_start ≤ replay.end) × (replay.end < journal_end)) }
    ensures damaged { (at : ℕ) → result ≡ Err (Damaged at) → IfSome (W.content w.old) (IsDamaged epoch at) }
    ensures reads { OnlyReads W.now W.content W.history W.speak_faults w.old w.new }
    ensures cause { HasCauseIf (W.disk_faults w.old) (W.disk_faults w.new) (is_disk_fault result) }
{
    match Window::new(alloc, w, PIECE) {
        Ok(mut window) => replay_from(alloc, w, &mut window, epoch),
        Err(StoreStop::DiskFault) => Err(ReplayFault::DiskFault),
        Err(StoreStop::NoMemory) => Err(ReplayFault::NoMemory),
    }
}
