// The journal is read in large pieces.
ghost use Rattle.std.specs.Prelude.{◌≡◌, ◌+◌, ◌-◌, ◌<◌, ◌≤◌, ◌↔◌, drop, IfOk, IsTrue, OnOk};
ghost use Rattle.pss_base.specs.Causes.{HasCause, HasCauseIf};
ghost use Rattle.pss_disk.specs.Reading.{OnlyReads};
ghost use Rattle.redo_journal.specs.Faults.{is_disk_stop};
ghost use Rattle.redo_journal.specs.Journal.{journal_end};
ghost use Rattle.redo_journal.specs.inner.Window.{Covers, IsPiece};

use crate::layout::JOURNAL_START;
use pss_base::{DiskFault, StoreStop};
use pss_disk::Station;
use std::alloc::Global;

/// A piece of the store's content.
#[derive(Drop)]
pub struct Window {
    pub at: u64,
    pub octets: Vec<u8>,
}

impl Window {
    /// The piece of so many octets at the journal's start.
    pub fn new<W: Station>(alloc: Global, w: &mut W, count: usize) -> Result<Window, StoreStop>
        requires wide { 13 ≤ count }
        requires narrow { count ≤ 131072 }
        ensures piece { IfOk result (IsPiece (W.content w.new)) }
        ensures reads { OnlyReads W.now W.content W.history W.speak_faults w.old w.new }
        ensures cause { HasCauseIf (W.disk_faults w.old) (W.disk_faults w.new) (is_disk_stop result) }
    {
        let at = u64::from(JOURNAL_START);
        let Ok(mut octets) = vec![in alloc; 0u8; count] else {
            return Err(StoreStop::NoMemory);
        };
        match w.read_at(at, &mut octets) {
            Ok(()) => Ok(Window { at, octets }),
            Err(_) => Err(StoreStop::DiskFault),
        }
    }

    /// Makes so many octets from a place on lie in the piece. It reads where they do not.
    pub fn reach<W: Station>(&mut self, w: &mut W, at: u64, count: usize) -> Result<(), DiskFault>
        requires place { at < journal_end }
        requires few { count ≤ 13 }
        requires piece { IsPiece (W.content w.old) self.old }
        ensures covers { OnOk result (Covers self.new at count) }
        ensures piece { OnOk result (IsPiece (W.content w.new) self.new) }
        ensures reads { OnlyReads W.now W.content W.history W.speak_faults w.old w.new }
        ensures cause { HasCause (W.disk_faults w.old) (W.disk_faults w.new) result }
    {
        if self.has(at, count) {
            return Ok(());
        }
        match w.read_at(at, &mut self.octets) {
            Ok(()) => {
                self.at = at;
                Ok(())
            }
            Err(_) => Err(DiskFault),
        }
    }

    // Whether so many octets from a place on lie in the piece.
    fn has(&self, at: u64, count: usize) -> bool
        requires place { at < journal_end }
        requires few { count ≤ 13 }
        ensures { IsTrue result ↔ Covers self.now at count }
    {
        self.at <= at && at - self.at + count as u64 <= self.octets.len() as u64
    }

    /// The octets of the piece from a place on.
    pub fn ahead(&self, at: u64) -> &[u8]
        requires { Covers self.now at 0 }
        ensures { result.now ≡ drop (at - self.now.at) self.now.octets.items }
    {
        &self.octets[(at - self.at) as usize..]
    }
}
