// A store gets its next root, with the changes that were noted.
ghost use Rattle.std.specs.Prelude.{◌≡◌, ◌≤◌, [], is_some, IfErr, IfSome, OnOk};
ghost use Rattle.pss_base.specs.Causes.{HasCauseIf};
ghost use Rattle.pss_base.specs.declared.stop.StoreStop.TheVariants as stop;
ghost use Rattle.pss_disk.specs.Images.{IsQuiet};
ghost use Rattle.pss_disk.specs.Moments.{IsSettled, Through};
ghost use Rattle.pss_disk.specs.Reading.{OnlyReads};
ghost use Rattle.redo_journal.specs.Journal.{IsClosed, journal_start};
ghost use Rattle.page_store.specs.Checkpoints.{IsEitherStore, IsLaid, IsMade, MayCheckpoint};
ghost use Rattle.page_format.specs.Faults.{is_disk_stop};
ghost use Rattle.page_store.specs.Stores.{AllHave};
ghost use Rattle.page_store.specs.Switch.{Old};

use crate::pages::Pages;
use crate::pages::planning::Repacked;
use crate::stop::PlanStop;
use crate::switch::switch_roots;
use pss_base::StoreStop;
use pss_disk::Station;

impl Pages {
    /// Makes a checkpoint: the store gets its next root, with this next serial, whose pages have the objects with the changes
    /// noted over them, and its journal has no record of that root's epoch. Of the pages only those are written that hold
    /// an object of which a change was noted, and the one with little in use: their objects are packed anew by rising serial,
    /// and the new pages go, in that order, into the least slots that the root did not name.
    ///
    /// At each moment each image has the old store with its journal as it was, or the next one whole. After an error the
    /// pages are not called again: the store has one of the two, and is read anew.
    ///
    /// `DiskFault`: a call of the disk failed. `NoMemory`: there was no memory, or the disk gave back other pages than it was
    /// given; then nothing was written. A root has room for the pages of every store within its limits.
    pub fn checkpoint<W: Station>(&mut self, w: &mut W, next: u64) -> Result<(), StoreStop>
        requires next { 1 ≤ next }
        requires settled { IsSettled (W.content w.old) (W.now w.old) }
        ensures stores { (old : Old) → IfSome (W.content w.old) (λ c. MayCheckpoint old self.old next c → Through (W.history w.old) (W.history w.new) (AllHave (IsEitherStore old self.old next))) }
        ensures made { OnOk result ((old : Old) → IfSome (W.content w.old) (λ c. MayCheckpoint old self.old next c → IfSome (W.content w.new) (IsMade old self.old next self.new))) }
        ensures written { OnOk result (IfSome (W.content w.old) (λ c. IfSome (W.content w.new) (IsLaid self.old next c))) }
        ensures closed { OnOk result (IfSome (W.content w.new) (λ c. IsClosed c journal_start)) }
        ensures told { OnOk result (is_some (W.content w.new) ≡ is_some (W.content w.old)) }
        ensures settled { OnOk result (IsSettled (W.content w.new) (W.now w.new)) }
        ensures noted { OnOk result (self.new.noted ≡ []) }
        ensures room { OnOk result (self.new.room ≡ 0) }
        ensures memory { IfErr result (λ why. why ≡ stop.NoMemory → OnlyReads W.now W.content W.history W.speak_faults w.old w.new) }
        ensures quiet { Through (W.history w.old) (W.history w.new) (IsQuiet (W.now w.old)) }
        ensures said { IsQuiet (W.now w.old) (W.now w.new) }
        ensures cause { HasCauseIf (W.disk_faults w.old) (W.disk_faults w.new) (is_disk_stop result) }
        ensures other { W.speak_faults w.new ≡ W.speak_faults w.old }
    {
        let alloc = *self.noted.allocator();
        let Repacked { stay, puts } = match self.repack(w) {
            Ok(repacked) => repacked,
            Err(PlanStop::DiskFault) => return Err(StoreStop::DiskFault),
            Err(PlanStop::NoMemory) => return Err(StoreStop::NoMemory),
            Err(PlanStop::Lost) => return Err(StoreStop::NoMemory),
        };
        let plan = match self.plan(stay, &puts, next) {
            Ok(plan) => plan,
            Err(_) => return Err(StoreStop::NoMemory),
        };
        match switch_roots(alloc, w, &plan.root, &plan.pages) {
            Ok(()) => {
                let pages = plan.pages.len();
                self.adopt(plan);
                self.keep_spent(puts, pages);
                Ok(())
            }
            Err(stop) => Err(stop),
        }
    }
}
