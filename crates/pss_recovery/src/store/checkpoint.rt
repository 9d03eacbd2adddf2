// A store gets its next root.
ghost use Rattle.std.specs.Prelude.{ℕ, ◌≡◌, is_some, IfSome, OnOk};
ghost use Rattle.pss_base.specs.Causes.{HasCauseIf};
ghost use Rattle.pss_catalog.specs.Catalog.{Catalog};
ghost use Rattle.pss_disk.specs.Moments.{IsSettled, Through};
ghost use Rattle.page_format.specs.Faults.{is_disk_stop};
ghost use Rattle.page_store.specs.Stores.{AllHave};
ghost use Rattle.redo_journal.specs.Journal.{journal_start};
ghost use Rattle.type_layout.specs.declared.schema.Schema.{Schema};
ghost use Rattle.pss_recovery.specs.Mounted.{HasNoRecord, IsMounted};
ghost use Rattle.pss_recovery.specs.Silence.{IsSilent};
ghost use Rattle.pss_recovery.specs.Stands.{Stands};

use crate::store::Store;
use pss_base::StoreStop;
use pss_disk::Station;
use redo_journal::{JOURNAL_START, Journal};

impl Store {
    /// Writes the changes of the journal into the pages, under a new root, and empties the journal. At each moment each image stands for
    /// the same catalog and next serial. After `Ok` the content does, its journal has no record, and nothing is pending.
    ///
    /// `DiskFault`: a call of the disk failed. `NoMemory`: there was no memory. After either the store is not called again, but mounted
    /// anew.
    pub fn checkpoint<W: Station>(&mut self, w: &mut W) -> Result<(), StoreStop>
        requires settled { IsSettled (W.content w.old) (W.now w.old) }
        ensures made { OnOk result ((S : Schema) (M : Catalog) (next : ℕ) → IfSome (W.content w.old) (λ before. IsMounted S M next self.old before → IfSome (W.content w.new) (IsMounted S M next self.new))) }
        ensures images { (S : Schema) (M : Catalog) (next : ℕ) → IfSome (W.content w.old) (λ before. IsMounted S M next self.old before → Through (W.history w.old) (W.history w.new) (AllHave (Stands S M next))) }
        ensures empty { OnOk result (IfSome (W.content w.new) HasNoRecord) }
        ensures start { OnOk result (self.new.journal.end ≡ journal_start) }
        ensures next { OnOk result (self.new.next ≡ self.old.next) }
        ensures told { OnOk result (is_some (W.content w.new) ≡ is_some (W.content w.old)) }
        ensures settled { OnOk result (IsSettled (W.content w.new) (W.now w.new)) }
        ensures silent { IsSilent W.now W.history W.speak_faults w.old w.new }
        ensures cause { HasCauseIf (W.disk_faults w.old) (W.disk_faults w.new) (is_disk_stop result) }
    {
        match self.parts.pages.checkpoint(w, self.parts.next) {
            Ok(()) => {
                self.parts.epoch = self.parts.epoch.wrapping_add(1);
                self.parts.journal = Journal::start(JOURNAL_START, self.parts.epoch);
                Ok(())
            }
            Err(stop) => Err(stop),
        }
    }
}
