// A body that was prepared is appended to the journal.
ghost use Rattle.std.specs.Prelude.{ℕ, ◌≡◌, ◌++◌, ◌-◌, IfSome, OnOk, length};
ghost use Rattle.std.specs.Option.{option_map};
ghost use Rattle.pss_base.specs.Causes.{HasCause};
ghost use Rattle.pss_catalog.specs.Catalog.{Catalog};
ghost use Rattle.pss_disk.specs.Images.{Keeps};
ghost use Rattle.pss_disk.specs.Moments.{IsSettled, Through};
ghost use Rattle.pss_disk.specs.Octets.{StaysOutside, write};
ghost use Rattle.redo_journal.specs.Journal.{advanced, framed};
ghost use Rattle.page_store.specs.Stores.{AllHave};
ghost use Rattle.type_layout.specs.declared.schema.Schema.{Schema};
ghost use Rattle.pss_recovery.specs.Area.{IsOutsideJournal, journal_area};
ghost use Rattle.pss_recovery.specs.Mounted.{HasRoom, IsMounted, IsPrepared, StandsEither};
ghost use Rattle.pss_recovery.specs.Silence.{IsSilent};

use crate::noting::note_all;
use crate::prepared::Prepared;
use crate::store::Store;
use pss_base::{Bytes, DiskFault};
use pss_disk::Station;

// The room of a body of more octets is given back.
const MOST_KEPT: usize = 4096;

// Keeps the room of a body for the next one.
fn keep(space: &mut Bytes, octets: Bytes) {
    if octets.as_slice().len() <= MOST_KEPT {
        *space = octets;
    }
}

impl Store {
    /// Appends a body that was prepared to the journal, once, and makes sure of it; and notes its changes for the next checkpoint, once.
    /// It takes no memory, and changes no octet outside the journal.
    ///
    /// At each moment each image stands for the catalog before with its next serial, or for the catalog that the body makes with the
    /// body's next serial. After `Ok` the content stands for the latter, and nothing is pending. `DiskFault`: a call of the disk failed;
    /// the store is not called again, but mounted anew.
    pub fn commit<W: Station>(&mut self, w: &mut W, prepared: Prepared) -> Result<(), DiskFault>
        requires room { HasRoom self.old prepared }
        requires settled { IsSettled (W.content w.old) (W.now w.old) }
        ensures made { OnOk result ((S : Schema) (M N : Catalog) (next : ℕ) → IfSome (W.content w.old) (λ before. IsPrepared S M next self.old prepared.body N before → IfSome (W.content w.new) (IsMounted S N prepared.body.next self.new))) }
        ensures images { (S : Schema) (M N : Catalog) (next : ℕ) → IfSome (W.content w.old) (λ before. IsPrepared S M next self.old prepared.body N before → Through (W.history w.old) (W.history w.new) (AllHave (StandsEither S M next N prepared.body.next))) }
        ensures others { Through (W.history w.old) (W.history w.new) (Keeps IsOutsideJournal (W.content w.old)) }
        ensures content { StaysOutside journal_area (W.content w.old) (W.content w.new) }
        ensures written { OnOk result (W.content w.new ≡ option_map (write self.old.journal.end (framed self.old.journal.epoch prepared.octets)) (W.content w.old)) }
        ensures journal { OnOk result (self.new.journal ≡ advanced (length prepared.octets) self.old.journal) }
        ensures noted { OnOk result (self.new.pages ≡ record self.old.pages { noted = self.old.pages.noted ++ prepared.body.puts; room = self.old.pages.room - length prepared.body.puts }) }
        ensures settled { OnOk result (IsSettled (W.content w.new) (W.now w.new)) }
        ensures next { OnOk result (self.new.next ≡ prepared.body.next) }
        ensures silent { IsSilent W.now W.history W.speak_faults w.old w.new }
        ensures cause { HasCause (W.disk_faults w.old) (W.disk_faults w.new) result }
    {
        self.parts.journal.append(w, prepared.octets.as_slice())?;
        note_all(&mut self.parts.pages, prepared.body.puts);
        self.parts.next = prepared.body.next;
        keep(&mut self.space, prepared.octets);
        Ok(())
    }
}
