// Room is made for a body.
ghost use Rattle.std.specs.Prelude.{ℕ, ◌≡◌, ◌≤◌, false, is_some, List, IfOk, IfSome, OnOk, length};
ghost use Rattle.pss_base.specs.Causes.{HasCauseIf};
ghost use Rattle.pss_catalog.specs.Catalog.{Catalog};
ghost use Rattle.pss_disk.specs.Moments.{IsSettled, Through};
ghost use Rattle.page_format.specs.Faults.{is_disk_stop};
ghost use Rattle.page_store.specs.Stores.{AllHave};
ghost use Rattle.redo_journal.specs.Journal.{Fits, journal_start};
ghost use Rattle.type_layout.specs.declared.schema.Schema.{Schema};
ghost use Rattle.pss_recovery.specs.Bodies.{body_octets};
ghost use Rattle.pss_recovery.specs.Mounted.{HasRoom, IsMounted, MayFollow};
ghost use Rattle.pss_recovery.specs.Silence.{IsSilent};
ghost use Rattle.pss_recovery.specs.Stands.{Stands};

use crate::body::Body;
use crate::encoding::encode_in;
use crate::prepared::Prepared;
use crate::store::Store;
use pss_base::{Bytes, NoMemory, StoreStop};
use pss_disk::Station;
use std::mem;

impl Store {
    /// Makes room for a body in the journal and in memory, so that committing it takes no memory. A checkpoint is made exactly where the
    /// body does not fit into the journal; where it fits, the disk is not called. At each moment each image stands for the same catalog
    /// and next serial.
    ///
    /// `DiskFault`: a call of the disk failed. `NoMemory`: there was no memory. After either the store is not called again, but mounted
    /// anew; only after `NoMemory` where the body fits it is as before.
    pub fn prepare<W: Station>(&mut self, w: &mut W, body: Body) -> Result<Prepared, StoreStop>
        requires body { MayFollow self.old.next body }
        requires settled { IsSettled (W.content w.old) (W.now w.old) }
        ensures room { IfOk result (HasRoom self.new) }
        ensures body { IfOk result (λ prepared. prepared.body ≡ body) }
        ensures kept { OnOk result ((S : Schema) (M : Catalog) (next : ℕ) → IfSome (W.content w.old) (λ before. IsMounted S M next self.old before → IfSome (W.content w.new) (IsMounted S M next self.new))) }
        ensures images { (S : Schema) (M : Catalog) (next : ℕ) → IfSome (W.content w.old) (λ before. IsMounted S M next self.old before → Through (W.history w.old) (W.history w.new) (AllHave (Stands S M next))) }
        ensures still { Fits self.old.journal.end (length (body_octets body)) → w.new ≡ w.old }
        ensures same { Fits self.old.journal.end (length (body_octets body)) → (S : Schema) (M : Catalog) (next : ℕ) (content : List ℕ) → IsMounted S M next self.old content → IsMounted S M next self.new content }
        ensures checkpoint { (Fits self.old.journal.end (length (body_octets body)) → ⊥) → OnOk result (self.new.journal.end ≡ journal_start) }
        ensures told { OnOk result (is_some (W.content w.new) ≡ is_some (W.content w.old)) }
        ensures settled { OnOk result (IsSettled (W.content w.new) (W.now w.new)) }
        ensures silent { IsSilent W.now W.history W.speak_faults w.old w.new }
        ensures cause { HasCauseIf (W.disk_faults w.old) (W.disk_faults w.new) (is_disk_stop result) }
    {
        let space = self.take_space();
        let octets = match encode_in(space, &body) {
            Ok(octets) => octets,
            Err(NoMemory) => return Err(StoreStop::NoMemory),
        };
        let len = octets.as_slice().len() as u32;
        match self.make_room(w, len, body.puts.as_slice().len()) {
            Ok(()) => Ok(Prepared { body, octets }),
            Err(stop) => Err(stop),
        }
    }

    // The octets of the last body, in whose room another one is made.
    fn take_space(&mut self) -> Bytes
        ensures { self.new ≡ self.old }
    {
        let alloc = self.parts.alloc;
        mem::replace(&mut self.space, Bytes::new(alloc))
    }

    // Makes room for a body of so many octets, with so many changes.
    fn make_room<W: Station>(
        &mut self,
        w: &mut W,
        len: u32,
        changes: usize,
    ) -> Result<(), StoreStop>
        requires short { Fits journal_start len }
        requires settled { IsSettled (W.content w.old) (W.now w.old) }
        ensures fits { OnOk result (Fits self.new.journal.end len) }
        ensures noted { OnOk result (changes ≤ self.new.pages.room) }
        ensures next { OnOk result (self.new.next ≡ self.old.next) }
        ensures kept { OnOk result ((S : Schema) (M : Catalog) (next : ℕ) → IfSome (W.content w.old) (λ before. IsMounted S M next self.old before → IfSome (W.content w.new) (IsMounted S M next self.new))) }
        ensures images { (S : Schema) (M : Catalog) (next : ℕ) → IfSome (W.content w.old) (λ before. IsMounted S M next self.old before → Through (W.history w.old) (W.history w.new) (AllHave (Stands S M next))) }
        ensures still { Fits self.old.journal.end len → w.new ≡ w.old }
        ensures same { Fits self.old.journal.end len → (S : Schema) (M : Catalog) (next : ℕ) (content : List ℕ) → IsMounted S M next self.old content → IsMounted S M next self.new content }
        ensures checkpoint { (Fits self.old.journal.end len → ⊥) → OnOk result (self.new.journal.end ≡ journal_start) }
        ensures told { OnOk result (is_some (W.content w.new) ≡ is_some (W.content w.old)) }
        ensures settled { OnOk result (IsSettled (W.content w.new) (W.now w.new)) }
        ensures silent { IsSilent W.now W.history W.speak_faults w.old w.new }
        ensures cause { HasCauseIf (W.disk_faults w.old) (W.disk_faults w.new) (is_disk_stop result) }
    {
        match self.make_fit(w, len) {
            Ok(()) => self.reserve(changes),
            Err(stop) => Err(stop),
        }
    }

    // Makes room for so many changes to be noted.
    fn reserve(&mut self, changes: usize) -> Result<(), StoreStop>
        ensures noted { OnOk result (changes ≤ self.new.pages.room) }
        ensures next { self.new.next ≡ self.old.next }
        ensures journal { self.new.journal ≡ self.old.journal }
        ensures same { (S : Schema) (M : Catalog) (next : ℕ) (content : List ℕ) → IsMounted S M next self.old content → IsMounted S M next self.new content }
        ensures memory { is_disk_stop result ≡ false }
    {
        match self.parts.pages.note_reserve(changes) {
            Ok(()) => Ok(()),
            Err(_) => Err(StoreStop::NoMemory),
        }
    }

    // Makes a checkpoint where a body of so many octets does not fit into the journal.
    fn make_fit<W: Station>(&mut self, w: &mut W, len: u32) -> Result<(), StoreStop>
        requires short { Fits journal_start len }
        requires settled { IsSettled (W.content w.old) (W.now w.old) }
        ensures fits { OnOk result (Fits self.new.journal.end len) }
        ensures next { OnOk result (self.new.next ≡ self.old.next) }
        ensures kept { OnOk result ((S : Schema) (M : Catalog) (next : ℕ) → IfSome (W.content w.old) (λ before. IsMounted S M next self.old before → IfSome (W.content w.new) (IsMounted S M next self.new))) }
        ensures images { (S : Schema) (M : Catalog) (next : ℕ) → IfSome (W.content w.old) (λ before. IsMounted S M next self.old before → Through (W.history w.old) (W.history w.new) (AllHave (Stands S M next))) }
        ensures still { Fits self.old.journal.end len → w.new ≡ w.old }
        ensures same { Fits self.old.journal.end len → self.new ≡ self.old }
        ensures checkpoint { (Fits self.old.journal.end len → ⊥) → OnOk result (self.new.journal.end ≡ journal_start) }
        ensures told { OnOk result (is_some (W.content w.new) ≡ is_some (W.content w.old)) }
        ensures settled { OnOk result (IsSettled (W.content w.new) (W.now w.new)) }
        ensures silent { IsSilent W.now W.history W.speak_faults w.old w.new }
        ensures cause { HasCauseIf (W.disk_faults w.old) (W.disk_faults w.new) (is_disk_stop result) }
    {
        if self.parts.journal.fits(len) {
            return Ok(());
        }
        self.checkpoint(w)
    }
}
