// A store is mounted.
ghost use Rattle.std.specs.Prelude.{ℕ, ◌≡◌, ◌≢◌, ◌⊎◌, ◌<◌, Err, IfErr, IfOk, IfSome, OnOk};
ghost use Rattle.pss_base.specs.Causes.{HasCauseIf};
ghost use Rattle.pss_catalog.specs.Catalog.{Catalog};
ghost use Rattle.pss_disk.specs.Moments.{IsSettled, Through};
ghost use Rattle.pss_disk.specs.Reading.{OnlyReads};
ghost use Rattle.redo_journal.specs.Journal.{journal_end};
ghost use Rattle.page_store.specs.Stores.{AllHave};
ghost use Rattle.type_layout.specs.Sound.{IsSoundSchema};
ghost use Rattle.type_layout.specs.declared.schema.Schema.{Schema as Shaped};
ghost use Rattle.pss_recovery.specs.declared.fault.MountFault.{MountFault as Fault};
ghost use Rattle.pss_recovery.specs.declared.fault.MountFault.TheVariants as fault;
ghost use Rattle.pss_recovery.specs.Faults.{is_mount_disk_fault};
ghost use Rattle.pss_recovery.specs.Mounts.{FromSync, HasMounted, IsSameButGate};
ghost use Rattle.pss_recovery.specs.Silence.{IsSilent};
ghost use Rattle.pss_recovery.specs.Stands.{IsRefusal, Stands};
ghost use Rattle.pss_recovery.specs.inner.Mounting.{HasRead};

use crate::fault::MountFault;
use crate::mounting::{Mounted, read_store};
use crate::store::Store;
use page_store::close_gate;
use pss_disk::Station;
use std::alloc::Global;
use type_layout::Schema;

// Closes the gate that ends the journal of a store that was read.
fn close_end<W: Station>(w: &mut W, mounted: Mounted, end: u32) -> Result<Mounted, MountFault>
    requires end { end ≡ mounted.store.journal.end }
    requires within { end < journal_end }
    requires settled { IsSettled (W.content w.old) (W.now w.old) }
    ensures mounted { (S : Shaped) → HasRead S mounted (W.content w.old) → IfOk result (λ same. HasMounted S same (W.content w.old) (W.content w.new)) }
    ensures only { (k : Fault) → result ≡ Err k → k ≡ fault.DiskFault }
    ensures content { (S : Shaped) → HasRead S mounted (W.content w.old) → IsSameButGate (W.content w.old) (W.content w.new) }
    ensures images { (S : Shaped) (M : Catalog) (next : ℕ) → HasRead S mounted (W.content w.old) → IfSome (W.content w.old) (λ c. Stands S M next c → Through (W.history w.old) (W.history w.new) (AllHave (Stands S M next))) }
    ensures settled { OnOk result (IsSettled (W.content w.new) (W.now w.new)) }
    ensures silent { IsSilent W.now W.history W.speak_faults w.old w.new }
    ensures cause { HasCauseIf (W.disk_faults w.old) (W.disk_faults w.new) (is_mount_disk_fault result) }
{
    match close_gate(w, end as u64) {
        Ok(()) => Ok(mounted),
        Err(_) => Err(MountFault::DiskFault),
    }
}

// Mounts a store of whose content the disk has made sure.
fn mount_settled<W: Station>(
    alloc: Global,
    w: &mut W,
    schema: &Schema,
) -> Result<Mounted, MountFault>
    requires sound { IsSoundSchema schema.now }
    requires settled { IsSettled (W.content w.old) (W.now w.old) }
    ensures mounted { IfOk result (λ mounted. HasMounted schema.now mounted (W.content w.old) (W.content w.new)) }
    ensures refused { IfErr result (λ why. IfSome (W.content w.old) (IsRefusal schema.now why)) }
    ensures reads { IfErr result (λ why. why ≢ fault.DiskFault → OnlyReads W.now W.content W.history W.speak_faults w.old w.new) }
    ensures content { IsSameButGate (W.content w.old) (W.content w.new) }
    ensures images { (M : Catalog) (next : ℕ) → IfSome (W.content w.old) (λ c. Stands schema.now M next c → Through (W.history w.old) (W.history w.new) (AllHave (Stands schema.now M next))) }
    ensures settled { OnOk result (IsSettled (W.content w.new) (W.now w.new)) }
    ensures silent { IsSilent W.now W.history W.speak_faults w.old w.new }
    ensures cause { HasCauseIf (W.disk_faults w.old) (W.disk_faults w.new) (is_mount_disk_fault result) }
{
    match read_store(alloc, w, schema) {
        Ok(read) => close_end(w, read.0, read.1),
        Err(why) => Err(why),
    }
}

impl Store {
    /// Mounts a store: makes sure of the file, and reads its root, its pages and its journal; each is tested before the next one is read.
    /// It closes the gate that ends the journal, where that is open, and makes sure of it.
    ///
    /// After `Ok` the store stands for the objects and the next serial that are answered, and nothing is pending. `NotAStore`,
    /// `ShapeDiffers` and `Damaged` tell what the file is refused for; with them and with `NoMemory` its content stays, each moment on the
    /// way is the one before or has the content as its only image, and nothing is pending. Once the file is made sure of, each image at each
    /// moment stands for what the content stood for.
    pub fn mount<W: Station>(
        alloc: Global,
        w: &mut W,
        schema: &Schema,
    ) -> Result<Mounted, MountFault>
        requires { IsSoundSchema schema.now }
        ensures mounted { IfOk result (λ mounted. HasMounted schema.now mounted (W.content w.old) (W.content w.new)) }
        ensures refused { IfErr result (λ why. IfSome (W.content w.old) (IsRefusal schema.now why)) }
        ensures same { IfErr result (λ why. why ≢ fault.DiskFault → W.content w.new ≡ W.content w.old) }
        ensures refused_stays { IfErr result (λ why. why ≢ fault.DiskFault → Through (W.history w.old) (W.history w.new) (λ m. (m ≡ W.now w.old) ⊎ IsSettled (W.content w.old) m)) }
        ensures refused_settled { IfErr result (λ why. why ≢ fault.DiskFault → IsSettled (W.content w.new) (W.now w.new)) }
        ensures content { IsSameButGate (W.content w.old) (W.content w.new) }
        ensures images { (M : Catalog) (next : ℕ) → IfSome (W.content w.old) (λ c. Stands schema.now M next c → FromSync (W.history w.old) (W.history w.new) (W.now w.old) (AllHave (Stands schema.now M next))) }
        ensures settled { OnOk result (IsSettled (W.content w.new) (W.now w.new)) }
        ensures silent { IsSilent W.now W.history W.speak_faults w.old w.new }
        ensures cause { HasCauseIf (W.disk_faults w.old) (W.disk_faults w.new) (is_mount_disk_fault result) }
    {
        match w.sync() {
            Ok(()) => mount_settled(alloc, w, schema),
            Err(_) => Err(MountFault::DiskFault),
        }
    }
}
