// The pages of a store are read, and their objects are loaded.
ghost use Rattle.std.specs.Prelude.{ℕ, ◌≡◌, List, [], length, Err, IfErr, IfOk, IfSome};
ghost use Rattle.pss_base.specs.Causes.{HasCauseIf};
ghost use Rattle.pss_disk.specs.Reading.{OnlyReads};
ghost use Rattle.page_format.specs.Faults.{is_page_disk_fault};
ghost use Rattle.page_store.specs.Kept.{rows_in};
ghost use Rattle.page_format.specs.Refusals.{IsPageRefusal};
ghost use Rattle.page_format.specs.Roots.{IsWithinLimits};
ghost use Rattle.page_format.specs.Rows.{AreRows};
ghost use Rattle.page_format.specs.declared.root.Root.{Root as Rooted};
ghost use Rattle.type_layout.specs.Sound.{IsSoundSchema};
ghost use Rattle.type_layout.specs.declared.schema.Schema.{Schema as Shaped};
ghost use Rattle.pss_recovery.specs.Faults.{is_mount_disk_fault};
ghost use Rattle.pss_recovery.specs.Stands.{IsPaged, IsRefusal, IsRooted};
ghost use Rattle.pss_recovery.specs.inner.Mounting.{HasLoaded, IsFetched, IsLoadStop, offset_of};
ghost use Rattle.pss_recovery.specs.inner.Rowwise.{IsWrongAt};

use crate::entry_places::entry_place;
use crate::fault::MountFault;
use crate::loading::{LoadStop, load_rows};
use page_format::layout::RECORD;
use page_store::{Fetched, PageFault, Pages, Root};
use pss_base::DamageKind;
use pss_disk::Station;
use redo_journal::JOURNAL_END;
use std::alloc::Global;
use storage_home::Homes;
use type_layout::Schema;

/// The pages of a store, and the objects in them.
#[derive(Drop)]
pub struct Loaded {
    pub pages: Pages,
    pub homes: Homes,
}

// Why a store is not mounted whose pages are not read.
fn of_pages(fault: PageFault) -> MountFault
    ensures refused { (S : Shaped) (root : Rooted) (image : List ℕ) → IsRooted S root image → IsPageRefusal root.next root.slots fault image → IsRefusal S result image }
    ensures disk { is_mount_disk_fault {T = Unit {0}} (Err result) ≡ is_page_disk_fault {T = Unit {0}} (Err fault) }
{
    match fault {
        PageFault::Damaged(at, kind) => MountFault::Damaged(at, kind),
        PageFault::DiskFault => MountFault::DiskFault,
        PageFault::NoMemory => MountFault::NoMemory,
    }
}

// How far behind the start of its entry this is wrong.
fn offset_of(kind: DamageKind) -> u64
    ensures { result ≡ offset_of kind }
{
    match kind {
        DamageKind::Record => RECORD as u64,
        _ => 0,
    }
}

// Why a store is not mounted of whose rows this one is wrong.
fn wrong_row<W: Station>(w: &mut W, root: &Root, index: u64, kind: DamageKind) -> MountFault
    requires { IsWithinLimits root.now }
    ensures refused { (S : Shaped) → IfSome (W.content w.old) (λ c. IsPaged S root.now c → IsWrongAt S root.now.next (rows_in c root.now.slots) index kind → IsRefusal S result c) }
    ensures reads { OnlyReads W.now W.content W.history W.speak_faults w.old w.new }
    ensures cause { HasCauseIf (W.disk_faults w.old) (W.disk_faults w.new) (is_mount_disk_fault {T = Unit {0}} (Err result)) }
{
    match entry_place(w, root.slots.as_slice(), index) {
        Ok(place) => MountFault::Damaged(place + offset_of(kind), kind),
        Err(_) => MountFault::DiskFault,
    }
}

// Why a store is not mounted whose rows are not loaded.
fn of_rows<W: Station>(w: &mut W, root: &Root, stop: LoadStop) -> MountFault
    requires { IsWithinLimits root.now }
    ensures refused { (S : Shaped) → IfSome (W.content w.old) (λ c. IsPaged S root.now c → IsLoadStop S root.now.next (rows_in c root.now.slots) stop → IsRefusal S result c) }
    ensures reads { OnlyReads W.now W.content W.history W.speak_faults w.old w.new }
    ensures cause { HasCauseIf (W.disk_faults w.old) (W.disk_faults w.new) (is_mount_disk_fault {T = Unit {0}} (Err result)) }
{
    match stop {
        LoadStop::Wrong(index, kind) => wrong_row(w, root, index, kind),
        LoadStop::Total => MountFault::Damaged(JOURNAL_END as u64, DamageKind::Total),
        LoadStop::NoMemory => MountFault::NoMemory,
    }
}

// Loads the rows of pages that were read.
fn load_fetched<W: Station>(
    alloc: Global,
    w: &mut W,
    schema: &Schema,
    root: &Root,
    fetched: Fetched,
) -> Result<Loaded, MountFault>
    requires sound { IsSoundSchema schema.now }
    requires limits { IsWithinLimits root.now }
    requires rooted { IfSome (W.content w.old) (IsRooted schema.now root.now) }
    requires pages { IfSome (W.content w.old) (IsFetched root.now fetched) }
    requires rows { AreRows root.now.next (length root.now.slots) fetched.rows }
    requires noted { fetched.pages.noted ≡ [] }
    ensures loaded { IfOk result (λ loaded. HasLoaded schema.now root.now loaded (W.content w.old)) }
    ensures refused { IfErr result (λ fault. IfSome (W.content w.old) (IsRefusal schema.now fault)) }
    ensures reads { OnlyReads W.now W.content W.history W.speak_faults w.old w.new }
    ensures cause { HasCauseIf (W.disk_faults w.old) (W.disk_faults w.new) (is_mount_disk_fault result) }
{
    match load_rows(alloc, schema, fetched.rows, root.next) {
        Ok(homes) => Ok(Loaded {
            pages: fetched.pages,
            homes,
        }),
        Err(stop) => Err(of_rows(w, root, stop)),
    }
}

/// Reads the pages of a root and loads their objects.
pub fn load_pages<W: Station>(
    alloc: Global,
    w: &mut W,
    schema: &Schema,
    root: &Root,
) -> Result<Loaded, MountFault>
    requires sound { IsSoundSchema schema.now }
    requires limits { IsWithinLimits root.now }
    requires rooted { IfSome (W.content w.old) (IsRooted schema.now root.now) }
    ensures loaded { IfOk result (λ loaded. HasLoaded schema.now root.now loaded (W.content w.old)) }
    ensures refused { IfErr result (λ fault. IfSome (W.content w.old) (IsRefusal schema.now fault)) }
    ensures reads { OnlyReads W.now W.content W.history W.speak_faults w.old w.new }
    ensures cause { HasCauseIf (W.disk_faults w.old) (W.disk_faults w.new) (is_mount_disk_fault result) }
{
    match Pages::fetch(alloc, w, root) {
        Ok(fetched) => load_fetched(alloc, w, schema, root, fetched),
        Err(fault) => Err(of_pages(fault)),
    }
}
