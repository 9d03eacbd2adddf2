// A store is read: its root, its pages and its journal, each after the other.
ghost use Rattle.std.specs.Prelude.{ℕ, ◌≡◌, ◌<◌, ◌≤◌, List, false, IfErr, IfOk, IfSome, OnOk};
ghost use Rattle.std.specs.declared.option.Option.{Option};
ghost use Rattle.std.specs.List.{AllByRecursion};
ghost use Rattle.pss_base.specs.Causes.{HasCauseIf};
ghost use Rattle.pss_disk.specs.Reading.{OnlyReads};
ghost use Rattle.redo_journal.specs.Journal.{journal_end, journal_start};
ghost use Rattle.page_format.specs.Objects.{IsRightPut};
ghost use Rattle.page_format.specs.Roots.{IsWithinLimits};
ghost use Rattle.type_layout.specs.Sound.{IsSoundSchema};
ghost use Rattle.pss_recovery.specs.Faults.{is_mount_disk_fault};
ghost use Rattle.pss_recovery.specs.Stands.{IsRefusal, IsRooted};
ghost use Rattle.pss_recovery.specs.inner.Mounting.{HasLoaded, HasNoted, HasRead, IsBuilt, IsJournalOf, body_fault, journal_fault};

use crate::fault::MountFault;
use crate::noting::note_all;
use crate::paging::{Loaded, load_pages};
use crate::parts::Parts;
use crate::replaying::{BodyStop, Replayed, replay_bodies};
use crate::rooting::read_rooted;
use crate::store::Store;
use page_store::{Pages, Root};
use pss_base::{Bytes, DamageKind, NoMemory, Puts};
use pss_disk::Station;
use redo_journal::{Journal, Replay, ReplayFault, replay};
use std::alloc::Global;
use storage_home::Homes;
use type_layout::Schema;

/// A store that was mounted.
#[derive(Drop)]
pub struct Mounted {
    pub store: Store,
    /// Its objects.
    pub homes: Homes,
    /// The least serial that no object was given.
    pub next: u64,
}

// Why a store is not mounted whose journal is not read.
fn of_journal(fault: ReplayFault) -> MountFault
    ensures { result ≡ journal_fault fault }
{
    match fault {
        ReplayFault::Damaged(at) => MountFault::Damaged(at, DamageKind::Journal),
        ReplayFault::DiskFault => MountFault::DiskFault,
        ReplayFault::NoMemory => MountFault::NoMemory,
    }
}

// Why a store is not mounted of whose journal a body is wrong.
fn of_bodies(stop: BodyStop) -> MountFault
    ensures { result ≡ body_fault stop }
{
    match stop {
        BodyStop::Wrong(gate) => MountFault::Damaged(gate, DamageKind::Change),
        BodyStop::NoMemory => MountFault::NoMemory,
    }
}

// Notes changes for the next checkpoint.
fn note(pages: &mut Pages, puts: Puts) -> Result<(), NoMemory>
    requires { AllByRecursion IsRightPut puts }
    ensures { OnOk result (HasNoted pages.old puts pages.new) }
{
    pages.note_reserve(puts.as_slice().len())?;
    note_all(pages, puts);
    Ok(())
}

// A store of these parts.
fn built(alloc: Global, root: &Root, loaded: Loaded, end: u32, next: u64) -> Mounted
    requires next { 1 ≤ next }
    requires behind { journal_start ≤ end }
    requires within { end < journal_end }
    ensures { result ≡ record { store = record { alloc = alloc; pages = loaded.pages; journal = record { end = end; epoch = root.now.epoch }; epoch = root.now.epoch; next = next }; homes = loaded.homes; next = next } }
{
    Mounted {
        store: Store {
            parts: Parts {
                alloc,
                pages: loaded.pages,
                journal: Journal::start(end, root.epoch),
                epoch: root.epoch,
                next,
            },
            space: Bytes::new(alloc),
        },
        homes: loaded.homes,
        next,
    }
}

// A store of these parts, for whose next checkpoint the changes of its journal are noted.
fn build(
    alloc: Global,
    root: &Root,
    mut loaded: Loaded,
    end: u32,
    replayed: Replayed,
) -> Result<Mounted, NoMemory>
    requires next { 1 ≤ replayed.next }
    requires behind { journal_start ≤ end }
    requires within { end < journal_end }
    requires right { AllByRecursion IsRightPut replayed.puts }
    ensures { IfOk result (IsBuilt root.now loaded end replayed) }
{
    note(&mut loaded.pages, replayed.puts)?;
    Ok(built(alloc, root, loaded, end, replayed.next))
}

// Makes the bodies of a journal of the objects in the pages.
fn replay_on(
    alloc: Global,
    schema: &Schema,
    root: &Root,
    mut loaded: Loaded,
    journal: &Replay,
) -> Result<Mounted, MountFault>
    requires loaded { (content : Option (List ℕ)) × HasLoaded schema.now root.now loaded content }
    requires behind { journal_start ≤ journal.now.end }
    requires within { journal.now.end < journal_end }
    ensures read { IfOk result (λ mounted. (content : Option (List ℕ)) → HasLoaded schema.now root.now loaded content → IfSome content (IsJournalOf root.now journal.now) → HasRead schema.now mounted content) }
    ensures end { IfOk result (λ mounted. mounted.store.journal.end ≡ journal.now.end) }
    ensures refused { IfErr result (λ fault. (content : Option (List ℕ)) → HasLoaded schema.now root.now loaded content → IfSome content (IsJournalOf root.now journal.now) → IfSome content (IsRefusal schema.now fault)) }
    ensures memory { is_mount_disk_fault result ≡ false }
{
    let replayed = match replay_bodies(
        alloc,
        schema,
        &mut loaded.homes,
        journal.bodies.as_slice(),
        root.next,
    ) {
        Ok(replayed) => replayed,
        Err(stop) => return Err(of_bodies(stop)),
    };
    match build(alloc, root, loaded, journal.end, replayed) {
        Ok(mounted) => Ok(mounted),
        Err(NoMemory) => Err(MountFault::NoMemory),
    }
}

// Reads the journal of a root, and makes its bodies of the objects in the pages. It answers the gate that ends the journal, too.
fn read_on<W: Station>(
    alloc: Global,
    w: &mut W,
    schema: &Schema,
    root: &Root,
    loaded: Loaded,
) -> Result<(Mounted, u32), MountFault>
    requires { HasLoaded schema.now root.now loaded (W.content w.old) }
    ensures read { IfOk result (λ read. HasRead schema.now read.0 (W.content w.old)) }
    ensures end { IfOk result (λ read. read.1 ≡ read.0.store.journal.end) }
    ensures within { IfOk result (λ read. read.1 < journal_end) }
    ensures refused { IfErr result (λ fault. IfSome (W.content w.old) (IsRefusal schema.now fault)) }
    ensures reads { OnlyReads W.now W.content W.history W.speak_faults w.old w.new }
    ensures cause { HasCauseIf (W.disk_faults w.old) (W.disk_faults w.new) (is_mount_disk_fault result) }
{
    let journal = match replay(alloc, w, root.epoch) {
        Ok(journal) => journal,
        Err(fault) => return Err(of_journal(fault)),
    };
    match replay_on(alloc, schema, root, loaded, &journal) {
        Ok(mounted) => Ok((mounted, journal.end)),
        Err(fault) => Err(fault),
    }
}

// Reads the pages and the journal of a root.
fn read_behind<W: Station>(
    alloc: Global,
    w: &mut W,
    schema: &Schema,
    root: &Root,
) -> Result<(Mounted, u32), MountFault>
    requires sound { IsSoundSchema schema.now }
    requires limits { IsWithinLimits root.now }
    requires rooted { IfSome (W.content w.old) (IsRooted schema.now root.now) }
    ensures read { IfOk result (λ read. HasRead schema.now read.0 (W.content w.old)) }
    ensures end { IfOk result (λ read. read.1 ≡ read.0.store.journal.end) }
    ensures within { IfOk result (λ read. read.1 < journal_end) }
    ensures refused { IfErr result (λ fault. IfSome (W.content w.old) (IsRefusal schema.now fault)) }
    ensures reads { OnlyReads W.now W.content W.history W.speak_faults w.old w.new }
    ensures cause { HasCauseIf (W.disk_faults w.old) (W.disk_faults w.new) (is_mount_disk_fault result) }
{
    match load_pages(alloc, w, schema, root) {
        Ok(loaded) => read_on(alloc, w, schema, root, loaded),
        Err(fault) => Err(fault),
    }
}

/// Reads a store: its root, its pages, its journal, and what the bodies of this make of the objects in the pages; each is tested before
/// the next one is read. It answers the gate that ends the journal, too.
pub fn read_store<W: Station>(
    alloc: Global,
    w: &mut W,
    schema: &Schema,
) -> Result<(Mounted, u32), MountFault>
    requires { IsSoundSchema schema.now }
    ensures read { IfOk result (λ read. HasRead schema.now read.0 (W.content w.old)) }
    ensures end { IfOk result (λ read. read.1 ≡ read.0.store.journal.end) }
    ensures within { IfOk result (λ read. read.1 < journal_end) }
    ensures refused { IfErr result (λ fault. IfSome (W.content w.old) (IsRefusal schema.now fault)) }
    ensures reads { OnlyReads W.now W.content W.history W.speak_faults w.old w.new }
    ensures cause { HasCauseIf (W.disk_faults w.old) (W.disk_faults w.new) (is_mount_disk_fault result) }
{
    match read_rooted(alloc, w, schema) {
        Ok(root) => read_behind(alloc, w, schema, &root),
        Err(fault) => Err(fault),
    }
}
