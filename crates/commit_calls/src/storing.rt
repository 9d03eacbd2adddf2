// What owners changed is stored.
ghost use Rattle.std.specs.Prelude.{◌≡◌, [], not, is_some, IfErr, IfOk, IfSome, OnOk};
ghost use Rattle.pss_base.specs.Causes.{HasCauseIf};
ghost use Rattle.pss_base.specs.declared.stop.StoreStop.TheVariants as stop;
ghost use Rattle.pss_disk.specs.Moments.{IsSettled};
ghost use Rattle.type_layout.specs.declared.schema.Schema.{Schema};
ghost use Rattle.page_format.specs.Faults.{is_disk_stop};
ghost use Rattle.pss_machine.specs.Kept.{Kept};
ghost use Rattle.pss_machine.specs.Deciding.{is_over_full, unless_full};
ghost use Rattle.pss_machine.specs.Effects.{Effect};
ghost use Rattle.pss_recovery.specs.Silence.{IsSilent};
ghost use Rattle.connector_parts.specs.Stands.{Stands, IsAt, StayAs};
ghost use Rattle.commit_calls.specs.Ready.{MayMakeReady, IsReady};
ghost use Rattle.commit_calls.specs.Commits.{IsBehind};
ghost use Rattle.commit_calls.specs.Storing.{StoresNet, Made, Came};
ghost use Rattle.commit_saving.specs.Saving.{MaySave, BecomesSaved, IsSavedThroughout, StaysSaved, StoresNothing, saved_by, saved_next};

use crate::ready::{Ready, make_ready};
use commit_saving::save;
use connector_parts::Parts;
use pss_base::{OwnerNo, StoreStop};
use pss_disk::Station;
use pss_recovery::Store;
use std::alloc::Global;

// Stores what was made ready, with this next serial.
fn store_ready<W: Station>(
    alloc: Global,
    store: &mut Store,
    station: &mut W,
    ready: &Ready,
    next: u64,
) -> Result<(), StoreStop>
    requires may { MaySave store.old next ready.now.commit.changes }
    requires settled { IsSettled (W.content station.old) (W.now station.old) }
    ensures saved { OnOk result (Made store.old store.new (W.content station.old) (W.content station.new) next ready.now.commit.changes) }
    ensures images { Came store.old (W.content station.old) (W.history station.old) (W.history station.new) next ready.now.commit.changes }
    ensures memory { IfErr result (λ why. why ≡ stop.NoMemory → (S : Schema) (k : Kept) → StaysSaved W.content W.history S k store.old station.old station.new) }
    ensures next { OnOk result (store.new.next ≡ saved_next store.old.next next ready.now.commit.changes) }
    ensures still { ready.now.commit.changes ≡ [] → station.new ≡ station.old }
    ensures settled { OnOk result (IsSettled (W.content station.new) (W.now station.new)) }
    ensures silent { IsSilent W.now W.history W.speak_faults station.old station.new }
    ensures cause { HasCauseIf (W.disk_faults station.old) (W.disk_faults station.new) (is_disk_stop result) }
{
    save(
        alloc,
        store,
        station,
        ready.commit.changes().as_slice(),
        next,
    )
}

/// Makes ready what an owner changed, and stores it with the next serial. None exactly where the objects would weigh more together
/// than they may: then nothing is stored. Where nothing is stored, the disk is not called.
pub fn store_changes<W: Station>(
    parts: &mut Parts,
    store: &mut Store,
    station: &mut W,
    owner: OwnerNo,
) -> Result<Option<Ready>, StoreStop>
    requires ready { MayMakeReady parts.old owner }
    requires behind { IsBehind parts.old store.old }
    requires settled { IsSettled (W.content station.old) (W.now station.old) }
    ensures full { IfOk result (λ found. (m : MayMakeReady parts.old owner) → is_some found ≡ not (is_over_full parts.old.schema parts.old.limits m.kept.catalog m.owner)) }
    ensures ready { IfOk result (λ found. IfSome found (λ ready. (m : MayMakeReady parts.old owner) → IsReady parts.new m.kept owner ready)) }
    ensures stands { OnOk result ((k : Kept) → IsAt parts.old k → Stands parts.new k) }
    ensures rest { StayAs parts.old parts.new }
    ensures saved { OnOk result ((m : MayMakeReady parts.old owner) (e : Effect) → StoresNet m.kept m.owner e → BecomesSaved W.content parts.old.schema m.kept (unless_full parts.old.schema parts.old.limits m.kept owner e).effect store.old store.new station.old station.new) }
    ensures images { (m : MayMakeReady parts.old owner) (e : Effect) → StoresNet m.kept m.owner e → IsSavedThroughout W.content W.history parts.old.schema m.kept (unless_full parts.old.schema parts.old.limits m.kept owner e).effect store.old station.old station.new }
    ensures memory { IfErr result (λ why. why ≡ stop.NoMemory → (m : MayMakeReady parts.old owner) → StaysSaved W.content W.history parts.old.schema m.kept store.old station.old station.new) }
    ensures next { OnOk result ((m : MayMakeReady parts.old owner) (e : Effect) → StoresNet m.kept m.owner e → store.new.next ≡ saved_by m.kept store.old.next (unless_full parts.old.schema parts.old.limits m.kept owner e).effect) }
    ensures still { (m : MayMakeReady parts.old owner) (e : Effect) → StoresNet m.kept m.owner e → StoresNothing m.kept (unless_full parts.old.schema parts.old.limits m.kept owner e).effect → station.new ≡ station.old }
    ensures settled { OnOk result (IsSettled (W.content station.new) (W.now station.new)) }
    ensures silent { IsSilent W.now W.history W.speak_faults station.old station.new }
    ensures cause { HasCauseIf (W.disk_faults station.old) (W.disk_faults station.new) (is_disk_stop result) }
{
    let next = parts.accounts.next();
    match make_ready(parts, owner)? {
        Some(ready) => match store_ready(parts.alloc, store, station, &ready, next) {
            Ok(()) => Ok(Some(ready)),
            Err(stop) => Err(stop),
        },
        None => Ok(None),
    }
}
