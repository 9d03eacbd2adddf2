// What is committed is stored.
ghost use Rattle.std.specs.Prelude.{ℕ, ◌≡◌, [], IfErr, IfOk, IfSome, IsOk, OnOk};
ghost use Rattle.pss_base.specs.Causes.{HasCauseIf};
ghost use Rattle.pss_base.specs.declared.stop.StoreStop.TheVariants as stop;
ghost use Rattle.pss_catalog.specs.Catalog.{Catalog};
ghost use Rattle.pss_disk.specs.Moments.{IsSettled, Through};
ghost use Rattle.page_format.specs.Faults.{is_disk_stop};
ghost use Rattle.page_store.specs.Stores.{AllHave};
ghost use Rattle.type_layout.specs.declared.schema.Schema.{Schema};
ghost use Rattle.pss_recovery.specs.Mounted.{IsMounted, IsPrepared, MayFollow, StandsEither};
ghost use Rattle.pss_recovery.specs.Silence.{IsSilent};
ghost use Rattle.pss_recovery.specs.Stands.{Stands};
ghost use Rattle.commit_saving.specs.Saving.{IfTold, Leaves, MaySave, body_for, saved_next};

use pss_base::{NoMemory, Puts, StoreStop};
use pss_disk::Station;
use pss_recovery::{Body, Store, copy_put};
use std::alloc::Global;
use storage_home::Change;

// The changes as a body of the journal.
fn body_of(alloc: Global, changes: &[Change], next: u64) -> Result<Body, NoMemory>
    ensures { IfOk result (λ body. body ≡ body_for next changes.now) }
{
    let mut puts = Vec::with_capacity(alloc, changes.len())?;
    for change in changes {
        puts.push(copy_put(&change.put)?)?;
    }
    let puts = Puts::from_vec(puts);
    Ok(Body { next, puts })
}

// A body is stored: room is made for it first, and what follows takes no memory.
fn save_body<W: Station>(store: &mut Store, station: &mut W, body: Body) -> Result<(), StoreStop>
    requires body { MayFollow store.old.next body }
    requires settled { IsSettled (W.content station.old) (W.now station.old) }
    ensures saved { OnOk result ((S : Schema) (M N : Catalog) (saved : ℕ) → IfSome (W.content station.old) (λ before. IsPrepared S M saved store.old body N before → IfTold (W.content station.new) (IsMounted S N body.next store.new))) }
    ensures images { (S : Schema) (M N : Catalog) (saved : ℕ) → IfSome (W.content station.old) (λ before. IsPrepared S M saved store.old body N before → Through (W.history station.old) (W.history station.new) (AllHave (StandsEither S M saved N body.next))) }
    ensures memory { IfErr result (λ why. why ≡ stop.NoMemory → (S : Schema) (M : Catalog) (saved : ℕ) → IfSome (W.content station.old) (λ before. IsMounted S M saved store.old before → Through (W.history station.old) (W.history station.new) (AllHave (Stands S M saved)))) }
    ensures next { OnOk result (store.new.next ≡ body.next) }
    ensures settled { OnOk result (IsSettled (W.content station.new) (W.now station.new)) }
    ensures silent { IsSilent W.now W.history W.speak_faults station.old station.new }
    ensures cause { HasCauseIf (W.disk_faults station.old) (W.disk_faults station.new) (is_disk_stop result) }
{
    match store.prepare(station, body) {
        Ok(prepared) => match store.commit(station, prepared) {
            Ok(()) => Ok(()),
            Err(_) => Err(StoreStop::DiskFault),
        },
        Err(stop) => Err(stop),
    }
}

/// Stores what a commit changes, and the next serial with it; a commit that changes nothing stores nothing, and calls no disk.
/// All memory that it takes it takes before a change is stored: where there is none, each image at each moment stands for
/// what it stood for.
pub fn save<W: Station>(
    alloc: Global,
    store: &mut Store,
    station: &mut W,
    changes: &[Change],
    next: u64,
) -> Result<(), StoreStop>
    requires may { MaySave store.old next changes.now }
    requires settled { IsSettled (W.content station.old) (W.now station.old) }
    ensures saved { OnOk result ((S : Schema) (M N : Catalog) (saved : ℕ) → Leaves S M saved next changes.now N → IfSome (W.content station.old) (λ before. IsMounted S M saved store.old before → IfTold (W.content station.new) (IsMounted S N (saved_next saved next changes.now) store.new))) }
    ensures images { (S : Schema) (M N : Catalog) (saved : ℕ) → Leaves S M saved next changes.now N → IfSome (W.content station.old) (λ before. IsMounted S M saved store.old before → Through (W.history station.old) (W.history station.new) (AllHave (StandsEither S M saved N (saved_next saved next changes.now)))) }
    ensures memory { IfErr result (λ why. why ≡ stop.NoMemory → (S : Schema) (M : Catalog) (saved : ℕ) → IfSome (W.content station.old) (λ before. IsMounted S M saved store.old before → Through (W.history station.old) (W.history station.new) (AllHave (Stands S M saved)))) }
    ensures next { OnOk result (store.new.next ≡ saved_next store.old.next next changes.now) }
    ensures still { changes.now ≡ [] → (station.new ≡ station.old) × (store.new ≡ store.old) × IsOk result }
    ensures settled { OnOk result (IsSettled (W.content station.new) (W.now station.new)) }
    ensures silent { IsSilent W.now W.history W.speak_faults station.old station.new }
    ensures cause { HasCauseIf (W.disk_faults station.old) (W.disk_faults station.new) (is_disk_stop result) }
{
    if changes.is_empty() {
        return Ok(());
    }
    match body_of(alloc, changes, next) {
        Ok(body) => save_body(store, station, body),
        Err(_) => Err(StoreStop::NoMemory),
    }
}
