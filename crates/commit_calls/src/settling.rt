// What an owner changed is stored, and then committed.
ghost use Rattle.std.specs.Prelude.{◌≡◌, IfErr, IfOk, OnOk};
ghost use Rattle.pss_base.specs.Causes.{HasCauseIf};
ghost use Rattle.pss_base.specs.declared.stop.StoreStop.TheVariants as stop;
ghost use Rattle.pss_disk.specs.Moments.{IsSettled};
ghost use Rattle.page_format.specs.Faults.{is_disk_stop};
ghost use Rattle.pss_machine.specs.Kept.{Kept};
ghost use Rattle.pss_machine.specs.Deciding.{unless_full};
ghost use Rattle.pss_machine.specs.Effects.{Commits, Flushes};
ghost use Rattle.pss_machine.specs.Moving.{moved};
ghost use Rattle.pss_recovery.specs.Silence.{IsSilent};
ghost use Rattle.pss_copies.specs.Ruled.{AreOwned};
ghost use Rattle.connector_parts.specs.Stands.{Stands, StayAs};
ghost use Rattle.commit_calls.specs.Ready.{MayMakeReady, IsReady};
ghost use Rattle.commit_calls.specs.Commits.{MayCommit, MayApply, IsBehind, Follows};
ghost use Rattle.commit_calls.specs.Ways.{effect_of, MaySettle};
ghost use Rattle.commit_saving.specs.Saving.{BecomesSaved, IsSavedThroughout, StaysSaved, StoresNothing, saved_by};

use crate::ready::Ready;
use crate::storing::store_changes;
use connector_parts::Parts;
use pss_base::{OwnerNo, Steps, StoreStop};
use pss_disk::Station;
use pss_machine::Reply;
use pss_recovery::Store;
use std::sync::ledger::Ledger;

/// What becomes of an owner whose changes are committed.
#[derive(Clone, Copy, Drop)]
pub enum Way {
    /// A transaction goes.
    Commit,
    /// A basic session's owner begins anew.
    Flush,
}

// What was made ready is committed, and the transaction goes. It takes no memory.
fn commit_ready<L: Ledger>(parts: &mut Parts, owner: OwnerNo, ready: Ready, steps: &mut Steps<L>)
    requires { MayApply parts.old owner ready }
    ensures committed { (k : Kept) → Stands parts.old k → IsReady parts.old k owner ready → MayCommit k owner → Stands parts.new (moved k (Commits owner)) }
    ensures rest { StayAs parts.old parts.new }
{
    let Ready { commit, pids } = ready;
    parts.accounts.commit(commit);
    parts.attended.commit(owner, pids.as_slice(), steps);
    parts.accounts.leave(owner, steps);
}

// What was made ready is committed, and the basic session begins anew. It takes no memory.
fn flush_ready<L: Ledger>(parts: &mut Parts, owner: OwnerNo, ready: Ready, steps: &mut Steps<L>)
    requires { MayApply parts.old owner ready }
    ensures flushed { (k : Kept) → Stands parts.old k → IsReady parts.old k owner ready → AreOwned k.owners k.sessions k.next_owner → Stands parts.new (moved k (Flushes owner)) }
    ensures rest { StayAs parts.old parts.new }
{
    let Ready { commit, pids } = ready;
    parts.accounts.commit(commit);
    parts
        .attended
        .flush(owner, pids.as_slice(), pids.own(), steps);
    parts.accounts.empty(owner, steps);
}

// What was made ready is committed. It takes no memory.
fn apply<L: Ledger>(parts: &mut Parts, owner: OwnerNo, way: Way, ready: Ready, steps: &mut Steps<L>)
    requires { MayApply parts.old owner ready }
    ensures settled { (k : Kept) → Stands parts.old k → IsReady parts.old k owner ready → MaySettle way k owner → Stands parts.new (moved k (effect_of way owner)) }
    ensures rest { StayAs parts.old parts.new }
{
    match way {
        Way::Commit => commit_ready(parts, owner, ready, steps),
        Way::Flush => flush_ready(parts, owner, ready, steps),
    }
}

/// An owner commits what it changed: memory is made ready first, then the changes are stored, and what follows takes no
/// memory.
pub fn settle<L: Ledger, W: Station>(
    parts: &mut Parts,
    store: &mut Store,
    station: &mut W,
    owner: OwnerNo,
    way: Way,
    steps: &mut Steps<L>,
) -> Result<Reply, StoreStop>
    requires ready { MayMakeReady parts.old owner }
    requires behind { IsBehind parts.old store.old }
    requires settled { IsSettled (W.content station.old) (W.now station.old) }
    ensures follows { IfOk result (λ reply. (m : MayMakeReady parts.old owner) → MaySettle way m.kept owner → Follows parts.old m.kept (unless_full parts.old.schema parts.old.limits m.kept owner (effect_of way owner)) reply parts.new) }
    ensures saved { OnOk result ((m : MayMakeReady parts.old owner) → BecomesSaved W.content parts.old.schema m.kept (unless_full parts.old.schema parts.old.limits m.kept owner (effect_of way owner)).effect store.old store.new station.old station.new) }
    ensures images { (m : MayMakeReady parts.old owner) → IsSavedThroughout W.content W.history parts.old.schema m.kept (unless_full parts.old.schema parts.old.limits m.kept owner (effect_of way owner)).effect store.old station.old station.new }
    ensures memory { IfErr result (λ why. why ≡ stop.NoMemory → (m : MayMakeReady parts.old owner) → StaysSaved W.content W.history parts.old.schema m.kept store.old station.old station.new) }
    ensures next { OnOk result ((m : MayMakeReady parts.old owner) → store.new.next ≡ saved_by m.kept store.old.next (unless_full parts.old.schema parts.old.limits m.kept owner (effect_of way owner)).effect) }
    ensures still { (m : MayMakeReady parts.old owner) → StoresNothing m.kept (unless_full parts.old.schema parts.old.limits m.kept owner (effect_of way owner)).effect → station.new ≡ station.old }
    ensures settled { OnOk result (IsSettled (W.content station.new) (W.now station.new)) }
    ensures silent { IsSilent W.now W.history W.speak_faults station.old station.new }
    ensures cause { HasCauseIf (W.disk_faults station.old) (W.disk_faults station.new) (is_disk_stop result) }
{
    match store_changes(parts, store, station, owner)? {
        Some(ready) => {
            apply(parts, owner, way, ready, steps);
            Ok(Reply::Done)
        }
        None => Ok(Reply::Full),
    }
}
