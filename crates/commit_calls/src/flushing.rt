// Basic sessions commit.
ghost use Rattle.std.specs.Prelude.{◌≡◌, IfErr, IfOk, OnOk};
ghost use Rattle.pss_base.specs.Causes.{HasCauseIf};
ghost use Rattle.pss_base.specs.declared.stop.StoreStop.TheVariants as stop;
ghost use Rattle.pss_disk.specs.Moments.{IsSettled};
ghost use Rattle.page_format.specs.Faults.{is_disk_stop};
ghost use Rattle.pss_machine.specs.declared.command.Command.TheVariants as command;
ghost use Rattle.pss_machine.specs.Kept.{Kept};
ghost use Rattle.pss_machine.specs.Deciding.{decision};
ghost use Rattle.pss_recovery.specs.Silence.{IsSilent};
ghost use Rattle.connector_parts.specs.Stands.{AnyAt, IsAt, Comes};
ghost use Rattle.commit_calls.specs.Commits.{IsBehind};
ghost use Rattle.commit_saving.specs.Saving.{BecomesSaved, IsSavedThroughout, StaysSaved, StoresNothing, saved_by};

use crate::settling::{Way, settle};
use connector_parts::Parts;
use pss_base::{Steps, StoreStop};
use pss_disk::Station;
use pss_machine::{Kind, Reply, Text};
use pss_recovery::Store;
use std::sync::ledger::Ledger;

/// `flush S`: `OK`, `NOSESSION`, `KIND` or `FULL`. Where it changed an object, `OK` comes when the store holds the changes, with the
/// next serial. Where nothing is stored, the disk is not called.
///
/// At each moment each image stands for the objects before, with the next serial that was stored, or for those after. After
/// `NoMemory` each stands for those before. After either error neither parts nor store are used again.
pub fn flush<L: Ledger, W: Station>(
    parts: &mut Parts,
    store: &mut Store,
    station: &mut W,
    name: &Text<'_>,
    steps: &mut Steps<L>,
) -> Result<Reply, StoreStop>
    requires any { AnyAt parts.old }
    requires behind { IsBehind parts.old store.old }
    requires settled { IsSettled (W.content station.old) (W.now station.old) }
    ensures comes { IfOk result (λ reply. (k : Kept) → IsAt parts.old k → Comes parts.old k (command.Flush name.now) reply parts.new) }
    ensures saved { OnOk result ((k : Kept) → IsAt parts.old k → BecomesSaved W.content parts.old.schema k (decision parts.old.schema parts.old.limits k (command.Flush name.now)).effect store.old store.new station.old station.new) }
    ensures images { (k : Kept) → IsAt parts.old k → IsSavedThroughout W.content W.history parts.old.schema k (decision parts.old.schema parts.old.limits k (command.Flush name.now)).effect store.old station.old station.new }
    ensures memory { IfErr result (λ why. why ≡ stop.NoMemory → (k : Kept) → IsAt parts.old k → StaysSaved W.content W.history parts.old.schema k store.old station.old station.new) }
    ensures next { OnOk result ((k : Kept) → IsAt parts.old k → store.new.next ≡ saved_by k store.old.next (decision parts.old.schema parts.old.limits k (command.Flush name.now)).effect) }
    ensures still { (k : Kept) → IsAt parts.old k → StoresNothing k (decision parts.old.schema parts.old.limits k (command.Flush name.now)).effect → station.new ≡ station.old }
    ensures settled { OnOk result (IsSettled (W.content station.new) (W.now station.new)) }
    ensures silent { IsSilent W.now W.history W.speak_faults station.old station.new }
    ensures cause { HasCauseIf (W.disk_faults station.old) (W.disk_faults station.new) (is_disk_stop result) }
{
    let Some(found) = parts.session(name.as_slice()) else {
        return Ok(Reply::NoSession);
    };
    match found.standing.kind {
        Kind::Basic(owner) => settle(parts, store, station, owner, Way::Flush, steps),
        Kind::Transactional => Ok(Reply::Kind),
    }
}
