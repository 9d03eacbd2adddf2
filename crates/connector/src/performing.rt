// One command.
ghost use Rattle.std.specs.Prelude.{◌≡◌, ◌<◌, IfErr, IfOk, IfSome, OnOk};
ghost use Rattle.pss_base.specs.Causes.{HasCauseIf};
ghost use Rattle.pss_base.specs.declared.stop.StoreStop.TheVariants as stop;
ghost use Rattle.pss_disk.specs.Moments.{IsSettled};
ghost use Rattle.page_format.specs.Faults.{is_disk_stop};
ghost use Rattle.pss_machine.specs.declared.command.Command.TheVariants as commands;
ghost use Rattle.pss_machine.specs.Kept.{Kept};
ghost use Rattle.pss_machine.specs.Deciding.{decision};
ghost use Rattle.pss_recovery.specs.Mounted.{HasNoRecord};
ghost use Rattle.pss_recovery.specs.Silence.{IsSilent};
ghost use Rattle.connector_parts.specs.Stands.{AnyAt, IsAt, Comes};
ghost use Rattle.commit_saving.specs.Saving.{BecomesSaved, IsSavedThroughout, StaysSaved, StoresNothing, saved_by};
ghost use Rattle.commit_calls.specs.Commits.{IsBehind};
ghost use Rattle.connector.specs.Rests.{HasShortRest};
ghost use Rattle.connector.specs.Storing.{IsInMemory};

use connector_parts::Parts;
use pss_base::{NoMemory, Steps, StoreStop};
use pss_disk::Station;
use pss_machine::{Command, Reply};
use pss_recovery::Store;
use std::sync::ledger::{Blank, Ledger};

// What a command comes to that has nothing to do with the store.
fn perform_in_memory<L: Ledger>(
    parts: &mut Parts,
    command: &Command<'_>,
    steps: &mut Steps<L>,
) -> Result<Reply, NoMemory>
    requires any { AnyAt parts.old }
    requires rest { HasShortRest command.now }
    requires memory { IsInMemory command.now }
    ensures { IfOk result (λ reply. (k : Kept) → IsAt parts.old k → Comes parts.old k command.now reply parts.new) }
{
    match command {
        Command::OpenSession { s, tx, write } => session_calls::open(parts, s, *tx, *write),
        Command::Close { s } => session_calls::close(parts, s, steps),
        Command::Begin { t, serializable } => session_calls::begin(parts, t, *serializable),
        Command::Start { s, t } => session_calls::start(parts, s, t),
        Command::Suspend { s } => Ok(session_calls::suspend(parts, s)),
        Command::End { s, ok } => Ok(session_calls::end(parts, s, *ok, steps)),
        Command::Status { s } => Ok(session_calls::status(parts, s)),
        Command::Rollback { t } => Ok(session_calls::rollback(parts, t, steps)),
        Command::Home { s, home } => session_calls::home(parts, s, home),
        Command::Create { s, home, values } => data_calls::create(parts, s, home, values, steps),
        Command::Make {
            s,
            home,
            factory,
            values,
        } => data_calls::make(parts, s, home, factory, values, steps),
        Command::Find {
            s,
            home,
            key,
            values,
        } => data_calls::find(parts, s, home, key, values, steps),
        Command::FindRef {
            s,
            home,
            key,
            values,
        } => data_calls::findref(parts, s, home, key, values, steps),
        Command::Pid { s, pid } => data_calls::pid(parts, s, *pid, steps),
        Command::Short { s, home, serial } => data_calls::short(parts, s, home, *serial, steps),
        Command::Exists { s, entry } => data_calls::exists(parts, s, *entry, steps),
        Command::Get { s, entry, member } => data_calls::get(parts, s, *entry, member, steps),
        Command::Set {
            s,
            entry,
            member,
            value,
        } => data_calls::set(parts, s, *entry, member, value, steps),
        Command::Destroy { s, entry } => data_calls::destroy(parts, s, *entry, steps),
        Command::Follow { s, entry, member } => data_calls::follow(parts, s, *entry, member, steps),
        Command::Count { s, home } => data_calls::count(parts, s, home, steps),
        Command::List { s, home } => data_calls::list(parts, s, home, steps),
        Command::PidOf { s, entry } => Ok(session_calls::pid_of(parts, s, *entry)),
        Command::Dup { s, entry } => Ok(session_calls::dup(parts, s, *entry)),
        Command::Release { s, entry } => Ok(session_calls::release(parts, s, *entry, steps)),
        Command::FreeAll { s } => Ok(session_calls::free_all(parts, s, steps)),
        Command::Refresh { s } => Ok(session_calls::refresh(parts, s, steps)),
        Command::Stat => Ok(session_calls::stat(parts)),
        Command::History => session_calls::history(parts),
        Command::Commit { .. } => unreachable!(),
        Command::Flush { .. } => unreachable!(),
        Command::Checkpoint => unreachable!(),
    }
}

// What a command comes to.
fn perform<L: Ledger, W: Station>(
    parts: &mut Parts,
    store: &mut Store,
    station: &mut W,
    command: &Command<'_>,
    steps: &mut Steps<L>,
) -> Result<Reply, StoreStop>
    requires any { AnyAt parts.old }
    requires rest { HasShortRest command.now }
    requires behind { IsBehind parts.old store.old }
    requires settled { IsSettled (W.content station.old) (W.now station.old) }
    ensures comes { IfOk result (λ reply. (k : Kept) → IsAt parts.old k → Comes parts.old k command.now reply parts.new) }
    ensures saved { OnOk result ((k : Kept) → IsAt parts.old k → BecomesSaved W.content parts.old.schema k (decision parts.old.schema parts.old.limits k command.now).effect store.old store.new station.old station.new) }
    ensures images { (k : Kept) → IsAt parts.old k → IsSavedThroughout W.content W.history parts.old.schema k (decision parts.old.schema parts.old.limits k command.now).effect store.old station.old station.new }
    ensures memory { IfErr result (λ why. why ≡ stop.NoMemory → (k : Kept) → IsAt parts.old k → StaysSaved W.content W.history parts.old.schema k store.old station.old station.new) }
    ensures next { OnOk result ((k : Kept) → IsAt parts.old k → store.new.next ≡ saved_by k store.old.next (decision parts.old.schema parts.old.limits k command.now).effect) }
    ensures still { (command.now ≡ commands.Checkpoint → ⊥) → (k : Kept) → IsAt parts.old k → StoresNothing k (decision parts.old.schema parts.old.limits k command.now).effect → station.new ≡ station.old }
    ensures emptied { command.now ≡ commands.Checkpoint → OnOk result (IfSome (W.content station.new) HasNoRecord) }
    ensures settled { OnOk result (IsSettled (W.content station.new) (W.now station.new)) }
    ensures silent { IsSilent W.now W.history W.speak_faults station.old station.new }
    ensures cause { HasCauseIf (W.disk_faults station.old) (W.disk_faults station.new) (is_disk_stop result) }
{
    match command {
        Command::Commit { t } => commit_calls::commit(parts, store, station, t, steps),
        Command::Flush { s } => commit_calls::flush(parts, store, station, s, steps),
        Command::Checkpoint => match store.checkpoint(station) {
            Ok(()) => Ok(Reply::Done),
            Err(stop) => Err(stop),
        },
        _ => match perform_in_memory(parts, command, steps) {
            Ok(reply) => Ok(reply),
            Err(NoMemory) => Err(StoreStop::NoMemory),
        },
    }
}

/// Performs a command, with a count of steps that nobody reads.
pub fn perform_counted<L: Ledger, W: Station>(
    parts: &mut Parts,
    store: &mut Store,
    station: &mut W,
    command: &Command<'_>,
    blank: Blank,
) -> Result<Reply, StoreStop>
    requires name { blank.name ≡ L.name }
    requires parts { blank.parts ≡ L.parts }
    requires some { 0 < blank.parts }
    requires any { AnyAt parts.old }
    requires rest { HasShortRest command.now }
    requires behind { IsBehind parts.old store.old }
    requires settled { IsSettled (W.content station.old) (W.now station.old) }
    ensures comes { IfOk result (λ reply. (k : Kept) → IsAt parts.old k → Comes parts.old k command.now reply parts.new) }
    ensures saved { OnOk result ((k : Kept) → IsAt parts.old k → BecomesSaved W.content parts.old.schema k (decision parts.old.schema parts.old.limits k command.now).effect store.old store.new station.old station.new) }
    ensures images { (k : Kept) → IsAt parts.old k → IsSavedThroughout W.content W.history parts.old.schema k (decision parts.old.schema parts.old.limits k command.now).effect store.old station.old station.new }
    ensures memory { IfErr result (λ why. why ≡ stop.NoMemory → (k : Kept) → IsAt parts.old k → StaysSaved W.content W.history parts.old.schema k store.old station.old station.new) }
    ensures next { OnOk result ((k : Kept) → IsAt parts.old k → store.new.next ≡ saved_by k store.old.next (decision parts.old.schema parts.old.limits k command.now).effect) }
    ensures still { (command.now ≡ commands.Checkpoint → ⊥) → (k : Kept) → IsAt parts.old k → StoresNothing k (decision parts.old.schema parts.old.limits k command.now).effect → station.new ≡ station.old }
    ensures emptied { command.now ≡ commands.Checkpoint → OnOk result (IfSome (W.content station.new) HasNoRecord) }
    ensures settled { OnOk result (IsSettled (W.content station.new) (W.now station.new)) }
    ensures silent { IsSilent W.now W.history W.speak_faults station.old station.new }
    ensures cause { HasCauseIf (W.disk_faults station.old) (W.disk_faults station.new) (is_disk_stop result) }
{
    let mut steps = Steps::<L>::new(blank);
    perform(parts, store, station, command, &mut steps)
}
