// Every command of a script as one call.
ghost use Rattle.std.specs.Prelude.{◌≡◌, ◌+◌, ◌-◌, ◌<◌, ◌^◌, true, false, IfErr, IfOk, IfSome, OnOk, OnErr};
ghost use Rattle.pss_base.specs.Causes.{HasCauseIf};
ghost use Rattle.pss_base.specs.declared.stop.StoreStop.TheVariants as stop;
ghost use Rattle.pss_disk.specs.Moments.{IsSettled};
ghost use Rattle.page_format.specs.Faults.{is_disk_stop};
ghost use Rattle.type_layout.specs.Sound.{IsSoundSchema};
ghost use Rattle.pss_catalog.specs.Catalog.{Catalog};
ghost use Rattle.pss_machine.specs.declared.command.Command.TheVariants as commands;
ghost use Rattle.pss_machine.specs.Kept.{Kept, first_kept};
ghost use Rattle.pss_machine.specs.Deciding.{decision};
ghost use Rattle.pss_machine.specs.Moving.{moved};
ghost use Rattle.pss_recovery.specs.Mounted.{HasNoRecord};
ghost use Rattle.pss_recovery.specs.Silence.{IsSilent};
ghost use Rattle.commit_saving.specs.Saving.{BecomesSaved, IsSavedThroughout, StaysSaved, StoresNothing};
ghost use Rattle.connector.specs.Keeping.{Keeps, AnyKept, AnyObjects, AreWithin, HasObjects, schema_of, limits_of, store_of, performed_by, is_live};
ghost use Rattle.connector.specs.Rests.{HasShortRest};

use crate::performing::perform_counted;
use connector_parts::Parts;
use owner_accounts::Accounts;
use pss_base::{NoMemory, StoreStop};
use pss_copies::Attended;
use pss_disk::Station;
use pss_machine::{Command, Limits, Reply};
use pss_recovery::{Mounted, Store};
use schema_names::NamedSchema;
use std::alloc::Global;
use std::marker::Brand;
use std::sync::ledger::Blank;
use type_layout::Schema;

/// All that a service keeps of one schema: its objects, the owners and sessions that work with them, and the store that holds
/// what was committed.
///
/// Contracts see what the machine keeps of all this (`Keeps`). What the store holds is said of the content of its station
/// (`BecomesSaved`).
pub struct Connector {
    pub(crate) parts: Parts,
    pub(crate) store: Store,
    pub(crate) live: bool,
    pub(crate) performed: u32,
}

// Written out: whoever drops a connector calls this, and need not prove of each of its parts that it may be dropped.
impl Drop for Connector {
    fn drop(self) {
        let Connector {
            parts: _,
            store: _,
            live: _,
            performed: _,
        } = self;
    }
}

impl Connector {
    /// A connector over what was mounted, in which nobody has done anything yet. None of the limits is above the standard one.
    ///
    /// `NoMemory`: the schema and what was mounted are gone with it. The store's file is as it was.
    pub fn new(
        alloc: Global,
        schema: Schema,
        mounted: Mounted,
        limits: Limits,
    ) -> Result<Connector, NoMemory>
        requires sound { IsSoundSchema schema }
        requires objects { AnyObjects schema mounted }
        requires limits { AreWithin limits }
        ensures kept { IfOk result (λ c. (M : Catalog) → HasObjects schema M mounted → Keeps c (first_kept M mounted.next)) }
        ensures store { IfOk result (λ c. store_of c ≡ mounted.store) }
        ensures schema { IfOk result (λ c. schema_of c ≡ schema) }
        ensures limits { IfOk result (λ c. limits_of c ≡ limits) }
        ensures performed { IfOk result (λ c. performed_by c ≡ 0) }
        ensures live { IfOk result (λ c. is_live c ≡ true) }
    {
        let Mounted { store, homes, next } = mounted;
        let accounts = Accounts::new(alloc, homes, next)?;
        let schema = NamedSchema::new(alloc, schema)?;
        Ok(Connector {
            parts: Parts {
                alloc,
                schema,
                limits,
                accounts,
                attended: Attended::new(alloc),
            },
            store,
            live: true,
            performed: 0,
        })
    }

    /// Performs a command: the reply is the machine's, and the machine's state after it is kept. At most 4,294,967,295
    /// commands are performed.
    ///
    /// At each moment each image stands for the objects before the command, with the next serial that was stored; or, where
    /// it is a commit or flush that changes an object, for the objects after it, with the next serial that the machine has. After
    /// `Ok` each stands for the latter, and nothing is pending. A command that stores nothing does not call the disk, but for a
    /// checkpoint.
    ///
    /// `DiskFault`: a call of the disk failed. `NoMemory`: there was no memory, and each image at each moment stands for the
    /// objects before. After either the connector is not live any more, and nothing more is said of it.
    pub fn perform<W: Station>(
        &mut self,
        station: &mut W,
        command: &Command<'_>,
    ) -> Result<Reply, StoreStop>
        requires live { is_live self.old ≡ true }
        requires kept { AnyKept self.old }
        requires left { performed_by self.old < 2 ^ 32 - 1 }
        requires rest { HasShortRest command.now }
        requires settled { IsSettled (W.content station.old) (W.now station.old) }
        ensures reply { IfOk result (λ reply. (k : Kept) → Keeps self.old k → reply ≡ (decision (schema_of self.old) (limits_of self.old) k command.now).reply) }
        ensures kept { OnOk result ((k : Kept) → Keeps self.old k → Keeps self.new (moved k (decision (schema_of self.old) (limits_of self.old) k command.now).effect)) }
        ensures saved { OnOk result ((k : Kept) → Keeps self.old k → BecomesSaved W.content (schema_of self.old) k (decision (schema_of self.old) (limits_of self.old) k command.now).effect (store_of self.old) (store_of self.new) station.old station.new) }
        ensures images { (k : Kept) → Keeps self.old k → IsSavedThroughout W.content W.history (schema_of self.old) k (decision (schema_of self.old) (limits_of self.old) k command.now).effect (store_of self.old) station.old station.new }
        ensures memory { IfErr result (λ why. why ≡ stop.NoMemory → (k : Kept) → Keeps self.old k → StaysSaved W.content W.history (schema_of self.old) k (store_of self.old) station.old station.new) }
        ensures still { (command.now ≡ commands.Checkpoint → ⊥) → (k : Kept) → Keeps self.old k → StoresNothing k (decision (schema_of self.old) (limits_of self.old) k command.now).effect → station.new ≡ station.old }
        ensures emptied { command.now ≡ commands.Checkpoint → OnOk result (IfSome (W.content station.new) HasNoRecord) }
        ensures settled { OnOk result (IsSettled (W.content station.new) (W.now station.new)) }
        ensures silent { IsSilent W.now W.history W.speak_faults station.old station.new }
        ensures cause { HasCauseIf (W.disk_faults station.old) (W.disk_faults station.new) (is_disk_stop result) }
        ensures performed { OnOk result (performed_by self.new ≡ performed_by self.old + 1) }
        ensures live { OnOk result (is_live self.new ≡ true) }
        ensures ended { OnErr result (is_live self.new ≡ false) }
        ensures schema { OnOk result (schema_of self.new ≡ schema_of self.old) }
        ensures limits { OnOk result (limits_of self.new ≡ limits_of self.old) }
    {
        let performed = perform_counted::<Brand, W>(
            &mut self.parts,
            &mut self.store,
            station,
            command,
            Blank::new(1),
        );
        match performed {
            Ok(reply) => {
                self.performed += 1;
                Ok(reply)
            }
            Err(stop) => {
                self.live = false;
                Err(stop)
            }
        }
    }

    /// Whether commands may be performed: no memory was ever wanting, and the disk never failed.
    pub fn live(&self) -> bool
        ensures { result ≡ is_live self.now }
    {
        self.live
    }

    /// How many commands were performed.
    pub fn performed(&self) -> u32
        ensures { result ≡ performed_by self.now }
    {
        self.performed
    }
}
