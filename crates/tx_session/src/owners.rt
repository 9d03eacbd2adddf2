// Owners, and what may be asked of each.
ghost use Rattle.std.specs.Prelude.{◌≡◌, ◌+◌, ◌≤◌, ◌^◌, ◌↔◌, Some, None, IsSome, IfOk, OnOk, OnErr, map, min, sum};
ghost use Rattle.std.specs.Option.{option_map};
ghost use Rattle.std.specs.FinMap.{get, insert, remove, empty, len, entries};
ghost use Rattle.std.specs.FinSet as set;
ghost use Rattle.type_layout.specs.declared.schema.Schema.{Schema as PlainSchema};
ghost use Rattle.pss_base.specs.declared.owner.OwnerNo.{OwnerNo as Number};
ghost use Rattle.pss_catalog.specs.Catalog.{total};
ghost use Rattle.pss_catalog.specs.Changes.{over};
ghost use Rattle.pss_machine.specs.declared.answer.Answer.TheVariants as told;
ghost use Rattle.pss_machine.specs.Maps.{with_at};
ghost use Rattle.pss_machine.specs.Operations.{plain_op, plain_answer};
ghost use Rattle.pss_machine.specs.Owners.{Owner, new_owner, has_changed, net, blocker, view, stepped};
ghost use Rattle.storage_home.specs.Applied.{AreChanges};
ghost use Rattle.lock_table.specs.Agreement.{locks_of};
ghost use Rattle.owner_view.specs.Net.{AreNet};
ghost use Rattle.owner_view.specs.States.{AreValued};
ghost use Rattle.tx_session.specs.Kept.{IsNew};
ghost use Rattle.tx_session.specs.Owners.{owners_in, Under, MaySee, MayAct, step_of};
ghost use Rattle.tx_session.specs.Following.{MayFollow};

use crate::parts::Parts;
use crate::table;
use lock_table::LockTable;
use owner_view::Owned;
use pss_base::{NoMemory, OwnerNo, Pid, Steps};
use pss_machine::{Answer, Level, Op};
use std::alloc::Global;
use std::marker::Model;
use std::sync::ledger::Ledger;
use storage_home::{Changes, Homes};
use type_layout::{Record, Schema};

/// Owners, which are transactions and basic sessions: the level of each, what it has locked, and what it changed.
///
/// Contracts see the machine's owners (`owners_in`). The schema is the one given with the homes in each call; everything
/// must have been changed under it (`Under`), which holds under every schema of owners that are new, and is kept by each call.
#[derive(Drop)]
pub struct Owners {
    parts: Parts,
}

impl Model for Owners {
    ghost use Rattle.tx_session.specs.declared.parts.Parts.{Parts};

    ghost Value = { Parts };

    ghost use Rattle.tx_session.specs.contracts.parts.Parts as parts_code;

    ghost coded = { parts_code.the_row.coded };

    ghost use Rattle.tx_session.specs.Owners.{AreOwners};

    ghost view = { λ o. o.parts };

    ghost invariant = { λ o. AreOwners o.parts };
}

impl Owners {
    /// No owner. It takes no memory.
    pub fn new(alloc: Global) -> Owners
        ensures owners { owners_in result ≡ empty }
        ensures under { (S : PlainSchema) → Under S result }
    {
        Owners {
            parts: Parts {
                alloc,
                table: table::empty(alloc),
                locks: LockTable::new(alloc),
                ended: None,
            },
        }
    }

    /// An owner more, which has locked and changed nothing. There is none with this number yet.
    ///
    /// `NoMemory`: all is as before.
    pub fn add(&mut self, owner: OwnerNo, level: Level) -> Result<(), NoMemory>
        requires { get (owners_in self.old) owner.0 ≡ None }
        ensures ok { OnOk result (owners_in self.new ≡ insert (owners_in self.old) owner.0 (new_owner level)) }
        ensures err { OnErr result (owners_in self.new ≡ owners_in self.old) }
        ensures under { (S : PlainSchema) → Under S self.old → Under S self.new }
    {
        let parts = &mut self.parts;
        let new = begun(&mut parts.ended, parts.alloc, level);
        table::add(&mut parts.table, owner, new)
    }

    /// What an operation comes to for an owner. `Busy` names the least other owner with a lock that clashes with what is needed;
    /// then nothing has changed. Else the owner has locked what was needed, and the answer and the change are those of the
    /// operation alone on what the owner sees.
    ///
    /// It takes time in what the operation touches and in the owner's changes, whatever is stored.
    ///
    /// `NoMemory`: all is as before.
    #[inline(always)]
    pub fn act(
        &mut self,
        owner: OwnerNo,
        schema: &Schema,
        homes: &Homes,
        op: &Op,
    ) -> Result<Answer, NoMemory>
        requires may { MayAct schema.now homes.now (owners_in self.old) owner (plain_op op.now) }
        requires under { Under schema.now self.old }
        ensures busy { IfOk result (λ answer. (m : MayAct schema.now homes.now (owners_in self.old) owner (plain_op op.now)) (n : Number) → (answer ≡ told.Busy n) ↔ (blocker (owners_in self.old) owner (step_of m).needs ≡ Some n)) }
        ensures held_up { OnOk result ((m : MayAct schema.now homes.now (owners_in self.old) owner (plain_op op.now)) → IsSome (blocker (owners_in self.old) owner (step_of m).needs) → owners_in self.new ≡ owners_in self.old) }
        ensures answer { IfOk result (λ answer. (m : MayAct schema.now homes.now (owners_in self.old) owner (plain_op op.now)) → blocker (owners_in self.old) owner (step_of m).needs ≡ None → plain_answer answer ≡ (step_of m).answer) }
        ensures stepped { OnOk result ((m : MayAct schema.now homes.now (owners_in self.old) owner (plain_op op.now)) → blocker (owners_in self.old) owner (step_of m).needs ≡ None → owners_in self.new ≡ with_at (owners_in self.old) owner.0 (stepped (step_of m))) }
        ensures err { OnErr result (owners_in self.new ≡ owners_in self.old) }
        ensures under { Under schema.now self.new }
    {
        let step = self.parts.step_of(owner, schema, homes, op)?;
        match self.parts.locks.blocker(owner, &step.needs) {
            Some(other) => Ok(Answer::Busy(other)),
            None => self.parts.take(owner, step),
        }
    }

    /// Follows a member of an object, which in what the owner sees refers to this one, or to none. It comes to what `act` comes
    /// to, but reads no record.
    ///
    /// `NoMemory`: all is as before.
    pub fn follow(
        &mut self,
        owner: OwnerNo,
        schema: &Schema,
        homes: &Homes,
        pid: Pid,
        to: Option<Pid>,
    ) -> Result<Answer, NoMemory>
        requires may { MayFollow schema.now homes.now (owners_in self.old) owner pid to }
        requires under { Under schema.now self.old }
        ensures busy { IfOk result (λ answer. (m : MayFollow schema.now homes.now (owners_in self.old) owner pid to) (n : Number) → (answer ≡ told.Busy n) ↔ (blocker (owners_in self.old) owner (step_of m.act).needs ≡ Some n)) }
        ensures held_up { OnOk result ((m : MayFollow schema.now homes.now (owners_in self.old) owner pid to) → IsSome (blocker (owners_in self.old) owner (step_of m.act).needs) → owners_in self.new ≡ owners_in self.old) }
        ensures answer { IfOk result (λ answer. (m : MayFollow schema.now homes.now (owners_in self.old) owner pid to) → blocker (owners_in self.old) owner (step_of m.act).needs ≡ None → plain_answer answer ≡ (step_of m.act).answer) }
        ensures stepped { OnOk result ((m : MayFollow schema.now homes.now (owners_in self.old) owner pid to) → blocker (owners_in self.old) owner (step_of m.act).needs ≡ None → owners_in self.new ≡ with_at (owners_in self.old) owner.0 (stepped (step_of m.act))) }
        ensures err { OnErr result (owners_in self.new ≡ owners_in self.old) }
        ensures under { Under schema.now self.new }
    {
        let led = self.parts.step_led(owner, schema, homes, pid, to)?;
        match self.parts.locks.blocker(owner, &led.needs) {
            Some(holder) => Ok(Answer::Busy(holder)),
            None => self.parts.take(owner, led),
        }
    }

    /// The record of the object with a serial as an owner sees it, where it sees one.
    ///
    /// `NoMemory`: there was no room for the record.
    pub fn state_of(
        &self,
        owner: OwnerNo,
        homes: &Homes,
        schema: &Schema,
        serial: u64,
    ) -> Result<Option<Record>, NoMemory>
        requires { MaySee schema.now homes.now (owners_in self.now) owner }
        ensures { IfOk result (λ made. (m : MaySee schema.now homes.now (owners_in self.now) owner) → made ≡ option_map (λ object. object.values) (get (view m.catalog m.owner) serial)) }
    {
        let parts = &self.parts;
        match table::find(&parts.table, owner) {
            Some(owned) => owned.state_of(parts.alloc, schema, homes, serial),
            None => unreachable!(),
        }
    }

    /// What a commit of an owner's changes has to make of the objects, by rising serials, with the keys that each had and has.
    /// An object that was set back to what it was committed as is not among them.
    ///
    /// `NoMemory`: there was no room for the list.
    pub fn changes(
        &self,
        owner: OwnerNo,
        homes: &Homes,
        schema: &Schema,
    ) -> Result<Changes, NoMemory>
        requires { MaySee schema.now homes.now (owners_in self.now) owner }
        ensures net { IfOk result (λ changes. (m : MaySee schema.now homes.now (owners_in self.now) owner) → AreNet schema.now m.catalog (net m.catalog m.owner) changes) }
        ensures wanted { IfOk result (λ changes. (m : MaySee schema.now homes.now (owners_in self.now) owner) → AreChanges schema.now m.catalog changes (net m.catalog m.owner)) }
    {
        let parts = &self.parts;
        match table::find(&parts.table, owner) {
            Some(owned) => owned.changes(parts.alloc, schema, homes),
            None => unreachable!(),
        }
    }

    /// What all objects would weigh together, each 16 and the octets of its record, if what an owner changed were committed, or
    /// 2^64 where that is not more. It takes no memory.
    pub fn total_with(&self, owner: OwnerNo, homes: &Homes, schema: &Schema) -> u128
        requires sees { MaySee schema.now homes.now (owners_in self.now) owner }
        requires under { Under schema.now self.now }
        ensures { (m : MaySee schema.now homes.now (owners_in self.now) owner) → result ≡ min (total schema.now (over m.catalog (net m.catalog m.owner))) (2 ^ 64) }
    {
        match table::find(&self.parts.table, owner) {
            Some(owned) => owned.total_with(schema, homes),
            None => unreachable!(),
        }
    }

    /// Whether an owner changed the object with a serial, maybe back to what it was.
    pub fn changed(&self, owner: OwnerNo, serial: u64) -> bool
        ensures { (o : Owner) → get (owners_in self.now) owner.0 ≡ Some o → result ≡ has_changed o serial }
    {
        match table::find(&self.parts.table, owner) {
            Some(owned) => owned.has_changed(serial),
            None => false,
        }
    }

    /// How many objects an owner changed.
    pub fn changed_count(&self, owner: OwnerNo) -> u32
        ensures { (o : Owner) → get (owners_in self.now) owner.0 ≡ Some o → result ≡ len o.changes }
    {
        match table::find(&self.parts.table, owner) {
            Some(owned) => owned.changed_count(),
            None => 0,
        }
    }

    /// The pids of the objects that have a value from an owner, also where it is the one that was committed: each once, in no
    /// stated order.
    ///
    /// `NoMemory`: there was no room for the list.
    pub fn valued_pids(&self, owner: OwnerNo) -> Result<Vec<Pid>, NoMemory>
        ensures { IfOk result (λ pids. (o : Owner) → get (owners_in self.now) owner.0 ≡ Some o → AreValued o.changes pids.items) }
    {
        match table::find(&self.parts.table, owner) {
            Some(owned) => owned.valued_pids(),
            None => Ok(Vec::new(self.parts.alloc)),
        }
    }

    /// How many locks all owners have together.
    pub fn held(&self) -> u64
        ensures { result ≡ sum (map (λ e. set.len e.1.locks) (entries (owners_in self.now))) }
    {
        self.parts.locks.held()
    }

    /// Drops what an owner changed and locked. It stays, with its level. One step for each lock, and at most one more. It
    /// takes no memory.
    pub fn finish<L: Ledger>(&mut self, owner: OwnerNo, steps: &mut Steps<L>)
        ensures finished { owners_in self.new ≡ with_at (owners_in self.old) owner.0 (λ o. new_owner o.level) }
        ensures each { steps.old + set.len (locks_of (owners_in self.old) owner) ≤ steps.new }
        ensures at_most { steps.new ≤ steps.old + set.len (locks_of (owners_in self.old) owner) + 1 }
        ensures under { (S : PlainSchema) → Under S self.old → Under S self.new }
    {
        let parts = &mut self.parts;
        parts.locks.release_all(owner, steps);
        table::clear(&mut parts.table, owner);
    }

    /// Takes an owner away that has no lock, as after `finish`. It takes no memory, and the next owner has that of this one.
    pub fn remove(&mut self, owner: OwnerNo)
        requires { locks_of (owners_in self.old) owner ≡ set.empty }
        ensures removed { owners_in self.new ≡ remove (owners_in self.old) owner.0 }
        ensures under { (S : PlainSchema) → Under S self.old → Under S self.new }
    {
        let parts = &mut self.parts;
        parts.ended = table::remove(&mut parts.table, owner);
    }
}

// An owner that has changed nothing. It has the memory of the one that ended last, where there is one.
fn begun(ended: &mut Option<Owned>, alloc: Global, level: Level) -> Owned
    ensures { IsNew level result }
{
    match ended.take() {
        Some(owned) => begun_with_memory_of(owned, level),
        None => Owned::new(alloc, level),
    }
}

fn begun_with_memory_of(mut owned: Owned, level: Level) -> Owned
    ensures { IsNew level result }
{
    owned.clear();
    owned.level = level;
    owned
}
