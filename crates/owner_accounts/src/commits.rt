// What owners changed is committed.
ghost use Rattle.std.specs.Prelude.{◌≡◌, ◌↔◌, ◌<◌, ◌≤◌, nat_lt, List, length, Some, None, false, IfOk, IfSome, OnOk, if◌then◌else◌};
ghost use Rattle.std.specs.FinMap.{get};
ghost use Rattle.std.specs.Option.{option_map};
ghost use Rattle.type_layout.specs.declared.schema.Schema.{Schema as PlainSchema};
ghost use Rattle.pss_base.specs.declared.owner.OwnerNo.{OwnerNo as Number};
ghost use Rattle.pss_catalog.specs.Catalog.{total};
ghost use Rattle.pss_catalog.specs.Changes.{Change, over};
ghost use Rattle.pss_machine.specs.Owners.{Owner, net};
ghost use Rattle.pss_machine.specs.Kept.{Kept};
ghost use Rattle.pss_machine.specs.Moving as machine;
ghost use Rattle.pss_machine.specs.Moving.{joins, settled};
ghost use Rattle.owner_titles.specs.Meaning.{title_of};
ghost use Rattle.owner_titles.specs.Telling.{told_text};
ghost use Rattle.owner_accounts.specs.Accounts.{AreAccounts};
ghost use Rattle.owner_accounts.specs.Commits.{MayPrepare, IsPrepared, AnyPrepared, text_of};

use crate::accounts::Accounts;
use owner_titles::{Called, Told, told_of};
use pss_base::{LONGEST_RECORD, NoMemory, OBJECT_WEIGHT, OwnerNo};
use pss_machine::Level;
use storage_home::Changes;
use type_layout::Schema;

// The most that an object weighs.
const MOST_WEIGHT: u128 = OBJECT_WEIGHT as u128 + LONGEST_RECORD as u128;

/// A commit that cannot fail any more: what it makes of the objects, and what the history will tell of it, where it will.
#[derive(Drop)]
pub struct Commit {
    changes: Changes,
    told: Option<Told>,
}

impl Commit {
    /// What it makes of the objects, by rising serials.
    pub fn changes(&self) -> &Changes
        ensures { result.now ≡ self.now.changes }
    {
        &self.changes
    }
}

impl Accounts {
    /// Makes ready what an owner changed: after that `commit` needs no memory. None exactly where the objects would weigh
    /// more than this together, each 16 and the octets of its record. Nothing that the machine keeps has changed, either way.
    ///
    /// `NoMemory`: nothing is said of the accounts, which are not used again.
    pub fn prepare(
        &mut self,
        owner: OwnerNo,
        schema: &Schema,
        most: u64,
    ) -> Result<Option<Commit>, NoMemory>
        requires { MayPrepare schema.now self.old owner most }
        ensures full { IfOk result (λ found. (m : MayPrepare schema.now self.old owner most) → (found ≡ None) ↔ (most < total schema.now (over m.by.kept.catalog (net m.by.kept.catalog m.by.owner)))) }
        ensures prepared { IfOk result (λ found. IfSome found (λ commit. (m : MayPrepare schema.now self.old owner most) → IsPrepared schema.now self.new m.by.kept owner commit)) }
        ensures kept { OnOk result ((S : PlainSchema) (k : Kept) → AreAccounts S self.old k → AreAccounts S self.new k) }
    {
        // That it is too much is told before any record is encoded.
        if self.is_too_much(owner, schema, most) {
            return Ok(None);
        }
        let changes = self.owners.changes(owner, &self.homes, schema)?;
        self.homes.reserve_for(&changes)?;
        let told = self.told_of(owner, changes.as_slice().len() as u32)?;
        Ok(Some(Commit { changes, told }))
    }

    // Whether the objects would weigh more than this with what an owner changed. Where they cannot, the changes are not gone
    // over.
    fn is_too_much(&self, owner: OwnerNo, schema: &Schema, most: u64) -> bool
        requires { MayPrepare schema.now self.now owner most }
        ensures { (m : MayPrepare schema.now self.now owner most) → result ≡ nat_lt most (total schema.now (over m.by.kept.catalog (net m.by.kept.catalog m.by.owner))) }
    {
        self.may_be_too_much(owner, most)
            && self.owners.total_with(owner, &self.homes, schema) > most as u128
    }

    // Whether the objects would weigh more than this if each one that an owner changed were new, and as large as it may be.
    fn may_be_too_much(&self, owner: OwnerNo, most: u64) -> bool
        ensures { (S : PlainSchema) (m : MayPrepare S self.now owner most) → result ≡ false → total S (over m.by.kept.catalog (net m.by.kept.catalog m.by.owner)) ≤ most }
    {
        let added = self.owners.changed_count(owner) as u128 * MOST_WEIGHT;
        self.homes.total_bytes() as u128 + added > most as u128
    }

    // What the history will tell of an owner's commit of so many changes, where it will tell of it.
    fn told_of(&self, owner: OwnerNo, changed: u32) -> Result<Option<Told>, NoMemory>
        ensures { IfOk result (λ told. (S : PlainSchema) (k : Kept) (o : Owner) → AreAccounts S self.now k → get k.owners owner.0 ≡ Some o → length (net k.catalog o) ≡ changed → option_map told_text told ≡ text_of k owner o) }
    {
        match self.titles.get(owner) {
            Some(called) => told_where_it_joins(called, changed),
            None => Ok(None),
        }
    }

    /// What an owner changed is committed, as it was made ready, and the history tells of it. It takes no memory.
    pub fn commit(&mut self, commit: Commit)
        requires { AnyPrepared self.old commit }
        ensures { (S : PlainSchema) (k : Kept) (n : Number) → AreAccounts S self.old k → IsPrepared S self.old k n commit → AreAccounts S self.new (settled k n) }
    {
        let Commit { changes, told } = commit;
        self.homes.apply_reserved(changes);
        if let Some(told) = told {
            self.history.tell(told);
        }
    }
}

// A commit of so many changes joins the history.
fn joins(level: Level, changed: u32) -> bool
    ensures { (changes : List Change) → length changes ≡ changed → result ≡ joins level changes }
{
    match level {
        Level::Serializable => true,
        Level::ReadCommitted => changed > 0,
        Level::Basic => changed > 0,
    }
}

// What the history will tell of a commit of so many changes by one who is called so, where it will tell of it.
fn told_where_it_joins(called: &Called, changed: u32) -> Result<Option<Told>, NoMemory>
    ensures { IfOk result (λ told. (changes : List Change) → length changes ≡ changed → option_map told_text told ≡ (if joins called.now.level changes then Some (machine.commit_text (title_of called.now) called.now.level changes) else None)) }
{
    if joins(called.level, changed) {
        let told = told_of(called, changed)?;
        Ok(Some(told))
    } else {
        Ok(None)
    }
}
