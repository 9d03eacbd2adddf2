// What is told of owners and objects.
ghost use Rattle.std.specs.Prelude.{◌≡◌, Some, IfOk};
ghost use Rattle.std.specs.Option.{option_map};
ghost use Rattle.std.specs.FinMap.{get, len};
ghost use Rattle.type_layout.specs.declared.schema.Schema.{Schema as PlainSchema};
ghost use Rattle.pss_machine.specs.Owners.{Owner, has_changed, view};
ghost use Rattle.pss_machine.specs.Kept.{Kept};
ghost use Rattle.pss_machine.specs.Deciding.{lock_count};
ghost use Rattle.owner_view.specs.States.{AreValued};
ghost use Rattle.owner_accounts.specs.Accounts.{AreAccounts};
ghost use Rattle.owner_accounts.specs.Steps.{IsOwner};

use crate::accounts::Accounts;
use pss_base::{NoMemory, OwnerNo, Pid};
use type_layout::{Record, Schema};

impl Accounts {
    /// How many objects are committed.
    pub fn objects(&self) -> u64
        ensures { (S : PlainSchema) (k : Kept) → AreAccounts S self.now k → result ≡ len k.catalog }
    {
        self.homes.objects()
    }

    /// How many locks all owners have together.
    pub fn locks(&self) -> u64
        ensures { (S : PlainSchema) (k : Kept) → AreAccounts S self.now k → result ≡ lock_count k }
    {
        self.owners.held()
    }

    /// Whether an owner changed the object with a serial, maybe back to what it was.
    pub fn changed(&self, owner: OwnerNo, serial: u64) -> bool
        ensures { (S : PlainSchema) (k : Kept) (o : Owner) → AreAccounts S self.now k → get k.owners owner.0 ≡ Some o → result ≡ has_changed o serial }
    {
        self.owners.changed(owner, serial)
    }

    /// How many objects an owner changed.
    pub fn changed_count(&self, owner: OwnerNo) -> u32
        ensures { (S : PlainSchema) (k : Kept) (o : Owner) → AreAccounts S self.now k → get k.owners owner.0 ≡ Some o → result ≡ len o.changes }
    {
        self.owners.changed_count(owner)
    }

    /// The pids of the objects that have a value from an owner, also where it is the one that was committed: each once, in no
    /// stated order.
    ///
    /// `NoMemory`: there was no room for the list.
    pub fn valued_pids(&self, owner: OwnerNo) -> Result<Vec<Pid>, NoMemory>
        ensures { IfOk result (λ pids. (S : PlainSchema) (k : Kept) (o : Owner) → AreAccounts S self.now k → get k.owners owner.0 ≡ Some o → AreValued o.changes pids.items) }
    {
        self.owners.valued_pids(owner)
    }

    /// The record of the object with a serial as an owner sees it, where it sees one.
    ///
    /// `NoMemory`: there was no room for the record.
    pub fn record_of(
        &self,
        owner: OwnerNo,
        schema: &Schema,
        serial: u64,
    ) -> Result<Option<Record>, NoMemory>
        requires { IsOwner schema.now self.now owner }
        ensures { IfOk result (λ made. (m : IsOwner schema.now self.now owner) → made ≡ option_map (λ object. object.values) (get (view m.kept.catalog m.owner) serial)) }
    {
        self.owners.state_of(owner, &self.homes, schema, serial)
    }
}
