// Owners are marked, begin anew, or go.
ghost use Rattle.pss_base.specs.declared.session.SessionNo.{SessionNo};
ghost use Rattle.type_layout.specs.declared.schema.Schema.{Schema};
ghost use Rattle.pss_machine.specs.Kept.{Kept};
ghost use Rattle.pss_machine.specs.Moving.{without_owner, emptied, ended};
ghost use Rattle.owner_accounts.specs.Accounts.{AreAccounts};
ghost use Rattle.owner_accounts.specs.Steps.{IsOwner, IsThere};

use crate::accounts::Accounts;
use pss_base::{OwnerNo, Steps};
use std::sync::ledger::Ledger;

impl Accounts {
    /// A session's part of a transaction is done; where it failed, the transaction is marked to be rolled back.
    pub fn mark(&mut self, owner: OwnerNo, failed: bool)
        requires { (S : Schema) × IsOwner S self.old owner }
        ensures { (S : Schema) (k : Kept) (s : SessionNo) → AreAccounts S self.old k → AreAccounts S self.new (ended k s owner failed) }
    {
        self.titles.mark(owner, failed);
    }

    /// An owner goes, with its locks and its changes. It takes no memory.
    pub fn leave<L: Ledger>(&mut self, owner: OwnerNo, steps: &mut Steps<L>)
        ensures { (S : Schema) (k : Kept) → AreAccounts S self.old k → AreAccounts S self.new (without_owner k owner) }
    {
        self.owners.finish(owner, steps);
        self.owners.remove(owner);
        self.titles.remove(owner);
    }

    /// An owner has locked, changed and done nothing again. It takes no memory.
    pub fn empty<L: Ledger>(&mut self, owner: OwnerNo, steps: &mut Steps<L>)
        requires { (S : Schema) × IsThere S self.old owner }
        ensures { (S : Schema) (k : Kept) → AreAccounts S self.old k → AreAccounts S self.new (emptied k owner) }
    {
        self.owners.finish(owner, steps);
        self.titles.unspend(owner);
    }
}
