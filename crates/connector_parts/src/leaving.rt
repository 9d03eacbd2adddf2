// Transactions go.
ghost use Rattle.std.specs.Prelude.{◌≡◌, true};
ghost use Rattle.pss_machine.specs.Kept.{Kept, is_transaction};
ghost use Rattle.pss_machine.specs.Moving.{without_transaction_of};
ghost use Rattle.pss_copies.specs.Ruled.{AreOwned};
ghost use Rattle.connector_parts.specs.Stands.{Stands, StayAs};

use crate::parts::Parts;
use pss_base::{OwnerNo, Steps};
use std::sync::ledger::Ledger;

impl Parts {
    /// A transaction goes, with its locks and its changes: its sessions are in none, and none of their entries is attached.
    /// It takes no memory.
    pub fn finish<L: Ledger>(&mut self, owner: OwnerNo, steps: &mut Steps<L>)
        ensures finished { (k : Kept) → AreOwned k.owners k.sessions k.next_owner → is_transaction k.owners owner.0 ≡ true → Stands self.old k → Stands self.new (without_transaction_of k owner) }
        ensures rest { StayAs self.old self.new }
    {
        self.attended.finish(owner, steps);
        self.accounts.leave(owner, steps);
    }
}
