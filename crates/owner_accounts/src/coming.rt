// Owners come.
ghost use Rattle.std.specs.Prelude.{◌≡◌, IfOk, OnOk};
ghost use Rattle.type_layout.specs.declared.schema.Schema.{Schema};
ghost use Rattle.pss_machine.specs.declared.level.Level.TheVariants as level;
ghost use Rattle.pss_machine.specs.Kept.{Kept};
ghost use Rattle.pss_machine.specs.Moving.{with_owner};
ghost use Rattle.owner_accounts.specs.Accounts.{AreAccounts};
ghost use Rattle.owner_accounts.specs.Coming.{MayCome, MayBegin};

use crate::accounts::Accounts;
use pss_base::{Bytes, NoMemory, OwnerNo};
use pss_machine::Level;

impl Accounts {
    /// The owner of a basic session of this name comes. The answer is its number, the next one.
    ///
    /// `NoMemory`: nothing is said of the accounts, which are not used again.
    pub fn open(&mut self, name: Bytes) -> Result<OwnerNo, NoMemory>
        requires { MayCome self.old }
        ensures number { IfOk result (λ n. (S : Schema) (k : Kept) → AreAccounts S self.old k → n.0 ≡ k.next_owner) }
        ensures opened { OnOk result ((S : Schema) (k : Kept) → AreAccounts S self.old k → AreAccounts S self.new (with_owner k name level.Basic)) }
    {
        self.titles.numbers_hold();
        let owner = self.titles.add_session(name)?;
        self.owners.add(owner, Level::Basic)?;
        Ok(owner)
    }

    /// A transaction comes, under a name that no other has. The answer is its number, the next one.
    ///
    /// `NoMemory`: nothing is said of the accounts, which are not used again.
    pub fn begin(&mut self, name: Bytes, level: Level) -> Result<OwnerNo, NoMemory>
        requires { MayBegin self.old name level }
        ensures number { IfOk result (λ n. (S : Schema) (k : Kept) → AreAccounts S self.old k → n.0 ≡ k.next_owner) }
        ensures begun { OnOk result ((S : Schema) (k : Kept) → AreAccounts S self.old k → AreAccounts S self.new (with_owner k name level)) }
    {
        self.titles.numbers_hold();
        let owner = self.titles.add_transaction(name, level)?;
        self.owners.add(owner, level)?;
        Ok(owner)
    }
}
