// The names of owners.
ghost use Rattle.std.specs.Prelude.{◌≡◌, IfOk};
ghost use Rattle.pss_machine.specs.Kept.{Kept, name_of};
ghost use Rattle.connector_parts.specs.Stands.{Stands};

use crate::parts::Parts;
use pss_base::{Bytes, NoMemory, OwnerNo};

impl Parts {
    /// The name of an owner, which is empty where there is no such owner.
    ///
    /// `NoMemory`: there was no room for it.
    pub fn name_of(&self, owner: OwnerNo) -> Result<Bytes, NoMemory>
        ensures { IfOk result (λ name. (k : Kept) → Stands self.now k → name ≡ name_of k owner) }
    {
        match self.accounts.titles().get(owner) {
            Some(called) => called.name.copy(),
            None => Ok(Bytes::new(self.alloc)),
        }
    }
}
