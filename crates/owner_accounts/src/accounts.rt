// Owners and the committed objects.
ghost use Rattle.std.specs.Prelude.{◌≡◌, IfOk};
ghost use Rattle.type_layout.specs.declared.schema.Schema.{Schema as PlainSchema};
ghost use Rattle.pss_catalog.specs.Catalog.{Catalog};
ghost use Rattle.pss_machine.specs.Kept.{Kept, first_kept};
ghost use Rattle.storage_home.specs.Kept.{IsKept};
ghost use Rattle.owner_titles.specs.Meaning.{AreTitles};
ghost use Rattle.owner_accounts.specs.Accounts.{AreAccounts, IsHistory};

use owner_titles::{History, Titles};
use pss_base::NoMemory;
use std::alloc::Global;
use storage_home::Homes;
use tx_session::Owners;

/// The committed objects, and the owners that read and change them: the objects, the owners with what they have locked and
/// changed, how they are called, the serial that the next object takes, and the commits that there were.
///
/// Contracts see what the machine keeps of all this (`AreAccounts`). The schema is the one given in each call, that of the
/// objects.
#[derive(Drop)]
pub struct Accounts {
    pub(crate) homes: Homes,
    pub(crate) owners: Owners,
    pub(crate) titles: Titles,
    pub(crate) next: u64,
    pub(crate) history: History,
}

impl Accounts {
    /// Accounts of these objects and of the serial that the next one takes, in which nobody has read or changed any.
    ///
    /// `NoMemory`: the objects are gone with them.
    pub fn new(alloc: Global, homes: Homes, next: u64) -> Result<Accounts, NoMemory>
        ensures { IfOk result (λ accounts. (S : PlainSchema) (M : Catalog) → IsKept S M homes → AreAccounts S accounts (first_kept M next)) }
    {
        let history = History::new(alloc)?;
        Ok(Accounts {
            homes,
            owners: Owners::new(alloc),
            titles: Titles::new(alloc),
            next,
            history,
        })
    }

    /// How the owners are called.
    pub fn titles(&self) -> &Titles
        ensures { (S : PlainSchema) (k : Kept) → AreAccounts S self.now k → AreTitles result.now k }
    {
        &self.titles
    }

    /// The commits that there were.
    pub fn history(&self) -> &History
        ensures { (S : PlainSchema) (k : Kept) → AreAccounts S self.now k → IsHistory result.now k }
    {
        &self.history
    }

    /// The serial that the next object takes.
    pub fn next(&self) -> u64
        ensures { (S : PlainSchema) (k : Kept) → AreAccounts S self.now k → result ≡ k.next }
    {
        self.next
    }
}
