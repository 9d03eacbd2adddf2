// Owners by their numbers.
ghost use Rattle.std.specs.Prelude.{◌≡◌, [], Some, None, OnOk, OnErr};
ghost use Rattle.std.specs.Option.{option_map};
ghost use Rattle.tx_session.specs.Kept.{owned_at, TurnsOwned, TurnsBy, IsCleared};

use owner_view::Owned;
use pss_base::{NoMemory, OwnerNo};
use recent_table::RecentTable;
use std::alloc::Global;
use table_hash::NumberHasher;

pub type Table = RecentTable<OwnerNo, Owned, NumberHasher>;

pub fn empty(alloc: Global) -> Table
    ensures { result ≡ [] }
{
    RecentTable::new(alloc)
}

/// The owner of a number, where there is one. It is hashed only where it was neither the one found last nor the next.
pub fn find(table: &Table, owner: OwnerNo) -> Option<&Owned>
    ensures { option_map (λ owned. owned.now) result ≡ owned_at owner.0 table.now }
{
    table.get(owner)
}

/// Puts an owner in, in place of the one with this number, where there is one. `NoMemory`: all is as before.
pub fn add(table: &mut Table, owner: OwnerNo, owned: Owned) -> Result<(), NoMemory>
    ensures ok { OnOk result (TurnsOwned table.old table.new owner.0 (Some owned)) }
    ensures err { OnErr result (table.new ≡ table.old) }
{
    table.insert(owner, owned)
}

/// Takes an owner out, where there is one with this number.
pub fn remove(table: &mut Table, owner: OwnerNo) -> Option<Owned>
    ensures { TurnsOwned table.old table.new owner.0 None }
{
    table.remove(owner)
}

/// Takes all that an owner changed away. It takes no memory.
pub fn clear(table: &mut Table, owner: OwnerNo)
    ensures { TurnsBy IsCleared table.old table.new owner.0 }
{
    if let Some(owned) = table.get_mut(owner) {
        owned.clear();
    }
}
