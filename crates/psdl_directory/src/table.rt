// The number of the first declaration of each spelling and scope.
ghost use Rattle.std.specs.Prelude.{◌≡◌, OnOk, IfOk};
ghost use Rattle.psdl_directory.specs.inner.Tables.{found, Tabulates, IsEntered};

use crate::number::DeclarationNo;
use crate::scoped::Scoped;
use pss_base::NoMemory;
use std::alloc::Global;
use std::collections::BTreeMap;

/// A table of the first place of each.
pub(crate) fn table_of(
    alloc: Global,
    keys: &[Scoped],
) -> Result<BTreeMap<Scoped, DeclarationNo>, NoMemory>
    ensures { IfOk result (λ table. Tabulates table keys.now) }
{
    let mut table = BTreeMap::new(alloc);
    for i in 0..keys.len() {
        enter(&mut table, keys[i], DeclarationNo::new(i))?;
    }
    Ok(table)
}

// Enters a key, unless it is there.
fn enter(
    table: &mut BTreeMap<Scoped, DeclarationNo>,
    key: Scoped,
    number: DeclarationNo,
) -> Result<(), NoMemory>
    ensures { OnOk result (IsEntered table.old table.new key number) }
{
    match table.get(&key) {
        Some(_) => Ok(()),
        None => {
            table.insert(key, number)?;
            Ok(())
        }
    }
}

/// The number that a table has of a key.
pub(crate) fn number_of(
    table: &BTreeMap<Scoped, DeclarationNo>,
    key: Scoped,
) -> Option<DeclarationNo>
    ensures { result ≡ found table.now key }
{
    match table.get(&key) {
        Some(number) => Some(*number),
        None => None,
    }
}
