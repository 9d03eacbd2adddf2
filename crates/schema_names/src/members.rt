// The names of what one home has.
ghost use Rattle.std.specs.Prelude.{◌≤◌, IfOk, OnOk, length, map};
ghost use Rattle.type_layout.specs.Members.{plain_member};
ghost use Rattle.schema_names.specs.Tables.{Finds};
ghost use Rattle.schema_names.specs.Found.{member_called, key_called, IsKeyEntered};

use crate::table::{NameTable, empty, enter};
use pss_base::NoMemory;
use std::alloc::Global;
use type_layout::{Key, KeyNo, Member};

/// The members of a home by their names, as places in its layout.
pub fn members_by_name(alloc: Global, members: &[Member]) -> Result<NameTable<u32>, NoMemory>
    requires { length members.now ≤ 255 }
    ensures { IfOk result (λ table. Finds table.entries (member_called (map plain_member members.now))) }
{
    let mut table = empty(alloc);
    for i in 0..members.len() {
        enter(alloc, &mut table, members[i].name.as_slice(), i as u32)?;
    }
    Ok(table)
}

// Enters the key with a number, if there is one.
fn enter_key(
    alloc: Global,
    table: &mut NameTable<KeyNo>,
    keys: &[Key],
    number: KeyNo,
) -> Result<(), NoMemory>
    ensures { OnOk result (IsKeyEntered table.old.entries table.new.entries keys.now number) }
{
    match keys.get(number.0 as usize) {
        Some(key) => enter(alloc, table, key.name.as_slice(), number),
        None => Ok(()),
    }
}

/// The keys with these numbers by their names. A number that no key has is left out.
pub fn keys_by_name(
    alloc: Global,
    keys: &[Key],
    numbers: &[KeyNo],
) -> Result<NameTable<KeyNo>, NoMemory>
    ensures { IfOk result (λ table. Finds table.entries (key_called keys.now numbers.now)) }
{
    let mut table = empty(alloc);
    for i in 0..numbers.len() {
        enter_key(alloc, &mut table, keys, numbers[i])?;
    }
    Ok(table)
}
