// The names of homes.
ghost use Rattle.std.specs.Prelude.{◌≤◌, IfOk, length};
ghost use Rattle.schema_names.specs.Tables.{Finds};
ghost use Rattle.schema_names.specs.Found.{home_called};

use crate::table::{NameTable, empty, enter};
use pss_base::NoMemory;
use std::alloc::Global;
use type_layout::{Home, HomeNo};

/// The homes by their scoped names.
pub fn homes_by_name(alloc: Global, homes: &[Home]) -> Result<NameTable<HomeNo>, NoMemory>
    requires { length homes.now ≤ 4096 }
    ensures { IfOk result (λ table. Finds table.entries (home_called homes.now)) }
{
    let mut table = empty(alloc);
    for i in 0..homes.len() {
        enter(
            alloc,
            &mut table,
            homes[i].name.as_slice(),
            HomeNo(i as u32 + 1),
        )?;
    }
    Ok(table)
}
