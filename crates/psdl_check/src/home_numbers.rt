// The numbers that homes have in a schema.
ghost use Rattle.std.specs.Prelude.{◌≡◌, ◌<◌, ◌≤◌, ◌+◌, ◌++◌, ◌∷◌, [], length, IfOk, OnOk};
ghost use Rattle.psdl_directory.specs.Directories.{all_of};
ghost use Rattle.psdl_rules.specs.Faults.Limit.{most_homes};
ghost use Rattle.psdl_check.specs.Schemas.{home_no};
ghost use Rattle.psdl_check.specs.inner.HomeNos.{HasFewHomes, home_nos, homes_in_front};

use psdl_directory::{DeclarationNo, Directory};
use pss_base::NoMemory;
use std::alloc::Global;
use type_layout::HomeNo;

// Adds the number of a declaration with so many homes in front of it. Answers how many there are with it.
fn add_number(
    directory: &Directory<'_>,
    numbers: &mut Vec<HomeNo>,
    homes: u32,
    index: usize,
) -> Result<u32, NoMemory>
    requires index { index < length (all_of directory.now) }
    requires homes { homes ≡ homes_in_front (all_of directory.now) index }
    requires few { homes ≤ most_homes }
    ensures numbers { OnOk result (numbers.new.items ≡ numbers.old.items ++ home_no (all_of directory.now) index ∷ []) }
    ensures homes { IfOk result (λ r. r ≡ homes_in_front (all_of directory.now) (index + 1)) }
{
    let is_home = directory.what(DeclarationNo::new(index)).is_concrete_home();
    if !is_home {
        numbers.push(HomeNo(0))?;
        return Ok(homes);
    }
    numbers.push(HomeNo(homes + 1))?;
    Ok(homes + 1)
}

/// The number of each declaration that is a concrete home, from 1, and 0 of each other.
pub(crate) fn home_numbers(
    alloc: Global,
    directory: &Directory<'_>,
) -> Result<Vec<HomeNo>, NoMemory>
    requires few { HasFewHomes (all_of directory.now) }
    ensures { IfOk result (λ v. v.items ≡ home_nos (all_of directory.now)) }
{
    let mut numbers = Vec::new(alloc);
    let mut homes = 0;
    for index in 0..directory.len() {
        homes = add_number(directory, &mut numbers, homes, index)?;
    }
    Ok(numbers)
}
