// A home and those derived from it, in the order of their numbers.
ghost use Rattle.std.specs.Prelude.{◌≡◌, IfOk};
ghost use Rattle.pss_catalog.specs.Families.{WithBases};
ghost use Rattle.pss_machine.specs.Homes.{below};

use pss_base::NoMemory;
use pss_catalog::Families;
use std::alloc::Global;
use type_layout::HomeNo;

/// The home and those derived from it, by rising numbers: none where the home is not there. It takes time in the number of
/// these, times a logarithm.
pub fn homes_below(
    alloc: Global,
    families: &Families,
    home: HomeNo,
) -> Result<Vec<HomeNo>, NoMemory>
    ensures { IfOk result (λ homes. WithBases families.now (λ S. homes.items ≡ below S home)) }
{
    let mut homes = Vec::from_slice(alloc, families.heirs(home))?;
    homes.sort_unstable_by_key(|heir| heir.0);
    Ok(homes)
}
