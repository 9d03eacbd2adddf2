// C1: identifiers that are declared twice in a scope.
ghost use Rattle.std.specs.Prelude.{◌≡◌, OnOk};
ghost use Rattle.psdl_directory.specs.Noting.{noting};
ghost use Rattle.psdl_rules.specs.Faults.Redefined as conditions;
ghost use Rattle.psdl_rules.specs.Texts.{judged};

use crate::redefined_inside::redefined_inside;
use crate::taken_names::taken_names;
use crate::text::Text;
use psdl_directory::Least;
use pss_base::NoMemory;
use std::alloc::Global;

/// C1: a declaration, or an identifier inside one, equals, but for case, an earlier one of its scope.
#[tactic(auto, using(crate::proofs::Parts::by_parts))]
pub(crate) fn redefined(alloc: Global, text: &Text, least: &mut Least) -> Result<(), NoMemory>
    ensures { OnOk result (least.new ≡ noting least.old (conditions.redefined_faults (judged text.now))) }
{
    taken_names(alloc, text, least)?;
    redefined_inside(alloc, text, least)?;
    Ok(())
}
