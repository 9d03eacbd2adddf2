// The types of the members of storage types.
ghost use Rattle.std.specs.Prelude.{◌≡◌, IfOk};
ghost use Rattle.psdl_lineage.specs.Descent.{members};
ghost use Rattle.psdl_rules.specs.Texts.{judged};
ghost use Rattle.psdl_rules.specs.inner.Typed.{AreTypes, HaveMembers};
ghost use Rattle.psdl_standings.specs.Texts.{text_of as told_of, types_in};

use crate::text::Text;
use psdl_directory::DeclarationNo;
use psdl_lineage::Sources;
use psdl_standings::{Standings, StateEntry};
use pss_base::NoMemory;
use std::alloc::Global;

/// For each declaration those that it descends from which have members in their bodies.
pub(crate) fn member_sources<'t>(
    alloc: Global,
    text: &Text<'t, '_>,
    standings: &Standings,
) -> Result<Sources<'t>, NoMemory>
    requires told { told_of standings.now ≡ judged text.now }
    ensures { IfOk result (λ s. HaveMembers (told_of standings.now) s) }
{
    let owners = standings.stated(alloc, text.len())?;
    let sources = Sources::new(alloc, text.lineage(), owners)?;
    Ok(sources)
}

/// The types of the members of a type, in the order of the members.
pub(crate) fn types_of_members(
    alloc: Global,
    standings: &Standings,
    sources: &mut Sources<'_>,
    number: DeclarationNo,
) -> Result<Vec<StateEntry>, NoMemory>
    requires sources { HaveMembers (told_of standings.now) sources.old }
    ensures same { sources.new ≡ sources.old }
    ensures types { IfOk result (λ v. AreTypes (told_of standings.now) (types_in standings.now) (members (told_of standings.now) number) v.items) }
{
    let declarations = sources.of(alloc, number)?;
    let types = standings.kept_in(alloc, &declarations)?;
    Ok(types)
}
