// C8 and C10: keys and factories that name no member of their home's type, or one twice.
ghost use Rattle.std.specs.Prelude.{◌≡◌, [], OnOk};
ghost use Rattle.std.specs.List.{flat_map};
ghost use Rattle.psdl_directory.specs.Noting.{noting};
ghost use Rattle.psdl_members.specs.Bodies.{member_views};
ghost use Rattle.psdl_members.specs.Listings.{identifiers_of_each};
ghost use Rattle.psdl_rules.specs.Words.{listed_wrong};

use crate::listed_members::listed_wrong;
use psdl_directory::{CheckKind, Least};
use psdl_members::{Listed, Member};
use pss_base::NoMemory;
use std::alloc::Global;

/// C8 of keys, and C10 of factories: one names no member of its home's type, or names one twice.
#[tactic(auto, using(crate::proofs::Parts::by_parts))]
pub(crate) fn all_list_members(
    alloc: Global,
    kind: CheckKind,
    members: &[Member<'_>],
    lists: &[Listed<'_>],
    least: &mut Least,
) -> Result<(), NoMemory>
    ensures { OnOk result (least.new ≡ noting least.old (flat_map (listed_wrong kind (member_views members.now) []) (identifiers_of_each lists.now))) }
{
    for listed in lists {
        listed_wrong(alloc, kind, members, listed, least)?;
    }
    Ok(())
}
