// Keys and factories that name no member of their home's type, or one twice.
ghost use Rattle.std.specs.Prelude.{◌≡◌, ◌||◌, [], ℕ, List, not, OnOk};
ghost use Rattle.std.specs.List.{list_any};
ghost use Rattle.std.specs.Str.{bytes_eq};
ghost use Rattle.psdl_tree.specs.declared.names.Identifier.{Identifier as Node};
ghost use Rattle.psdl_directory.specs.Fault.{fault_if};
ghost use Rattle.psdl_directory.specs.Noting.{noting};
ghost use Rattle.psdl_members.specs.Bodies.{member_view, member_views};
ghost use Rattle.psdl_members.specs.Listings.{identifiers_in};
ghost use Rattle.psdl_rules.specs.Words as conditions;
ghost use Rattle.psdl_rules.specs.Words.{is_called};
ghost use Rattle.psdl_rules.specs.inner.Scopes.{has_name, AreNames, behind};

use crate::redefined_inside::enter;
use psdl_directory::{CheckKind, Least};
use psdl_members::{Listed, Member};
use psdl_tree::Identifier;
use pss_base::NoMemory;
use std::alloc::Global;
use std::collections::BTreeSet;

/// Whether a member has that name.
pub(crate) fn is_called(identifier: &Identifier, member: &Member<'_>) -> bool
    ensures { result ≡ is_called identifier.now (member_view member.now) }
{
    identifier.name.as_slice() == member.name.name.as_slice()
}

fn is_member(members: &[Member<'_>], identifier: &Identifier) -> bool
    ensures { result ≡ list_any (is_called identifier.now) (member_views members.now) }
{
    for member in members {
        if is_called(identifier, member) {
            return true;
        }
    }
    false
}

fn listed_identifier(
    alloc: Global,
    kind: CheckKind,
    members: &[Member<'_>],
    names: &mut BTreeSet<Vec<u8>>,
    identifier: &Identifier,
    least: &mut Least,
) -> Result<(), NoMemory>
    ensures noted { OnOk result (least.new ≡ noting least.old (fault_if (not (list_any (is_called identifier.now) (member_views members.now)) || has_name names.old identifier.now.name) kind identifier.now.place)) }
    ensures names { OnOk result ((q : List ℕ) → has_name names.new q ≡ (bytes_eq q identifier.now.name || has_name names.old q)) }
{
    let name = identifier.name.as_slice().to_vec(alloc)?;
    let there = enter(names, name)?;
    let is_member = is_member(members, identifier);
    least.note_if(!is_member || there, kind, identifier.place);
    Ok(())
}

// Notes a part of a list, where the names of the earlier identifiers are noted.
fn listed_part(
    alloc: Global,
    kind: CheckKind,
    members: &[Member<'_>],
    names: &mut BTreeSet<Vec<u8>>,
    identifiers: &[Identifier],
    least: &mut Least,
) -> Result<(), NoMemory>
    ensures noted { OnOk result ((earlier : List Node) → AreNames names.old earlier → least.new ≡ noting least.old (conditions.listed_wrong kind (member_views members.now) earlier identifiers.now)) }
    ensures names { OnOk result ((earlier : List Node) → AreNames names.old earlier → AreNames names.new (behind earlier identifiers.now)) }
{
    for identifier in identifiers {
        listed_identifier(alloc, kind, members, names, identifier, least)?;
    }
    Ok(())
}

/// Notes the identifiers of a list that name no member, or one that an earlier one names.
pub(crate) fn listed_wrong(
    alloc: Global,
    kind: CheckKind,
    members: &[Member<'_>],
    listed: &Listed<'_>,
    least: &mut Least,
) -> Result<(), NoMemory>
    ensures { OnOk result (least.new ≡ noting least.old (conditions.listed_wrong kind (member_views members.now) [] (identifiers_in listed.now))) }
{
    let mut names = BTreeSet::new(alloc);
    listed_part(alloc, kind, members, &mut names, listed.first, least)?;
    listed_part(alloc, kind, members, &mut names, listed.others, least)?;
    Ok(())
}
