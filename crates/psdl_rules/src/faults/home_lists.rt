// C8, C9 and C10 in one pass over the homes: the members of a home's type are listed once, and not at all where no fault of
// its keys and factories could be the least.
ghost use Rattle.std.specs.Prelude.{◌≡◌, ◌||◌, IfOk, OnOk};
ghost use Rattle.std.specs.List.{list_any};
ghost use Rattle.psdl_directory.specs.Fault.{each};
ghost use Rattle.psdl_directory.specs.Lookup.{at};
ghost use Rattle.psdl_directory.specs.Noting.{noting};
ghost use Rattle.psdl_directory.specs.inner.Nodes.{what_view};
ghost use Rattle.psdl_lineage.specs.Descent as descent;
ghost use Rattle.psdl_members.specs.Bodies.{member_views};
ghost use Rattle.psdl_members.specs.Listings.{identifiers_of_each, identifiers_of};
ghost use Rattle.psdl_members.specs.declared.list_kind.ListKind.TheVariants as kinds;
ghost use Rattle.psdl_rules.specs.Faults as faults;
ghost use Rattle.psdl_rules.specs.Texts.{judged};
ghost use Rattle.psdl_rules.specs.inner.Early.{list_early};
ghost use Rattle.psdl_rules.specs.inner.Listing.{listed_faults};
ghost use Rattle.psdl_rules.specs.inner.Typed.{AreTypes, HaveMembers};
ghost use Rattle.psdl_standings.specs.Standings.{standings as standings_of};
ghost use Rattle.psdl_standings.specs.Texts.{text_of as told_of, types_in};

use crate::early_lists::any_list_early;
use crate::faults::key_type::all_key_types;
use crate::faults::list_member::all_list_members;
use crate::member_types::member_sources;
use crate::text::Text;
use psdl_directory::{CheckKind, DeclarationNo, Least, What};
use psdl_lineage::Sources;
use psdl_members::{ListKind, Listed, Member, add_lists};
use psdl_standings::{Standings, StateEntry};
use pss_base::NoMemory;
use std::alloc::Global;

/// The keys and the factories in the body of a home.
#[derive(Drop)]
pub(crate) struct Lists<'a> {
    pub keys: Vec<Listed<'a>>,
    pub factories: Vec<Listed<'a>>,
}

/// The members of a type, and the types of these.
#[derive(Drop)]
pub(crate) struct TypeMembers<'d> {
    pub members: Vec<Member<'d>>,
    pub types: Vec<StateEntry>,
}

fn lists_in<'a>(alloc: Global, kind: ListKind, what: What<'a>) -> Result<Vec<Listed<'a>>, NoMemory>
    ensures { IfOk result (λ v. identifiers_of_each v.items ≡ identifiers_of kind (what_view what.entry)) }
{
    let mut found = Vec::new(alloc);
    add_lists(&mut found, kind, what)?;
    Ok(found)
}

fn lists_of<'a>(alloc: Global, what: What<'a>) -> Result<Lists<'a>, NoMemory>
    ensures keys { IfOk result (λ l. identifiers_of_each l.keys.items ≡ identifiers_of kinds.Key (what_view what.entry)) }
    ensures factories { IfOk result (λ l. identifiers_of_each l.factories.items ≡ identifiers_of kinds.Factory (what_view what.entry)) }
{
    let keys = lists_in(alloc, ListKind::Key, what)?;
    let factories = lists_in(alloc, ListKind::Factory, what)?;
    Ok(Lists { keys, factories })
}

fn members_of<'d>(
    alloc: Global,
    standings: &Standings<'_, 'd>,
    sources: &mut Sources<'_>,
    number: DeclarationNo,
) -> Result<TypeMembers<'d>, NoMemory>
    requires { HaveMembers (told_of standings.now) sources.old }
    ensures same { sources.new ≡ sources.old }
    ensures members { IfOk result (λ m. member_views m.members.items ≡ descent.members (told_of standings.now) number) }
    ensures types { IfOk result (λ m. AreTypes (told_of standings.now) (types_in standings.now) (descent.members (told_of standings.now) number) m.types.items) }
{
    let bodies = sources.of(alloc, number)?;
    let members = psdl_members::members_of(alloc, standings.directory(), &bodies)?;
    let types = standings.kept_in(alloc, &bodies)?;
    Ok(TypeMembers { members, types })
}

// Whether a fault of one of these lists may be the least.
fn lists_early(least: &Least, lists: &Lists<'_>) -> bool
    ensures { result ≡ (list_any (list_early least.now) (identifiers_of_each lists.now.keys.items) || list_any (list_early least.now) (identifiers_of_each lists.now.factories.items)) }
{
    let keys = any_list_early(least, &lists.keys);
    if keys {
        return true;
    }
    any_list_early(least, &lists.factories)
}

// Notes what is wrong in lists, by the members of the home's type.
#[tactic(auto, using(crate::proofs::Parts::by_parts))]
fn note_lists(
    alloc: Global,
    standings: &Standings,
    members: &TypeMembers<'_>,
    lists: &Lists<'_>,
    least: &mut Least,
) -> Result<(), NoMemory>
    requires { AreTypes (told_of standings.now) (types_in standings.now) (member_views members.now.members.items) members.now.types.items }
    ensures { OnOk result (least.new ≡ noting least.old (listed_faults (told_of standings.now) (standings_of (told_of standings.now)) (member_views members.now.members.items) (identifiers_of_each lists.now.keys.items) (identifiers_of_each lists.now.factories.items))) }
{
    all_list_members(
        alloc,
        CheckKind::KeyMember,
        &members.members,
        &lists.keys,
        least,
    )?;
    all_key_types(standings, members, &lists.keys, least);
    all_list_members(
        alloc,
        CheckKind::FactoryMember,
        &members.members,
        &lists.factories,
        least,
    )?;
    Ok(())
}

// Notes what is wrong in lists, by the type of their home.
fn lists_wrong(
    alloc: Global,
    standings: &Standings,
    sources: &mut Sources<'_>,
    home_type: DeclarationNo,
    lists: &Lists<'_>,
    least: &mut Least,
) -> Result<(), NoMemory>
    requires { HaveMembers (told_of standings.now) sources.old }
    ensures same { sources.new ≡ sources.old }
    ensures noted { OnOk result (least.new ≡ noting least.old (listed_faults (told_of standings.now) (standings_of (told_of standings.now)) (descent.members (told_of standings.now) home_type) (identifiers_of_each lists.now.keys.items) (identifiers_of_each lists.now.factories.items))) }
{
    let early = lists_early(least, lists);
    if !early {
        return Ok(());
    }
    let members = members_of(alloc, standings, sources, home_type)?;
    note_lists(alloc, standings, &members, lists, least)?;
    Ok(())
}

fn listed_at(
    alloc: Global,
    text: &Text,
    standings: &Standings,
    sources: &mut Sources<'_>,
    number: DeclarationNo,
    least: &mut Least,
) -> Result<(), NoMemory>
    requires told { told_of standings.now ≡ judged text.now }
    requires sources { HaveMembers (told_of standings.now) sources.old }
    ensures same { sources.new ≡ sources.old }
    ensures noted { OnOk result (least.new ≡ noting least.old (faults.listed_wrong (judged text.now) (standings_of (judged text.now)) number (at (judged text.now) number))) }
{
    let Some(home_type) = text.lineage().type_of_home(number) else {
        return Ok(());
    };
    let lists = lists_of(alloc, text.what(number))?;
    lists_wrong(alloc, standings, sources, home_type, &lists, least)?;
    Ok(())
}

/// C8, C9 and C10: a key or a factory names no member of the type of its home, or one twice, or a key has a member that is a
/// struct, a sequence, an array or a reference.
pub(crate) fn listed_members(
    alloc: Global,
    text: &Text,
    standings: &Standings,
    least: &mut Least,
) -> Result<(), NoMemory>
    requires told { told_of standings.now ≡ judged text.now }
    ensures { OnOk result (least.new ≡ noting least.old (each (faults.listed_wrong (judged text.now) (standings_of (judged text.now))) (judged text.now))) }
{
    let mut sources = member_sources(alloc, text, standings)?;
    for index in 0..text.len() {
        let number = DeclarationNo::new(index);
        listed_at(alloc, text, standings, &mut sources, number, least)?;
    }
    Ok(())
}
