// The members of layouts: how long their lines in the shape are, and what a schema holds.
ghost use Rattle.std.specs.Prelude.{◌≡◌, ◌+◌, ◌++◌, ◌∷◌, [], length, IfOk, OnOk};
ghost use Rattle.std.specs.List.{flat_map};
ghost use Rattle.type_layout.specs.ShapeText.{member_line};
ghost use Rattle.type_layout.specs.Views.{plain_type};
ghost use Rattle.psdl_standings.specs.SmallTypes.{IsSmall};
ghost use Rattle.psdl_standings.specs.TextLengths.{cut, text_length};
ghost use Rattle.psdl_check.specs.inner.LineLengths.{line_length};
ghost use Rattle.psdl_check.specs.inner.Lists.{homes_in};
ghost use Rattle.psdl_check.specs.inner.MemberLines.{members_behind};
ghost use Rattle.psdl_check.specs.inner.SmallTypes.{HasSmallTypes};
ghost use Rattle.psdl_check.specs.inner.TypedMembers.{type_by, typed_view, typed_views, typed_names, IsTyped, AreTyped};

use crate::line_lengths::{member_line_length, reference_length};
use crate::members::{MemberType, TypedMember};
use crate::referents::Referents;
use psdl_standings::{TextLength, Types};
use pss_base::NoMemory;
use std::alloc::Global;
use type_layout::{HomeNo, HomeNos, Member, Members, Names, PlacedNames, Ty};

// How long the text of a member's type is.
fn type_length(types: &Types<'_>, referents: &Referents, member_type: MemberType) -> TextLength
    requires { IsTyped (length types.now) member_type }
    ensures { result.0 ≡ text_length (type_by types.now (homes_in referents.now) member_type) }
{
    match member_type {
        MemberType::Plain(number) => types.length(number),
        MemberType::Reference(definition) => reference_length(referents.of(definition)),
    }
}

// How long a member's line is.
fn line_length(types: &Types<'_>, referents: &Referents, member: &TypedMember<'_>) -> TextLength
    requires { IsTyped (length types.now) member.now.member_type }
    ensures { result.0 ≡ line_length (member_line (typed_view types.now (homes_in referents.now) member.now)) }
{
    let length = type_length(types, referents, member.member_type);
    member_line_length(member.name.name.as_slice(), length)
}

// With the lines one behind the other.
fn with_lines(
    types: &Types<'_>,
    referents: &Referents,
    members: &[TypedMember<'_>],
    front: TextLength,
) -> TextLength
    requires { AreTyped (length types.now) members.now }
    ensures { result.0 ≡ members_behind types.now (homes_in referents.now) front.0 members.now }
{
    let mut whole = front;
    for member in members {
        whole = whole.followed_by(line_length(types, referents, member));
    }
    whole
}

/// With the lines of members behind what stands in front.
pub(crate) fn with_members(
    types: &Types<'_>,
    referents: &Referents,
    members: &[TypedMember<'_>],
    front: TextLength,
) -> TextLength
    requires { AreTyped (length types.now) members.now }
    ensures { result.0 ≡ cut (front.0 + length (flat_map member_line (typed_views types.now (homes_in referents.now) members.now))) }
{
    with_lines(types, referents, members, front.with(0))
}

fn copied_homes(alloc: Global, homes: &[HomeNo]) -> Result<HomeNos, NoMemory>
    ensures { IfOk result (λ copy. copy ≡ homes.now) }
{
    let mut copy = HomeNos::new(alloc);
    for home in homes {
        copy.push(*home)?;
    }
    Ok(copy)
}

// The type of a member as a schema holds it.
fn built_type(
    alloc: Global,
    types: &Types<'_>,
    referents: &Referents,
    member_type: MemberType,
) -> Result<Ty, NoMemory>
    requires typed { IsTyped (length types.now) member_type }
    requires small { IsSmall (type_by types.now (homes_in referents.now) member_type) }
    ensures { IfOk result (λ t. plain_type t ≡ type_by types.now (homes_in referents.now) member_type) }
{
    match member_type {
        MemberType::Plain(number) => types.build(alloc, number),
        MemberType::Reference(definition) => {
            Ok(Ty::Ref(copied_homes(alloc, referents.of(definition))?))
        }
    }
}

fn add_member(
    alloc: Global,
    types: &Types<'_>,
    referents: &Referents,
    list: &mut Members,
    member: &TypedMember<'_>,
) -> Result<(), NoMemory>
    requires typed { IsTyped (length types.now) member.now.member_type }
    requires small { IsSmall (type_by types.now (homes_in referents.now) member.now.member_type) }
    ensures { OnOk result (list.new ≡ list.old ++ typed_view types.now (homes_in referents.now) member.now ∷ []) }
{
    let ty = built_type(alloc, types, referents, member.member_type)?;
    let name = member.name.name.copy()?;
    list.push(Member {
        name,
        ty,
        readonly: member.readonly,
    })?;
    Ok(())
}

/// Members as a schema holds them.
pub(crate) fn member_list(
    alloc: Global,
    types: &Types<'_>,
    referents: &Referents,
    members: &[TypedMember<'_>],
) -> Result<Members, NoMemory>
    requires typed { AreTyped (length types.now) members.now }
    requires small { HasSmallTypes (typed_views types.now (homes_in referents.now) members.now) }
    ensures { IfOk result (λ list. list ≡ typed_views types.now (homes_in referents.now) members.now) }
{
    let mut list = Members::new(alloc);
    for member in members {
        add_member(alloc, types, referents, &mut list, member)?;
    }
    Ok(list)
}

// The names of members.
fn names_of(alloc: Global, members: &[TypedMember<'_>]) -> Result<Names, NoMemory>
    ensures { IfOk result (λ names. names ≡ typed_names members.now) }
{
    let mut names = Names::new(alloc);
    for member in members {
        names.push(member.name.name.copy()?)?;
    }
    Ok(names)
}

/// The names of members, which are found by them.
pub(crate) fn member_names(
    alloc: Global,
    members: &[TypedMember<'_>],
) -> Result<PlacedNames, NoMemory>
    ensures { IfOk result (λ names. names ≡ typed_names members.now) }
{
    let names = names_of(alloc, members)?;
    PlacedNames::new(alloc, names)
}
