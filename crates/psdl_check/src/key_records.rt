// Keys as a schema holds them.
ghost use Rattle.std.specs.Prelude.{◌≡◌, ◌<◌, ◌≤◌, ◌++◌, length, IfOk, IfSome, OnOk};
ghost use Rattle.std.specs.Str.{bytes_eq};
ghost use Rattle.std.specs.Option.{option_to_list};
ghost use Rattle.type_layout.specs.NamePlaces.{place_among};
ghost use Rattle.type_layout.specs.Factories.{numbers_among};
ghost use Rattle.psdl_lineage.specs.Descent.{names_of};
ghost use Rattle.psdl_members.specs.Listings.{listed_view};
ghost use Rattle.psdl_rules.specs.Faults.Limit.{most_members};
ghost use Rattle.psdl_check.specs.inner.TypedMembers.{typed_names};

use crate::members::TypedMember;
use psdl_members::Listed;
use psdl_tree::Identifier;
use pss_base::NoMemory;
use std::alloc::Global;
use type_layout::{HomeNo, Indexes, Key};

fn is_called(member: &TypedMember<'_>, name: &[u8]) -> bool
    ensures { result ≡ bytes_eq name.now member.now.name.now.name }
{
    name == member.name.name.as_slice()
}

// The number of the first member of a name.
fn place_of(members: &[TypedMember<'_>], name: &[u8]) -> Option<usize>
    ensures place { result ≡ place_among (typed_names members.now) name.now }
    ensures within { IfSome result (λ p. p < length members.now) }
{
    for place in 0..members.len() {
        if is_called(&members[place], name) {
            return Some(place);
        }
    }
    None
}

// Adds the number of the first member of a name, where there is one.
fn add_index(
    found: &mut Indexes,
    members: &[TypedMember<'_>],
    name: &Identifier,
) -> Result<(), NoMemory>
    requires few { length members.now ≤ most_members }
    ensures { OnOk result (found.new ≡ found.old ++ option_to_list (place_among (typed_names members.now) name.now.name)) }
{
    let Some(place) = place_of(members, name.name.as_slice()) else {
        return Ok(());
    };
    found.push(place as u32)
}

// Adds the numbers of the first members of these names.
fn add_indexes(
    found: &mut Indexes,
    members: &[TypedMember<'_>],
    names: &[Identifier],
) -> Result<(), NoMemory>
    requires few { length members.now ≤ most_members }
    ensures { OnOk result (found.new ≡ found.old ++ numbers_among (typed_names members.now) (names_of names.now)) }
{
    for name in names {
        add_index(found, members, name)?;
    }
    Ok(())
}

// The numbers of the members in a key's list.
fn indexes_of(
    alloc: Global,
    members: &[TypedMember<'_>],
    listed: &Listed<'_>,
) -> Result<Indexes, NoMemory>
    requires few { length members.now ≤ most_members }
    ensures { IfOk result (λ found. found ≡ numbers_among (typed_names members.now) (listed_view listed.now).members) }
{
    let mut found = Indexes::new(alloc);
    add_indexes(&mut found, members, listed.first)?;
    add_indexes(&mut found, members, listed.others)?;
    Ok(found)
}

/// A key that a home with these members introduces.
pub(crate) fn key_of(
    alloc: Global,
    home: HomeNo,
    members: &[TypedMember<'_>],
    listed: &Listed<'_>,
) -> Result<Key, NoMemory>
    requires few { length members.now ≤ most_members }
    ensures { IfOk result (λ key. key ≡ record { name = (listed_view listed.now).name; home = home; members = numbers_among (typed_names members.now) (listed_view listed.now).members }) }
{
    let name = listed.name.name.copy()?;
    let members = indexes_of(alloc, members, listed)?;
    Ok(Key {
        name,
        home,
        members,
    })
}
