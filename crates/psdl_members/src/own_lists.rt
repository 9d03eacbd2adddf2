// The keys and factories that homes have in their bodies.
ghost use Rattle.std.specs.Prelude.{◌≡◌, ◌++◌, map, option_map, OnOk};
ghost use Rattle.std.specs.List.{flat_map};
ghost use Rattle.std.specs.Option.{option_to_list};
ghost use Rattle.psdl_tree.specs.Views.{abstract_home_member_view, home_member_view};
ghost use Rattle.psdl_directory.specs.inner.Nodes.{what_view};
ghost use Rattle.psdl_members.specs.Listings.{listed_views, identifiers_of_each, identifiers_of};
ghost use Rattle.psdl_members.specs.inner.Listing.{whole_view, whole_views, of_abstract as of_abstract_member, of_concrete as of_concrete_member, whole_in, listed_in};

use crate::list_kind::ListKind;
use crate::listed::Listed;
use psdl_directory::What;
use psdl_tree::{AbstractHomeMember, HomeMember};
use pss_base::NoMemory;

fn add<'d>(found: &mut Vec<Listed<'d>>, listed: Option<Listed<'d>>) -> Result<(), NoMemory>
    ensures { OnOk result (whole_views found.new.items ≡ whole_views found.old.items ++ option_to_list (option_map whole_view listed.entry)) }
{
    match listed {
        Some(one) => {
            found.push(one)?;
            Ok(())
        }
        None => Ok(()),
    }
}

fn of_abstract<'d>(kind: ListKind, member: &'d AbstractHomeMember) -> Option<Listed<'d>>
    ensures { option_to_list (option_map whole_view result) ≡ of_abstract_member kind (abstract_home_member_view member.now) }
{
    match member {
        AbstractHomeMember::Key(key) => kind.key(key),
        AbstractHomeMember::Factory(factory) => kind.factory(factory),
        AbstractHomeMember::Operation(_) => None,
    }
}

fn add_abstract<'d>(
    found: &mut Vec<Listed<'d>>,
    kind: ListKind,
    members: &'d [AbstractHomeMember],
) -> Result<(), NoMemory>
    ensures { OnOk result (whole_views found.new.items ≡ whole_views found.old.items ++ flat_map (of_abstract_member kind) (map abstract_home_member_view members.now)) }
{
    for member in members {
        add(found, of_abstract(kind, member))?;
    }
    Ok(())
}

fn of_concrete<'d>(kind: ListKind, member: &'d HomeMember) -> Option<Listed<'d>>
    ensures { option_to_list (option_map whole_view result) ≡ of_concrete_member kind (home_member_view member.now) }
{
    match member {
        HomeMember::Key(key) => kind.key(key),
        HomeMember::PrimaryKey(key) => kind.key(key),
        HomeMember::Factory(factory) => kind.factory(factory),
    }
}

fn add_concrete<'d>(
    found: &mut Vec<Listed<'d>>,
    kind: ListKind,
    members: &'d [HomeMember],
) -> Result<(), NoMemory>
    ensures { OnOk result (whole_views found.new.items ≡ whole_views found.old.items ++ flat_map (of_concrete_member kind) (map home_member_view members.now)) }
{
    for member in members {
        add(found, of_concrete(kind, member))?;
    }
    Ok(())
}

fn add_of_home<'d>(
    found: &mut Vec<Listed<'d>>,
    kind: ListKind,
    what: What<'d>,
) -> Result<(), NoMemory>
    ensures { OnOk result (whole_views found.new.items ≡ whole_views found.old.items ++ whole_in kind (what_view what.entry)) }
{
    match what {
        What::AbstractHome(Some(body)) => add_abstract(found, kind, &body.members),
        What::ConcreteHome(home) => add_concrete(found, kind, &home.members),
        _ => Ok(()),
    }
}

/// Adds the keys, or the factories, that a home has in its body. Without memory nothing is said of what was found.
pub fn add_lists<'d>(
    found: &mut Vec<Listed<'d>>,
    kind: ListKind,
    what: What<'d>,
) -> Result<(), NoMemory>
    ensures listed { OnOk result (listed_views found.new.items ≡ listed_views found.old.items ++ listed_in kind (what_view what.entry)) }
    ensures identifiers { OnOk result (identifiers_of_each found.new.items ≡ identifiers_of_each found.old.items ++ identifiers_of kind (what_view what.entry)) }
{
    add_of_home(found, kind, what)?;
    Ok(())
}
