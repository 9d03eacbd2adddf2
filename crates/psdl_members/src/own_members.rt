// The members that declarations have in their bodies.
ghost use Rattle.std.specs.Prelude.{◌≡◌, ◌++◌, ◌∷◌, [], map, OnOk};
ghost use Rattle.std.specs.List.{flat_map};
ghost use Rattle.psdl_tree.specs.Views.{state_view, abstract_type_member_view};
ghost use Rattle.psdl_directory.specs.inner.Nodes.{what_view};
ghost use Rattle.psdl_directory.specs.Parts as parts;
ghost use Rattle.psdl_lineage.specs.Descent.{members_in};
ghost use Rattle.psdl_members.specs.Bodies.{member_views};
ghost use Rattle.psdl_members.specs.inner.Owned.{member_of};

use crate::member::Member;
use psdl_directory::What;
use psdl_tree::{AbstractTypeMember, Identifier, State};
use pss_base::NoMemory;

fn add_name<'a>(
    found: &mut Vec<Member<'a>>,
    declaration: usize,
    state: &'a State,
    name: &'a Identifier,
) -> Result<(), NoMemory>
    ensures { OnOk result (member_views found.new.items ≡ member_views found.old.items ++ member_of declaration (state_view state.now) name.now ∷ []) }
{
    found.push(Member {
        declaration,
        name,
        state_type: &state.state_type,
        readonly: state.readonly,
    })?;
    Ok(())
}

fn add_names<'a>(
    found: &mut Vec<Member<'a>>,
    declaration: usize,
    state: &'a State,
    names: &'a [Identifier],
) -> Result<(), NoMemory>
    ensures { OnOk result (member_views found.new.items ≡ member_views found.old.items ++ map (member_of declaration (state_view state.now)) names.now) }
{
    for name in names {
        add_name(found, declaration, state, name)?;
    }
    Ok(())
}

fn add_state<'a>(
    found: &mut Vec<Member<'a>>,
    declaration: usize,
    state: &'a State,
) -> Result<(), NoMemory>
    ensures { OnOk result (member_views found.new.items ≡ member_views found.old.items ++ members_in declaration (state_view state.now)) }
{
    add_name(found, declaration, state, &state.names.first)?;
    add_names(found, declaration, state, &state.names.others)?;
    Ok(())
}

fn add_states<'a>(
    found: &mut Vec<Member<'a>>,
    declaration: usize,
    states: &'a [State],
) -> Result<(), NoMemory>
    ensures { OnOk result (member_views found.new.items ≡ member_views found.old.items ++ flat_map (members_in declaration) (map state_view states.now)) }
{
    for state in states {
        add_state(found, declaration, state)?;
    }
    Ok(())
}

fn add_member<'a>(
    found: &mut Vec<Member<'a>>,
    declaration: usize,
    member: &'a AbstractTypeMember,
) -> Result<(), NoMemory>
    ensures { OnOk result (member_views found.new.items ≡ member_views found.old.items ++ flat_map (members_in declaration) (parts.state_of (abstract_type_member_view member.now))) }
{
    match member {
        AbstractTypeMember::State(state) => add_state(found, declaration, state),
        AbstractTypeMember::Operation(_) => Ok(()),
    }
}

fn add_members<'a>(
    found: &mut Vec<Member<'a>>,
    declaration: usize,
    members: &'a [AbstractTypeMember],
) -> Result<(), NoMemory>
    ensures { OnOk result (member_views found.new.items ≡ member_views found.old.items ++ flat_map (members_in declaration) (flat_map parts.state_of (map abstract_type_member_view members.now))) }
{
    for member in members {
        add_member(found, declaration, member)?;
    }
    Ok(())
}

/// Adds the members that a declaration has in its body.
pub(crate) fn add_own<'a>(
    found: &mut Vec<Member<'a>>,
    declaration: usize,
    what: What<'a>,
) -> Result<(), NoMemory>
    ensures { OnOk result (member_views found.new.items ≡ member_views found.old.items ++ flat_map (members_in declaration) (parts.states (what_view what.entry))) }
{
    match what {
        What::AbstractType(Some(body)) => add_members(found, declaration, &body.members),
        What::ConcreteType(Some(body)) => add_states(found, declaration, &body.states),
        _ => Ok(()),
    }
}
