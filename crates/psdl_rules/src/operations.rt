// The operations of abstract types and homes.
ghost use Rattle.std.specs.Prelude.{◌≡◌, ◌++◌, map, IfOk, OnOk};
ghost use Rattle.std.specs.List.{flat_map};
ghost use Rattle.psdl_tree.specs.Views.{operation_view, abstract_type_member_view, abstract_home_member_view};
ghost use Rattle.psdl_directory.specs.inner.Nodes.{what_view};
ghost use Rattle.psdl_directory.specs.Parts.{type_operation, home_operation, operations};

use psdl_directory::What;
use psdl_tree::{AbstractHomeMember, AbstractTypeMember, Operation};
use pss_base::NoMemory;
use std::alloc::Global;

fn add_type_operations<'a>(
    found: &mut Vec<&'a Operation>,
    members: &'a [AbstractTypeMember],
) -> Result<(), NoMemory>
    ensures { OnOk result (map (λ o. operation_view o.now) found.new.items ≡ map (λ o. operation_view o.now) found.old.items ++ flat_map type_operation (map abstract_type_member_view members.now)) }
{
    for member in members {
        match member {
            AbstractTypeMember::State(_) => {}
            AbstractTypeMember::Operation(operation) => found.push(operation)?,
        }
    }
    Ok(())
}

fn add_home_operations<'a>(
    found: &mut Vec<&'a Operation>,
    members: &'a [AbstractHomeMember],
) -> Result<(), NoMemory>
    ensures { OnOk result (map (λ o. operation_view o.now) found.new.items ≡ map (λ o. operation_view o.now) found.old.items ++ flat_map home_operation (map abstract_home_member_view members.now)) }
{
    for member in members {
        match member {
            AbstractHomeMember::Operation(operation) => found.push(operation)?,
            AbstractHomeMember::Key(_) => {}
            AbstractHomeMember::Factory(_) => {}
        }
    }
    Ok(())
}

/// The operations of an abstract type or home.
pub(crate) fn operations<'a>(alloc: Global, what: What<'a>) -> Result<Vec<&'a Operation>, NoMemory>
    ensures { IfOk result (λ v. map (λ o. operation_view o.now) v.items ≡ operations (what_view what.entry)) }
{
    let mut found = Vec::new(alloc);
    match what {
        What::AbstractType(Some(body)) => add_type_operations(&mut found, &body.members)?,
        What::AbstractHome(Some(body)) => add_home_operations(&mut found, &body.members)?,
        _ => {}
    }
    Ok(found)
}
