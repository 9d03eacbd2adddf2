// The members that some declarations have in their bodies.
ghost use Rattle.std.specs.Prelude.{◌≡◌, IfOk};
ghost use Rattle.std.specs.List.{flat_map};
ghost use Rattle.psdl_directory.specs.Directories.{all_of};
ghost use Rattle.psdl_members.specs.Bodies.{member_views, own_members};

use crate::member::Member;
use crate::own_members::add_own;
use psdl_directory::{DeclarationNo, Directory};
use pss_base::NoMemory;
use std::alloc::Global;

/// The members that these declarations have in their bodies, in order. `NoMemory`: there was no room for the list.
pub fn members_of<'d>(
    alloc: Global,
    directory: &Directory<'d>,
    declarations: &[DeclarationNo],
) -> Result<Vec<Member<'d>>, NoMemory>
    ensures { IfOk result (λ v. member_views v.items ≡ flat_map (own_members (all_of directory.now)) declarations.now) }
{
    let mut members = Vec::new(alloc);
    for declaration in declarations {
        add_own(
            &mut members,
            declaration.index(),
            directory.what(*declaration),
        )?;
    }
    Ok(members)
}
