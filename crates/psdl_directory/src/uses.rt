// Names, with what they mean.
ghost use Rattle.std.specs.Prelude.{◌≡◌, is_some, IfOk};
ghost use Rattle.psdl_tree.specs.Views.{name_view};
ghost use Rattle.psdl_directory.specs.Directories.{all_of};
ghost use Rattle.psdl_directory.specs.Headers.{used};
ghost use Rattle.psdl_directory.specs.Lookup.{lower, at, meaning, place_of};

use crate::directory::Directory;
use crate::number::DeclarationNo;
use crate::spelling::Spelling;
use psdl_tree::Name;
use pss_base::{NoMemory, Place};
use std::alloc::Global;

/// A name: where it stands, and what it means.
#[derive(Drop)]
pub struct Use {
    pub place: Place,
    /// What it means.
    pub meant: Option<DeclarationNo>,
    /// The definition of what it means: another declaration where that is only forward.
    pub defined: Option<DeclarationNo>,
    /// It means nothing, but would mean something if case were ignored.
    pub wrong_case: bool,
}

/// The place of a name's first token.
pub fn name_place(name: &Name) -> Place
    ensures { result ≡ place_of (name_view name.now) }
{
    match name.leading {
        Some(place) => place,
        None => name.first.place,
    }
}

// Whether a name means something where case is ignored.
fn means_alike(
    alloc: Global,
    directory: &Directory<'_>,
    limit: usize,
    number: DeclarationNo,
    name: &Name,
) -> Result<bool, NoMemory>
    ensures { IfOk result (λ r. r ≡ is_some (meaning lower (all_of directory.now) limit (at (all_of directory.now) number).path (name_view name.now))) }
{
    let meaning = directory.meaning(alloc, Spelling::Lower, limit, number, name)?;
    match meaning {
        Some(_) => Ok(true),
        None => Ok(false),
    }
}

/// A name in the scope of a declaration, with what it means of the first so many declarations.
/// `NoMemory`: there was no room for the name in small letters.
pub fn resolve(
    alloc: Global,
    directory: &Directory<'_>,
    limit: usize,
    number: DeclarationNo,
    name: &Name,
) -> Result<Use, NoMemory>
    ensures { IfOk result (λ u. u ≡ used (all_of directory.now) limit number (name_view name.now)) }
{
    let place = name_place(name);
    let meaning = directory.meaning(alloc, Spelling::AsIs, limit, number, name)?;
    match meaning {
        Some(meant) => Ok(Use {
            place,
            meant: Some(meant),
            defined: directory.definition(meant),
            wrong_case: false,
        }),
        None => Ok(Use {
            place,
            meant: None,
            defined: None,
            wrong_case: means_alike(alloc, directory, limit, number, name)?,
        }),
    }
}
