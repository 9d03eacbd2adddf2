// Homes: their types and bases, and which of them are concrete.
ghost use Rattle.std.specs.Prelude.{◌≡◌, ◌++◌, ◌∷◌, [], if◌then◌else◌, IfOk, OnOk};
ghost use Rattle.std.specs.List.{find};
ghost use Rattle.std.specs.Option.{option_to_list};
ghost use Rattle.psdl_directory.specs.Directories.{all_of};
ghost use Rattle.psdl_directory.specs.Lookup.{at};
ghost use Rattle.psdl_directory.specs.Parts as parts;
ghost use Rattle.psdl_lineage.specs.Descent as descent;
ghost use Rattle.psdl_lineage.specs.inner.Meant.{meant_by, defined_by};

use psdl_directory::{DeclarationNo, Directory, Header, Use};
use pss_base::NoMemory;
use std::alloc::Global;

fn storage_type(directory: &Directory<'_>, used: &Use) -> Option<DeclarationNo>
    ensures { result ≡ find (λ t. parts.is_storage_type (at (all_of directory.now) t).what) (option_to_list used.now.defined) }
{
    let Some(defined) = used.defined else {
        return None;
    };
    let holds = directory.what(defined).is_storage_type();
    if holds { Some(defined) } else { None }
}

/// The definition of the storage type that a header names behind `of`.
pub(crate) fn managed_type(directory: &Directory<'_>, header: &Header) -> Option<DeclarationNo>
    ensures { result ≡ find (λ t. parts.is_storage_type (at (all_of directory.now) t).what) (option_to_list (defined_by header.now.managed)) }
{
    match header.managed() {
        Some(used) => storage_type(directory, used),
        None => None,
    }
}

fn concrete_home(directory: &Directory<'_>, used: &Use) -> Option<DeclarationNo>
    ensures { result ≡ find (λ b. parts.is_concrete_home (at (all_of directory.now) b).what) (option_to_list used.now.defined) }
{
    let Some(defined) = used.defined else {
        return None;
    };
    let holds = directory.what(defined).is_concrete_home();
    if holds { Some(defined) } else { None }
}

/// The first concrete home among those that are named.
pub(crate) fn first_home(directory: &Directory<'_>, uses: &[Use]) -> Option<DeclarationNo>
    ensures { result ≡ find (λ b. parts.is_concrete_home (at (all_of directory.now) b).what) (meant_by uses.now) }
{
    for used in uses {
        match concrete_home(directory, used) {
            Some(home) => return Some(home),
            None => {}
        }
    }
    None
}

// Adds a declaration, where it is a concrete home.
fn add_home(
    directory: &Directory<'_>,
    homes: &mut Vec<DeclarationNo>,
    number: DeclarationNo,
) -> Result<(), NoMemory>
    ensures { OnOk result (homes.new.items ≡ homes.old.items ++ (if parts.is_concrete_home (at (all_of directory.now) number).what then number ∷ [] else [])) }
{
    let holds = directory.what(number).is_concrete_home();
    if holds {
        homes.push(number)?;
    }
    Ok(())
}

/// The concrete homes in the order of the text.
pub(crate) fn concrete_homes(
    alloc: Global,
    directory: &Directory<'_>,
) -> Result<Vec<DeclarationNo>, NoMemory>
    ensures { IfOk result (λ v. v.items ≡ descent.concrete_homes (all_of directory.now)) }
{
    let mut homes = Vec::new(alloc);
    for number in 0..directory.len() {
        add_home(directory, &mut homes, DeclarationNo::new(number))?;
    }
    Ok(homes)
}
