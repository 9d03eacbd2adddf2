// The families of homes, each named by its first home.
ghost use Rattle.std.specs.Prelude.{◌≡◌, ◌<◌, List, length, slice_get, IfOk};
ghost use Rattle.psdl_directory.specs.Declarations.{Declaration};
ghost use Rattle.psdl_directory.specs.Directories.{all_of};
ghost use Rattle.psdl_directory.specs.Headers as of;
ghost use Rattle.psdl_lineage.specs.Descent.{family, base_home};
ghost use Rattle.psdl_lineage.specs.inner.Families.{families_before};

use crate::homes::first_home;
use psdl_directory::{DeclarationNo, Directory, Header};
use pss_base::NoMemory;
use std::alloc::Global;

fn known(families: &[DeclarationNo], number: DeclarationNo) -> Option<DeclarationNo>
    ensures { result ≡ slice_get families.now number }
{
    families.get(number.index()).copied()
}

// The family of a declaration, by the families of those in front. A home whose base does not stand in front is its own base.
fn family_of(
    families: &[DeclarationNo],
    base: Option<DeclarationNo>,
    number: DeclarationNo,
) -> DeclarationNo
    ensures { (all : List Declaration) → number < length all → families.now ≡ families_before all number → base ≡ base_home all number → result ≡ family all number }
{
    match base {
        None => number,
        Some(home) => match known(families, home) {
            Some(family) => family,
            None => number,
        },
    }
}

/// The family of each declaration.
pub(crate) fn families_of(
    alloc: Global,
    directory: &Directory<'_>,
    headers: &[Header],
) -> Result<Vec<DeclarationNo>, NoMemory>
    requires { headers.now ≡ of.headers (all_of directory.now) }
    ensures { IfOk result (λ v. v.items ≡ families_before (all_of directory.now) (length (all_of directory.now))) }
{
    let mut families = Vec::new(alloc);
    for index in 0..headers.len() {
        let header = &headers[index];
        let base = first_home(directory, header.bases());
        let family = family_of(&families, base, DeclarationNo::new(index));
        families.push(family)?;
    }
    Ok(families)
}
