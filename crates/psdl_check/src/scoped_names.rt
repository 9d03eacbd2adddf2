// The names of homes and catalogs with those of the modules round them.
ghost use Rattle.std.specs.Prelude.{◌≡◌, ◌<◌, [], map, IfOk};
ghost use Rattle.psdl_directory.specs.Directories.{all_of};
ghost use Rattle.psdl_directory.specs.Lookup.{at};
ghost use Rattle.psdl_check.specs.Schemas as schemas;

use psdl_directory::{DeclarationNo, Directory};
use pss_base::{Bytes, NoMemory};
use std::alloc::Global;

// The names of modules, the outermost first, each with `::` behind it.
fn prefix(alloc: Global, modules: &[&[u8]]) -> Result<Bytes, NoMemory>
    ensures { IfOk result (λ text. text ≡ schemas.scoped (map (λ n. n.now) modules.now) []) }
{
    let mut text = Bytes::new(alloc);
    let mut left = modules.len();
    while left > 0 {
        left -= 1;
        text.extend(modules[left])?;
        text.extend(b"::")?;
    }
    Ok(text)
}

/// The name of a declaration with those of the modules round it, `::` between them.
pub(crate) fn scoped_name(
    alloc: Global,
    directory: &Directory<'_>,
    number: DeclarationNo,
) -> Result<Bytes, NoMemory>
    ensures { IfOk result (λ name. name ≡ schemas.scoped_name (at (all_of directory.now) number)) }
{
    let modules = directory.modules(alloc, number)?;
    let mut whole = prefix(alloc, &modules)?;
    whole.extend(directory.name(number))?;
    Ok(whole)
}
