// The keys of declarations.
ghost use Rattle.std.specs.Prelude.{IfOk};
ghost use Rattle.psdl_directory.specs.Spelled.{Keeps, spelled_by};
ghost use Rattle.psdl_directory.specs.inner.Keys.{plain, whole, AreKeys};
ghost use Rattle.psdl_directory.specs.Lookup.{as_is};

use crate::declaration::Declaration;
use crate::kind::whole_kind;
use crate::scoped::Scoped;
use crate::spelling::Spelling;
use crate::spellings::Spellings;
use pss_base::NoMemory;
use std::alloc::Global;

/// The keys of declarations by how names are compared.
pub(crate) fn keys(
    alloc: Global,
    spellings: &mut Spellings,
    spelling: Spelling,
    declarations: &[Declaration<'_>],
) -> Result<Vec<Scoped>, NoMemory>
    ensures keys { IfOk result (λ v. AreKeys (spelled_by spelling) plain spellings.new v.items declarations.now) }
    ensures kept { Keeps spellings.old spellings.new }
{
    let mut keys = Vec::new(alloc);
    for declaration in declarations {
        let number = spelling.note(alloc, spellings, declaration.name)?;
        keys.push(Scoped {
            scope: declaration.scope,
            kind: None,
            spelling: number,
        })?;
    }
    Ok(keys)
}

/// The same with the kinds of definitions.
pub(crate) fn whole_keys(
    alloc: Global,
    spellings: &Spellings,
    keys: &[Scoped],
    declarations: &[Declaration<'_>],
) -> Result<Vec<Scoped>, NoMemory>
    requires { AreKeys as_is plain spellings.now keys.now declarations.now }
    ensures { IfOk result (λ v. AreKeys as_is whole spellings.now v.items declarations.now) }
{
    let mut wholes = Vec::new(alloc);
    for i in 0..declarations.len() {
        let key = keys[i];
        wholes.push(Scoped {
            scope: key.scope,
            kind: whole_kind(declarations[i].what),
            spelling: key.spelling,
        })?;
    }
    Ok(wholes)
}
