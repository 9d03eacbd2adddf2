// The modules of a text as scopes, each by its number.
ghost use Rattle.std.specs.Prelude.{◌≡◌, IfOk};
ghost use Rattle.psdl_check.specs.inner.Modules as modules;
ghost use Rattle.psdl_check.specs.inner.Modules.{AreModules};

use psdl_directory::{Directory, ModuleNo};
use pss_base::{Bytes, NoMemory};
use std::alloc::Global;
use type_layout::{Scope, ScopeNo, Scopes};

/// The scope of a module.
pub(crate) fn scope_in(outer: Option<ModuleNo>) -> Option<ScopeNo>
    ensures { result ≡ modules.scope_in outer }
{
    match outer {
        Some(number) => Some(ScopeNo(number.index())),
        None => None,
    }
}

/// A name in a scope.
pub(crate) fn scope_of(
    alloc: Global,
    outer: Option<ModuleNo>,
    name: &[u8],
) -> Result<Scope, NoMemory>
    ensures { IfOk result (λ scope. scope ≡ record { outer = modules.scope_in outer; name = name.now }) }
{
    let name = Bytes::from_slice(alloc, name)?;
    Ok(Scope {
        outer: scope_in(outer),
        name,
    })
}

/// The modules of a text.
pub(crate) fn modules_of(alloc: Global, directory: &Directory<'_>) -> Result<Scopes, NoMemory>
    ensures { IfOk result (λ scopes. AreModules directory.now scopes) }
{
    let mut scopes = Scopes::new(alloc);
    for index in 0..directory.module_count() {
        let module = directory.module(ModuleNo::new(index));
        scopes.push(scope_of(alloc, module.outer, module.name)?)?;
    }
    Ok(scopes)
}
