// The names of all factories that homes declare.
ghost use Rattle.std.specs.Prelude.{◌≡◌, [], map, IfOk, OnOk};
ghost use Rattle.type_layout.specs.Schemas.{given};
ghost use Rattle.type_layout.specs.inner.Searches.{AreEntered, FindsFirsts};

use crate::name_places::{Places, enter};
use crate::{DeclaredFactories, DeclaredFactory};
use pss_base::NoMemory;
use std::alloc::Global;
use std::collections::BTreeMap;

fn factories_of(declared: &Option<Box<DeclaredFactories>>) -> &[DeclaredFactory]
    ensures { result.now ≡ given declared.now [] (λ b. b.value) }
{
    match declared {
        Some(factories) => factories.as_slice(),
        None => &[],
    }
}

// The names of what a declaration declares have its number, but for those that have one.
fn enter_all(
    alloc: Global,
    names: &mut Places,
    declared: &[DeclaredFactory],
    number: usize,
) -> Result<(), NoMemory>
    ensures { OnOk result (AreEntered names.old names.new declared.now number) }
{
    for factory in declared {
        enter(alloc, names, factory.name.as_slice(), number)?;
    }
    Ok(())
}

/// Each name with the number of the first declaration that declares such a factory.
pub(crate) fn first_places(
    alloc: Global,
    declared: &[Option<Box<DeclaredFactories>>],
) -> Result<Places, NoMemory>
    ensures { IfOk result (λ names. FindsFirsts names (map (λ o. given o [] (λ b. b.value)) declared.now)) }
{
    let mut names = BTreeMap::new(alloc);
    for number in 0..declared.len() {
        enter_all(alloc, &mut names, factories_of(&declared[number]), number)?;
    }
    Ok(names)
}
