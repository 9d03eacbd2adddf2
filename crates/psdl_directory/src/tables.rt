// The tables by which declarations are looked up.
ghost use Rattle.std.specs.Prelude.{IfOk};
ghost use Rattle.psdl_directory.specs.Lookup as lookups;
ghost use Rattle.psdl_directory.specs.inner.Keys.{plain, whole, AreKeys};
ghost use Rattle.psdl_directory.specs.inner.Named.{Indexes};

use crate::declaration::Declaration;
use crate::keys::{keys, whole_keys};
use crate::number::DeclarationNo;
use crate::scoped::Scoped;
use crate::spelling::Spelling;
use crate::spellings::Spellings;
use crate::table::table_of;
use pss_base::NoMemory;
use std::alloc::Global;
use std::collections::BTreeMap;

/// Spellings, and the keys of declarations by them, in order.
#[derive(Drop)]
pub(crate) struct Keys {
    pub spellings: Spellings,
    pub exact: Vec<Scoped>,
    pub small: Vec<Scoped>,
}

/// The first declaration of each key.
#[derive(Drop)]
pub(crate) struct Firsts {
    pub exact: BTreeMap<Scoped, DeclarationNo>,
    pub small: BTreeMap<Scoped, DeclarationNo>,
    pub wholes: BTreeMap<Scoped, DeclarationNo>,
}

/// The keys of declarations.
pub(crate) fn all_keys(alloc: Global, declarations: &[Declaration<'_>]) -> Result<Keys, NoMemory>
    ensures exact { IfOk result (λ k. AreKeys lookups.as_is plain k.spellings k.exact.items declarations.now) }
    ensures small { IfOk result (λ k. AreKeys lookups.lower plain k.spellings k.small.items declarations.now) }
{
    let mut spellings = Spellings::new(alloc);
    let exact = keys(alloc, &mut spellings, Spelling::AsIs, declarations)?;
    let small = keys(alloc, &mut spellings, Spelling::Lower, declarations)?;
    Ok(Keys {
        spellings,
        exact,
        small,
    })
}

fn wholes(
    alloc: Global,
    keys: &Keys,
    declarations: &[Declaration<'_>],
) -> Result<BTreeMap<Scoped, DeclarationNo>, NoMemory>
    requires { AreKeys lookups.as_is plain keys.now.spellings keys.now.exact.items declarations.now }
    ensures { IfOk result (λ t. Indexes lookups.as_is whole keys.now.spellings t declarations.now) }
{
    let wholes = whole_keys(alloc, &keys.spellings, &keys.exact, declarations)?;
    table_of(alloc, &wholes)
}

pub(crate) fn all_firsts(
    alloc: Global,
    keys: &Keys,
    declarations: &[Declaration<'_>],
) -> Result<Firsts, NoMemory>
    requires exact { AreKeys lookups.as_is plain keys.now.spellings keys.now.exact.items declarations.now }
    requires small { AreKeys lookups.lower plain keys.now.spellings keys.now.small.items declarations.now }
    ensures exact { IfOk result (λ t. Indexes lookups.as_is plain keys.now.spellings t.exact declarations.now) }
    ensures small { IfOk result (λ t. Indexes lookups.lower plain keys.now.spellings t.small declarations.now) }
    ensures wholes { IfOk result (λ t. Indexes lookups.as_is whole keys.now.spellings t.wholes declarations.now) }
{
    let exact = table_of(alloc, &keys.exact)?;
    let small = table_of(alloc, &keys.small)?;
    let wholes = wholes(alloc, keys, declarations)?;
    Ok(Firsts {
        exact,
        small,
        wholes,
    })
}
