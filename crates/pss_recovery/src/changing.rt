// The changes of a body over the objects that are there.
ghost use Rattle.std.specs.Prelude.{◌≡◌, List, IfOk, IfSome, IsNone};
ghost use Rattle.pss_catalog.specs.Catalog.{Catalog};
ghost use Rattle.pss_catalog.specs.Changes.{Change as Step};
ghost use Rattle.storage_home.specs.Kept.{IsKept};
ghost use Rattle.pss_recovery.specs.Replaying.{AreMade, IsMade, Rise};
ghost use Rattle.pss_recovery.specs.inner.Remaking.{MakeSteps, MakesStep};

use crate::altering::{new_keys, old_keys};
use pss_base::{NoMemory, Put, Puts};
use std::alloc::Global;
use storage_home::{Change, Changes, Homes};
use type_layout::Schema;

// A put with the keys of its object before and after; none where it may not be made.
fn change_of(
    alloc: Global,
    schema: &Schema,
    homes: &Homes,
    put: Put,
    next: u64,
) -> Result<Option<Change>, NoMemory>
    requires { (M : Catalog) × IsKept schema.now M homes.now }
    ensures put { IfOk result (λ change. IfSome change (λ change. change.put ≡ put)) }
    ensures found { IfOk result (λ change. IfSome change (λ change. (M : Catalog) → IsKept schema.now M homes.now → MakesStep schema.now M next put change)) }
    ensures none { IfOk result (λ change. IsNone change → (M : Catalog) (step : Step) → IsKept schema.now M homes.now → IsMade schema.now M next put step → ⊥) }
{
    let old_keys = match old_keys(alloc, schema, homes, &put) {
        Ok(Some(keys)) => keys,
        Ok(None) => return Ok(None),
        Err(NoMemory) => return Err(NoMemory),
    };
    match new_keys(alloc, schema, &put, next) {
        Ok(Some(new_keys)) => Ok(Some(Change {
            put,
            old_keys,
            new_keys,
        })),
        Ok(None) => Ok(None),
        Err(NoMemory) => Err(NoMemory),
    }
}

/// The puts of a body with the keys of their objects before and after; none where one of them may not be made. Records are
/// not copied.
pub fn changes_of_puts(
    alloc: Global,
    schema: &Schema,
    homes: &Homes,
    puts: Puts,
    next: u64,
) -> Result<Option<Changes>, NoMemory>
    requires kept { (M : Catalog) × IsKept schema.now M homes.now }
    requires rise { Rise 0 next puts }
    ensures found { IfOk result (λ changes. IfSome changes (λ changes. (M : Catalog) → IsKept schema.now M homes.now → MakeSteps schema.now M next puts changes)) }
    ensures none { IfOk result (λ changes. IsNone changes → (M : Catalog) (steps : List Step) → IsKept schema.now M homes.now → AreMade schema.now M next puts steps → ⊥) }
{
    let mut changes = Changes::new(alloc);
    for put in puts.into_vec() {
        let Some(change) = change_of(alloc, schema, homes, put, next)? else {
            return Ok(None);
        };
        changes.push(change)?;
    }
    Ok(Some(changes))
}
