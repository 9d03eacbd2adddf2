// A body's changes are made of the objects.
ghost use Rattle.std.specs.Prelude.{◌≡◌, ◌↔◌, List, Ok, false, true, IfOk, IsTrue};
ghost use Rattle.type_layout.specs.declared.schema.Schema.{Schema as Scheme};
ghost use Rattle.pss_catalog.specs.Catalog.{Catalog};
ghost use Rattle.pss_catalog.specs.Changes.{Change as Step};
ghost use Rattle.storage_home.specs.Applied.{AreChanges};
ghost use Rattle.storage_home.specs.Kept.{AnyKept, IsKept, Keeping};
ghost use Rattle.pss_recovery.specs.Replaying.{IsChanged};
ghost use Rattle.pss_recovery.specs.inner.Remaking.{AnyChanges, AreApplied, IsMadeOf, IsOrdered, StaysWithin};

use crate::apart::stay_apart;
use crate::body::Body;
use crate::changing::changes_of_puts;
use crate::loading::make_changes;
use crate::rising::rises;
use crate::summing::stays_bounded;
use pss_base::{MOST_CHANGES, NoMemory};
use std::alloc::Global;
use storage_home::{Changes, Homes};
use type_layout::Schema;

// Whether changes keep keys unique, and the sum within its limit.
fn stay_within(alloc: Global, homes: &Homes, changes: &Changes) -> Result<bool, NoMemory>
    requires { AnyKept homes.now }
    ensures { IfOk result (λ within. Keeping homes.now (λ S M. (steps : List Step) → AreChanges S M changes.now steps → IsTrue within ↔ StaysWithin S M steps)) }
{
    if !stays_bounded(homes, changes) {
        return Ok(false);
    }
    stay_apart(alloc, homes, changes)
}

// Makes changes of the objects where they keep keys unique, and the sum within its limit.
fn apply_changes(alloc: Global, homes: &mut Homes, changes: Changes) -> Result<bool, NoMemory>
    requires { AnyChanges homes.old changes }
    ensures made { result ≡ Ok true → (S : Scheme) (M : Catalog) (steps : List Step) → IsKept S M homes.old → AreChanges S M changes steps → AreApplied S M steps homes.new }
    ensures refused { result ≡ Ok false → (S : Scheme) (M : Catalog) (steps : List Step) → IsKept S M homes.old → AreChanges S M changes steps → StaysWithin S M steps → ⊥ }
{
    if !stay_within(alloc, homes, &changes)? {
        return Ok(false);
    }
    make_changes(homes, changes)?;
    Ok(true)
}

// Whether a body has 1 to 256 changes by rising serials below its next one, which is no less than the last next one.
fn is_ordered(body: &Body, next: u64) -> bool
    ensures { IsTrue result ↔ IsOrdered next body.now }
{
    let puts = body.puts.as_slice();
    if puts.is_empty() || puts.len() > MOST_CHANGES as usize || body.next < next {
        return false;
    }
    rises(puts, body.next)
}

/// Makes the changes of a body of the objects, where it may come over them, and answers whether it may. Where it may not,
/// the objects are as before.
pub fn apply_body(
    alloc: Global,
    schema: &Schema,
    homes: &mut Homes,
    body: Body,
    next: u64,
) -> Result<bool, NoMemory>
    requires { (M : Catalog) × IsKept schema.now M homes.old }
    ensures made { result ≡ Ok true → (M : Catalog) → IsKept schema.now M homes.old → IsMadeOf schema.now M next body homes.new }
    ensures refused { result ≡ Ok false → (M N : Catalog) → IsKept schema.now M homes.old → IsChanged schema.now M next body N → ⊥ }
{
    if !is_ordered(&body, next) {
        return Ok(false);
    }
    match changes_of_puts(alloc, schema, homes, body.puts, body.next) {
        Ok(Some(changes)) => apply_changes(alloc, homes, changes),
        Ok(None) => Ok(false),
        Err(NoMemory) => Err(NoMemory),
    }
}
