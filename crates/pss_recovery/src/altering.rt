// A change of a body over the objects that are there.
ghost use Rattle.std.specs.Prelude.{◌≡◌, IfOk, IfSome, IsNone, OnOk, Some};
ghost use Rattle.std.specs.FinMap.{get};
ghost use Rattle.type_layout.specs.Sound.{IsSoundSchema};
ghost use Rattle.pss_catalog.specs.Catalog.{Catalog, Object};
ghost use Rattle.std.specs.declared.option.Option.{Option};
ghost use Rattle.pss_base.specs.declared.damage.DamageKind.{DamageKind as Kind};
ghost use Rattle.pss_recovery.specs.declared.checking.RowStop.TheVariants.{Wrong};
ghost use Rattle.storage_home.specs.Applied.{AreKeysOf};
ghost use Rattle.pss_recovery.specs.inner.Altering.{HasNewKeys, HasState, IsKeptSound, MayAlter};

use crate::checking::{RowStop, check_row};
use pss_base::{LONGEST_RECORD, NoMemory, Put};
use std::alloc::Global;
use storage_home::{Homes, KeyValues, keys_of_octets};
use type_layout::{HomeNo, Schema};

/// The keys of the object that a change alters, no keys where it makes a new one; none where the change is of another
/// home than the object that is there, or removes one that is not there.
pub fn old_keys(
    alloc: Global,
    schema: &Schema,
    homes: &Homes,
    put: &Put,
) -> Result<Option<KeyValues>, NoMemory>
    requires sound { IsSoundSchema schema.now }
    requires kept { (M : Catalog) × IsKeptSound schema.now M homes.now }
    ensures keys { IfOk result (λ keys. IfSome keys (λ keys. (M : Catalog) → IsKeptSound schema.now M homes.now → AreKeysOf schema.now (get M put.now.serial) keys)) }
    ensures may { IfOk result (λ keys. IfSome keys (λ keys. (M : Catalog) → IsKeptSound schema.now M homes.now → MayAlter M put.now)) }
    ensures none { IfOk result (λ keys. IsNone keys → (M : Catalog) → IsKeptSound schema.now M homes.now → MayAlter M put.now → ⊥) }
{
    match homes.get(put.serial) {
        Some((home, bytes)) => {
            if home.0 != put.home {
                return Ok(None);
            }
            match keys_of_octets(alloc, schema, home, bytes) {
                Ok(keys) => Ok(Some(keys)),
                Err(NoMemory) => Err(NoMemory),
            }
        }
        None => {
            if put.bytes.is_none() {
                return Ok(None);
            }
            Ok(Some(KeyValues::new(alloc)))
        }
    }
}

// No keys where the row of a change is wrong.
fn no_keys(stop: RowStop) -> Result<Option<KeyValues>, NoMemory>
    ensures none { IfOk result IsNone }
    ensures wrong { OnOk result ((k : Kind) × (stop ≡ Wrong k)) }
{
    match stop {
        RowStop::Wrong(_) => Ok(None),
        RowStop::NoMemory => Err(NoMemory),
    }
}

/// The keys of the record that a change puts, no keys where it removes an object; none where its octets are more than
/// 8,000, or no record of its home, or refer to a serial that is not below the next one.
pub fn new_keys(
    alloc: Global,
    schema: &Schema,
    put: &Put,
    next: u64,
) -> Result<Option<KeyValues>, NoMemory>
    requires { IsSoundSchema schema.now }
    ensures keys { IfOk result (λ keys. IfSome keys (HasNewKeys schema.now next put.now)) }
    ensures none { IfOk result (λ keys. IsNone keys → (state : Option Object) → HasState schema.now next put.now state → ⊥) }
{
    let Some(bytes) = &put.bytes else {
        return Ok(Some(KeyValues::new(alloc)));
    };
    if bytes.as_slice().len() > LONGEST_RECORD as usize {
        return Ok(None);
    }
    match check_row(alloc, schema, put, next) {
        Ok(keys) => Ok(Some(keys)),
        Err(stop) => no_keys(stop),
    }
}
