// The sum over the objects, once changes are made.
ghost use Rattle.std.specs.Prelude.{◌≡◌, ◌↔◌, ◌+◌, ◌^◌, ◌≤◌, List, IsTrue};
ghost use Rattle.pss_catalog.specs.Catalog.{total, weight_at};
ghost use Rattle.pss_catalog.specs.Changes.{Change as Step, over};
ghost use Rattle.storage_home.specs.Applied.{AreChanges};
ghost use Rattle.storage_home.specs.Changes.{Rises};
ghost use Rattle.storage_home.specs.Kept.{AnyKept, Keeping};
ghost use Rattle.pss_recovery.specs.Loading.{most_octets};
ghost use Rattle.pss_recovery.specs.inner.Sums.{new_weights, old_weights, put_weight};

use pss_base::{GREATEST_TOTAL, OBJECT_WEIGHT, Put};
use storage_home::{Change, Changes, Homes};

// What the object with a serial adds to the sum, nothing where there is none.
fn weight_at(homes: &Homes, serial: u64) -> u64
    ensures { Keeping homes.now (λ S M. result ≡ weight_at S M serial) }
{
    match homes.get(serial) {
        Some((_, bytes)) => OBJECT_WEIGHT + bytes.len() as u64,
        None => 0,
    }
}

// What a change adds to the sum.
fn put_weight(put: &Put) -> u64
    ensures weight { result ≡ put_weight put.now }
    ensures few { result ≤ 2 ^ 63 + 16 }
{
    match &put.bytes {
        Some(bytes) => OBJECT_WEIGHT + bytes.as_slice().len() as u64,
        None => 0,
    }
}

// The sum without the objects that change.
fn weight_left(homes: &Homes, changes: &[Change]) -> u64
    requires kept { AnyKept homes.now }
    requires rise { Rises 0 changes.now }
    ensures { Keeping homes.now (λ S M. result + old_weights S M changes.now ≡ total S M) }
{
    let mut left = homes.total_bytes();
    for change in changes {
        left -= weight_at(homes, change.put.serial);
    }
    left
}

// Whether a sum and the records of changes are within the limit.
fn fits_with(left: u64, changes: &[Change]) -> bool
    ensures { IsTrue result ↔ (left + new_weights changes.now ≤ most_octets) }
{
    let mut sum = left;
    for change in changes {
        if sum > GREATEST_TOTAL {
            return false;
        }
        sum += put_weight(&change.put);
    }
    sum <= GREATEST_TOTAL
}

/// Whether the sum over the objects of 16 and the length of the record is within its limit once these changes are made.
pub fn stays_bounded(homes: &Homes, changes: &Changes) -> bool
    requires { AnyKept homes.now }
    ensures { Keeping homes.now (λ S M. (steps : List Step) → AreChanges S M changes.now steps → IsTrue result ↔ (total S (over M steps) ≤ most_octets)) }
{
    let left = weight_left(homes, changes.as_slice());
    fits_with(left, changes.as_slice())
}
