// Whether changes leave each key at most one holder.
ghost use Rattle.std.specs.Prelude.{◌≡◌, ◌↔◌, List, IfOk, IsTrue};
ghost use Rattle.pss_catalog.specs.Catalog.{IsUnique};
ghost use Rattle.pss_catalog.specs.Changes.{Change as Step, over};
ghost use Rattle.storage_home.specs.Applied.{AreChanges};
ghost use Rattle.storage_home.specs.Kept.{Keeping};
ghost use Rattle.pss_recovery.specs.inner.Claims.{Agrees, AreOpen, ComeApart, IsOpen, Keys, is_in, no_keys, tagged};

use crate::claims::{put_keys, released_keys, tag};
use crate::keys::is_held;
use key_index::KeyIndex;
use pss_base::{Bytes, NoMemory};
use std::alloc::Global;
use storage_home::{Change, Changes, Homes};
use type_layout::KeyNo;

// Whether a change may take a key, whose tagged octets are these.
fn is_open(
    homes: &Homes,
    released: &KeyIndex,
    claimed: &KeyIndex,
    pair: &(KeyNo, Bytes),
    octets: &[u8],
) -> bool
    requires { octets.now ≡ tagged pair.now.0.0 pair.now.1 }
    ensures { Keeping homes.now (λ S M. IsTrue result ↔ IsOpen S M (is_in released.now) (is_in claimed.now) pair.now.0 pair.now.1) }
{
    if claimed.find(octets).is_some() {
        return false;
    }
    if is_held(homes, pair.0, pair.1.as_slice()) {
        released.find(octets).is_some()
    } else {
        true
    }
}

// Whether a change may take its keys.
fn are_open(
    alloc: Global,
    homes: &Homes,
    released: &KeyIndex,
    claimed: &KeyIndex,
    pairs: &[(KeyNo, Bytes)],
) -> Result<bool, NoMemory>
    ensures { IfOk result (λ may. Keeping homes.now (λ S M. (gone taken : Keys) → Agrees released.now gone → Agrees claimed.now taken → IsTrue may ↔ AreOpen S M gone taken pairs.now)) }
{
    for pair in pairs {
        let octets = tag(alloc, pair.0, pair.1.as_slice())?;
        if !is_open(homes, released, claimed, pair, octets.as_slice()) {
            return Ok(false);
        }
    }
    Ok(true)
}

// Whether the changes may take their keys, one after the other.
fn come_apart(
    alloc: Global,
    homes: &Homes,
    released: &KeyIndex,
    changes: &[Change],
) -> Result<bool, NoMemory>
    ensures { IfOk result (λ apart. Keeping homes.now (λ S M. (gone : Keys) → Agrees released.now gone → IsTrue apart ↔ ComeApart S M gone no_keys changes.now)) }
{
    let mut claimed = KeyIndex::new(alloc);
    for change in changes {
        let keys = change.new_keys.as_slice();
        if !are_open(alloc, homes, released, &claimed, keys)? {
            return Ok(false);
        }
        put_keys(alloc, &mut claimed, keys)?;
    }
    Ok(true)
}

/// Whether no two objects hold a key with the same bytes once these changes are made. Each key is found by hash.
pub fn stay_apart(alloc: Global, homes: &Homes, changes: &Changes) -> Result<bool, NoMemory>
    ensures { IfOk result (λ apart. Keeping homes.now (λ S M. (steps : List Step) → AreChanges S M changes.now steps → IsTrue apart ↔ IsUnique S (over M steps))) }
{
    let released = released_keys(alloc, changes.as_slice())?;
    come_apart(alloc, homes, &released, changes.as_slice())
}
