// Keys that objects hold.
ghost use Rattle.std.specs.Prelude.{◌↔◌, IsTrue, Some};
ghost use Rattle.pss_catalog.specs.Catalog.{Object};
ghost use Rattle.storage_home.specs.Applied.{AreKeysOf};
ghost use Rattle.storage_home.specs.Kept.{Keeping};
ghost use Rattle.pss_recovery.specs.Loading.{IsFree};
ghost use Rattle.pss_recovery.specs.inner.Held.{IsHeld};

use pss_base::Bytes;
use storage_home::Homes;
use type_layout::KeyNo;

/// Whether an object holds a key with these bytes.
pub fn is_held(homes: &Homes, key: KeyNo, bytes: &[u8]) -> bool
    ensures { Keeping homes.now (λ S M. IsTrue result ↔ IsHeld S M key bytes.now) }
{
    match homes.find_key(key, bytes) {
        Some(_) => true,
        None => false,
    }
}

/// Whether no object holds any of the keys of another one. Each is found by hash.
pub fn are_free(homes: &Homes, keys: &[(KeyNo, Bytes)]) -> bool
    ensures { Keeping homes.now (λ S M. (object : Object) → AreKeysOf S (Some object) keys.now → IsTrue result ↔ IsFree S M object) }
{
    for pair in keys {
        if is_held(homes, pair.0, pair.1.as_slice()) {
            return false;
        }
    }
    true
}
