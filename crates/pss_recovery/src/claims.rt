// Keys that changes give up and take, in tables by hash.
ghost use Rattle.std.specs.Prelude.{ℕ, ◌≡◌, ◌||◌, ◌^◌, ◌<◌, ◌∷◌, [], List, IfOk, OnOk};
ghost use Rattle.std.specs.Str.{bytes_eq};
ghost use Rattle.pss_recovery.specs.inner.Claims.{Agrees, is_in, releases, tagged, with_pairs};

use key_index::KeyIndex;
use pss_base::{Bytes, NoMemory};
use std::alloc::Global;
use storage_home::Change;
use type_layout::KeyNo;

/// The number of a key in front of its bytes: so the keys of all numbers stand in one table.
pub fn tag(alloc: Global, key: KeyNo, bytes: &[u8]) -> Result<Bytes, NoMemory>
    ensures tagged { IfOk result (λ octets. octets ≡ tagged key.0 bytes.now) }
    ensures number { key.0 < 2 ^ 32 }
{
    let mut octets = Bytes::with_room(alloc, 4 + bytes.len())?;
    octets.extend(&key.0.to_be_bytes())?;
    octets.extend(bytes)?;
    Ok(octets)
}

// Puts a tagged key into a table, where it may be already.
fn put_tagged(table: &mut KeyIndex, octets: &[u8]) -> Result<(), NoMemory>
    ensures { OnOk result ((key : ℕ) (bytes : List ℕ) → is_in table.new key bytes ≡ (bytes_eq (tagged key bytes) octets.now || is_in table.old key bytes)) }
{
    match table.find(octets) {
        Some(_) => Ok(()),
        None => {
            table.reserve(octets)?;
            table.put_reserved(octets, 0);
            Ok(())
        }
    }
}

// Puts a key into a table.
fn put_key(alloc: Global, table: &mut KeyIndex, pair: &(KeyNo, Bytes)) -> Result<(), NoMemory>
    ensures { OnOk result (Agrees table.new (with_pairs (pair.now ∷ []) (is_in table.old))) }
{
    let octets = tag(alloc, pair.0, pair.1.as_slice())?;
    put_tagged(table, octets.as_slice())
}

/// Puts keys into a table.
pub fn put_keys(
    alloc: Global,
    table: &mut KeyIndex,
    pairs: &[(KeyNo, Bytes)],
) -> Result<(), NoMemory>
    ensures { OnOk result (Agrees table.new (with_pairs pairs.now (is_in table.old))) }
{
    for pair in pairs {
        put_key(alloc, table, pair)?;
    }
    Ok(())
}

// Puts the keys that changes give up into a table.
fn put_released(alloc: Global, table: &mut KeyIndex, changes: &[Change]) -> Result<(), NoMemory>
    ensures { OnOk result (Agrees table.new (λ key bytes. releases changes.now key bytes || is_in table.old key bytes)) }
{
    for change in changes {
        put_keys(alloc, table, change.old_keys.as_slice())?;
    }
    Ok(())
}

/// The keys that the objects held which changes alter.
pub fn released_keys(alloc: Global, changes: &[Change]) -> Result<KeyIndex, NoMemory>
    ensures { IfOk result (λ table. Agrees table (releases changes.now)) }
{
    let mut table = KeyIndex::new(alloc);
    put_released(alloc, &mut table, changes)?;
    Ok(table)
}
