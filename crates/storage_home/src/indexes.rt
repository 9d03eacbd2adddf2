// Who holds which key, by an index for each key that is used: what is committed has one such table, and what an owner changed there another.
ghost use Rattle.std.specs.Prelude.{◌≡◌, Some, None, true, false, IfOk, OnOk};
ghost use Rattle.std.specs.FinMap as map;
ghost use Rattle.std.specs.FinSet as set;
ghost use Rattle.storage_home.specs.Indexes.{index_at, found_at, is_key_reserved, MayPut, KeepsFound, TurnsFoundAt, TurnsKeyReservedAt, KeepsKeysReserved, TurnsFound, TurnsKeysReserved, StayReserved};

use key_index::KeyIndex;
use pss_base::{Bytes, NoMemory};
use recent_table::RecentTable;
use std::alloc::Global;
use table_hash::NumberHasher;
use type_layout::KeyNo;

/// Indexes by the numbers of their keys. A schema may have thousands of keys, of which few are used: an index comes to be when
/// its key is first reserved.
pub type KeyIndexes = RecentTable<u32, KeyIndex, NumberHasher>;

/// The serial of the object that holds a key with these bytes, none where nothing does.
pub fn find(indexes: &KeyIndexes, key: KeyNo, bytes: &[u8]) -> Option<u64>
    ensures { result ≡ found_at indexes.now key.0 bytes.now }
{
    match indexes.get(key.0) {
        Some(index) => index.find(bytes),
        None => None,
    }
}

/// Reserves keys. They may be held, and stay so.
///
/// `NoMemory`: some of them may be reserved, and what was reserved stays so.
#[inline(always)]
pub fn reserve_all(
    alloc: Global,
    indexes: &mut KeyIndexes,
    pairs: &[(KeyNo, Bytes)],
) -> Result<(), NoMemory>
    ensures found { KeepsFound indexes.old indexes.new }
    ensures ok { OnOk result (TurnsKeysReserved indexes.old indexes.new pairs.now true) }
    ensures stay { StayReserved indexes.old indexes.new }
{
    for (key, bytes) in pairs {
        reserve(alloc, indexes, *key, bytes.as_slice())?;
    }
    Ok(())
}

fn reserve(
    alloc: Global,
    indexes: &mut KeyIndexes,
    key: KeyNo,
    bytes: &[u8],
) -> Result<(), NoMemory>
    ensures found { KeepsFound indexes.old indexes.new }
    ensures ok { OnOk result (TurnsKeyReservedAt indexes.old indexes.new key.0 bytes.now true) }
    ensures stay { StayReserved indexes.old indexes.new }
{
    match indexes.get_mut(key.0) {
        Some(index) => index.reserve(bytes),
        None => add(alloc, indexes, key, bytes),
    }
}

// Reserves a key that has no index yet.
fn add(alloc: Global, indexes: &mut KeyIndexes, key: KeyNo, bytes: &[u8]) -> Result<(), NoMemory>
    requires { index_at key.0 indexes.old ≡ None }
    ensures found { KeepsFound indexes.old indexes.new }
    ensures ok { OnOk result (TurnsKeyReservedAt indexes.old indexes.new key.0 bytes.now true) }
    ensures stay { StayReserved indexes.old indexes.new }
{
    let index = reserved(alloc, bytes)?;
    indexes.insert(key.0, index)?;
    Ok(())
}

// An index in which one key is reserved, and none held.
fn reserved(alloc: Global, bytes: &[u8]) -> Result<KeyIndex, NoMemory>
    ensures held { IfOk result (λ index. index.held ≡ map.empty) }
    ensures reserved { IfOk result (λ index. index.reserved ≡ set.insert set.empty bytes.now) }
{
    let mut index = KeyIndex::new(alloc);
    index.reserve(bytes)?;
    Ok(index)
}

/// Takes keys from their holders, where they have some. What is reserved stays so. It takes no memory.
#[inline(always)]
pub fn take_all(indexes: &mut KeyIndexes, pairs: &[(KeyNo, Bytes)])
    ensures found { TurnsFound indexes.old indexes.new pairs.now None }
    ensures reserved { KeepsKeysReserved indexes.old indexes.new }
{
    for (key, bytes) in pairs {
        take(indexes, *key, bytes.as_slice());
    }
}

fn take(indexes: &mut KeyIndexes, key: KeyNo, bytes: &[u8])
    ensures found { TurnsFoundAt indexes.old indexes.new key.0 bytes.now None }
    ensures reserved { KeepsKeysReserved indexes.old indexes.new }
{
    if let Some(index) = indexes.get_mut(key.0) {
        let _ = index.take(bytes);
    }
}

/// Gives reserved keys that nothing holds to the object with a serial, and ends their reservations. It takes no memory.
#[inline(always)]
pub fn put_all(indexes: &mut KeyIndexes, pairs: &[(KeyNo, Bytes)], serial: u64)
    requires { MayPut indexes.old pairs.now }
    ensures found { TurnsFound indexes.old indexes.new pairs.now (Some serial) }
    ensures reserved { TurnsKeysReserved indexes.old indexes.new pairs.now false }
{
    for (key, bytes) in pairs {
        put(indexes, *key, bytes.as_slice(), serial);
    }
}

fn put(indexes: &mut KeyIndexes, key: KeyNo, bytes: &[u8], serial: u64)
    requires reserved { is_key_reserved indexes.old key.0 bytes.now ≡ true }
    requires free { found_at indexes.old key.0 bytes.now ≡ None }
    ensures found { TurnsFoundAt indexes.old indexes.new key.0 bytes.now (Some serial) }
    ensures reserved { TurnsKeyReservedAt indexes.old indexes.new key.0 bytes.now false }
{
    if let Some(index) = indexes.get_mut(key.0) {
        index.put_reserved(bytes, serial);
    }
}
