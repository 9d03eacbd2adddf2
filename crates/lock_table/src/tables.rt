// Tables by hash.
ghost use Rattle.std.specs.Prelude.{◌≡◌, ◌<◌, [], Some, None, IfSome, OnOk};
ghost use Rattle.indexmap.specs.IndexMap.{spare};
ghost use Rattle.lock_table.specs.inner.Tables.{entry_at, Turns};

use indexmap::IndexMap;
use pss_base::NoMemory;
use std::alloc::Global;
use std::hash::{BuildHasher, BuildHasherDefault, Hash, Hasher};
use table_hash::{ByteHasher, NumberHasher};

/// Values by key. A stranger may choose the keys.
pub type Table<K, V> = IndexMap<K, V, BuildHasherDefault<ByteHasher>>;

/// Values by number. The service gives the numbers in turn and no stranger chooses them, so that one multiplication parts them.
pub type NumberTable<N, V> = IndexMap<N, V, BuildHasherDefault<NumberHasher>>;

/// A table with no entry. It takes no memory.
pub fn empty<K: Eq + Hash, V, H: Copy + Default + Hasher>(
    alloc: Global,
) -> IndexMap<K, V, BuildHasherDefault<H>>
    ensures { result.entries ≡ [] }
{
    IndexMap::with_hasher(alloc, BuildHasherDefault::new())
}

/// The value of a key, where it has one. The first key is not hashed: it may be alone.
pub fn find<K: Eq + Hash, V: Copy, S: BuildHasher>(table: &IndexMap<K, V, S>, key: &K) -> Option<V>
    ensures { result ≡ entry_at K.eq table.now.entries key.now }
{
    match first_if(table, key) {
        Some(value) => Some(value),
        None => table.get(key).copied(),
    }
}

// The first value, where it has this key.
fn first_if<K: Eq + Hash, V: Copy, S: BuildHasher>(table: &IndexMap<K, V, S>, key: &K) -> Option<V>
    ensures { IfSome result (λ value. entry_at K.eq table.now.entries key.now ≡ Some value) }
{
    match table.get_index(0) {
        Some((there, value)) if *key == *there => Some(*value),
        _ => None,
    }
}

/// Makes room for one more entry. Without memory the entries are as before.
pub fn reserve<K: Eq + Hash, V, S: BuildHasher>(
    table: &mut IndexMap<K, V, S>,
) -> Result<(), NoMemory>
    ensures entries { table.new.entries ≡ table.old.entries }
    ensures ok { OnOk result (0 < spare table.new) }
{
    table.reserve(1)?;
    Ok(())
}

/// Sets the value of a key, for which there is room. It takes no memory.
pub fn put<K: Eq + Hash + Drop, V: Drop, S: BuildHasher>(
    table: &mut IndexMap<K, V, S>,
    key: K,
    value: V,
)
    requires { 0 < spare table.old }
    ensures { Turns K.eq table.old.entries table.new.entries key (Some value) }
{
    match table.insert(key, value) {
        Ok(_) => {}
        Err(_) => unreachable!(),
    }
}

/// Takes the entry of a key away.
pub fn remove<K: Eq + Hash + Drop, V: Drop, S: BuildHasher>(table: &mut IndexMap<K, V, S>, key: &K)
    ensures { Turns K.eq table.old.entries table.new.entries key.now None }
{
    let _ = table.swap_remove(key);
}
