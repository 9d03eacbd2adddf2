// Values by key, the one found last first.
ghost use Rattle.std.specs.Prelude.{◌≡◌, ◌<◌, ◌↔◌, ◌^◌, [], true, Some, None, IsSome, IfSome, IfNone, OnOk, OnErr, length, option_copied, slice_get};
ghost use Rattle.std.specs.List.{IsDistinct};
ghost use Rattle.std.specs.Map.{lookup, keys_of};
ghost use Rattle.std.specs.Borrow.{sem};
ghost use Rattle.std.specs.Map.Iter.{ShowsInOrder, deref_pair};
ghost use Rattle.std.specs.Option.{option_map, option_copied_mut};
ghost use Rattle.recent_table.specs.Turned.{IsTurned, StandsAt};
ghost use Rattle.recent_table.specs.Lends.{lends_value};

use indexmap::IndexMap;
use indexmap::map::Iter;
use pss_base::NoMemory;
use std::alloc::Global;
use std::cell::Cell;
use std::hash::{BuildHasherDefault, Hash, Hasher};
use std::marker::Model;

type Table<K, V, H> = IndexMap<K, V, BuildHasherDefault<H>>;

/// Values by key, as a list of entries in which no key stands twice. `H` hashes the keys: `NumberHasher` of `table_hash` where no
/// stranger chooses them, else `ByteHasher`.
#[derive(Drop)]
pub struct RecentTable<K: Eq + Hash, V, H: Copy + Default + Hasher> {
    table: Table<K, V, H>,
    // The place of the entry found last, where the next one is looked for first, and then behind it: a command asks for its own
    // several times, and one command for what stands behind that of another. It may be any number.
    last: Cell<usize>,
}

impl<K: Eq + Hash, V, H: Copy + Default + Hasher> Model for RecentTable<K, V, H> {
    ghost use Rattle.std.specs.Prelude.{List};

    ghost Value = { List (K × V) };

    ghost view = { λ t. t.table.entries };
}

// The value at a place, where this key stands there.
#[inline(always)]
fn value_there<K: Copy + Eq + Hash, V, H: Copy + Default + Hasher>(
    table: &Table<K, V, H>,
    place: usize,
    key: K,
) -> Option<&V>
    ensures { IfSome (option_copied result) (λ value. lookup (K.eq key) table.now.entries ≡ Some value) }
{
    match table.get_index(place) {
        Some((there, value)) if key == *there => Some(value),
        _ => None,
    }
}

// The value of a key that is not where the last one was found. Where it stands behind that it is not hashed.
#[inline(never)]
fn look_ahead<'a, K: Copy + Eq + Hash, V, H: Copy + Default + Hasher>(
    table: &'a Table<K, V, H>,
    last: &Cell<usize>,
    key: K,
) -> Option<&'a V>
    ensures { option_copied result ≡ lookup (K.eq key) table.now.entries }
{
    let next = last.get().wrapping_add(1);
    match value_there(table, next, key) {
        Some(value) => {
            last.set(next);
            Some(value)
        }
        None => look_up(table, last, key),
    }
}

// So many entries are compared with a key one by one: that takes less than its hash.
const FEW: usize = 4;

// The value of a key that is not near the last one.
fn look_up<'a, K: Copy + Eq + Hash, V, H: Copy + Default + Hasher>(
    table: &'a Table<K, V, H>,
    last: &Cell<usize>,
    key: K,
) -> Option<&'a V>
    ensures { option_copied result ≡ lookup (K.eq key) table.now.entries }
{
    if table.len() <= FEW {
        look_through(table, last, key)
    } else {
        look_by_hash(table, last, key)
    }
}

// The value of a key, with which each entry is compared. The next one is looked for at its place.
fn look_through<'a, K: Copy + Eq + Hash, V, H: Copy + Default + Hasher>(
    table: &'a Table<K, V, H>,
    last: &Cell<usize>,
    key: K,
) -> Option<&'a V>
    ensures { option_copied result ≡ lookup (K.eq key) table.now.entries }
{
    let mut place: usize = 0;
    for (there, value) in table.iter() {
        if key == *there {
            last.set(place);
            return Some(value);
        }
        place = place.wrapping_add(1);
    }
    None
}

// The value of a key by its hash. The next one is looked for at its place.
fn look_by_hash<'a, K: Copy + Eq + Hash, V, H: Copy + Default + Hasher>(
    table: &'a Table<K, V, H>,
    last: &Cell<usize>,
    key: K,
) -> Option<&'a V>
    ensures { option_copied result ≡ lookup (K.eq key) table.now.entries }
{
    match table.get_full(&key) {
        Some((place, _, value)) => {
            last.set(place);
            Some(value)
        }
        None => None,
    }
}

// Whether a key stands at a place.
#[inline(always)]
fn stands_at<K: Copy + Eq + Hash, V, H: Copy + Default + Hasher>(
    table: &Table<K, V, H>,
    place: usize,
    key: K,
) -> bool
    ensures { result ≡ true → StandsAt K.eq table.now.entries place key }
{
    match table.get_index(place) {
        Some((there, _)) => key == *there,
        None => false,
    }
}

// The place of a key. Where it is the last one or the next, it is not hashed.
#[inline(always)]
fn place_of<K: Copy + Eq + Hash, V, H: Copy + Default + Hasher>(
    table: &Table<K, V, H>,
    last: &Cell<usize>,
    key: K,
) -> Option<usize>
    ensures some { IfSome result (λ place. StandsAt K.eq table.now.entries place key) }
    ensures none { IfNone result (lookup (K.eq key) table.now.entries ≡ None) }
{
    let place = last.get();
    if stands_at(table, place, key) {
        Some(place)
    } else {
        place_ahead(table, last, key)
    }
}

// The place of a key that is not where the last one was found.
#[inline(never)]
fn place_ahead<K: Copy + Eq + Hash, V, H: Copy + Default + Hasher>(
    table: &Table<K, V, H>,
    last: &Cell<usize>,
    key: K,
) -> Option<usize>
    ensures some { IfSome result (λ place. StandsAt K.eq table.now.entries place key) }
    ensures none { IfNone result (lookup (K.eq key) table.now.entries ≡ None) }
{
    let next = last.get().wrapping_add(1);
    if stands_at(table, next, key) {
        last.set(next);
        return Some(next);
    }
    find_place(table, last, key)
}

// The place of a key by its hash. The next one is looked for there.
fn find_place<K: Copy + Eq + Hash, V, H: Copy + Default + Hasher>(
    table: &Table<K, V, H>,
    last: &Cell<usize>,
    key: K,
) -> Option<usize>
    ensures some { IfSome result (λ place. StandsAt K.eq table.now.entries place key) }
    ensures none { IfNone result (lookup (K.eq key) table.now.entries ≡ None) }
{
    match table.get_full(&key) {
        Some((place, _, _)) => {
            last.set(place);
            Some(place)
        }
        None => None,
    }
}

// Takes the entry at a place away, where this key stands.
#[inline(always)]
fn remove_at<K: Copy + Eq + Hash + Drop, V, H: Copy + Default + Hasher>(
    table: &mut Table<K, V, H>,
    place: usize,
    key: K,
) -> Option<V>
    requires { StandsAt K.eq table.old.entries place key }
    ensures turned { IsTurned K.eq table.old.entries table.new.entries key None }
    ensures value { result ≡ lookup (K.eq key) table.old.entries }
{
    match table.swap_remove_index(place) {
        Some((_, value)) => Some(value),
        None => None,
    }
}

impl<K: Copy + Eq + Hash + Drop, V: Drop, H: Copy + Default + Hasher> RecentTable<K, V, H> {
    /// A table with no entry. It takes no memory.
    pub fn new(alloc: Global) -> RecentTable<K, V, H>
        ensures { result ≡ [] }
    {
        RecentTable {
            table: IndexMap::with_hasher(alloc, BuildHasherDefault::new()),
            last: Cell::new(0),
        }
    }

    /// How many entries there are, fewer than 2 to the 63rd. No key stands twice, so this is the number of keys.
    pub fn len(&self) -> usize
        ensures len { result ≡ length self.now }
        ensures small { result < 2 ^ 63 }
        ensures once { IsDistinct K.eq (keys_of self.now) }
    {
        self.table.len()
    }

    /// The entry at a place, where there is one.
    pub fn at(&self, place: usize) -> Option<(&K, &V)>
        ensures entry { option_map deref_pair result ≡ slice_get self.now place }
        ensures found { IsSome result ↔ (place < length self.now) }
        ensures value { IfSome result (λ e. lookup (K.eq e.0.now) self.now ≡ Some e.1.now) }
    {
        self.table.get_index(place)
    }

    /// The entries, in their order.
    pub fn iter(&self) -> Iter<'_, K, V>
        ensures rest { result ≡ self.now }
        ensures len { length result ≡ length self.now }
        ensures runs { ShowsInOrder (deref_pair {K = K} {X = V}) }
        ensures once { IsDistinct K.eq (keys_of self.now) }
    {
        self.table.iter()
    }

    /// The value of a key. Where it is the one found last, or stands behind it, or at most four entries stand there, it is not
    /// hashed.
    #[inline(always)]
    pub fn get(&self, key: K) -> Option<&V>
        ensures { option_copied result ≡ lookup (K.eq key) self.now }
    {
        match value_there(&self.table, self.last.get(), key) {
            Some(value) => Some(value),
            None => look_ahead(&self.table, &self.last, key),
        }
    }

    /// Sets the value of a key. A new one is looked for first at the next call. `NoMemory`: the table is as before.
    pub fn insert(&mut self, key: K, value: V) -> Result<(), NoMemory>
        ensures ok { OnOk result (IsTurned K.eq self.old self.new key (Some value)) }
        ensures err { OnErr result (self.new ≡ self.old) }
    {
        let place = self.table.len();
        self.table.insert(key, value)?;
        self.last.set(place);
        Ok(())
    }

    /// The value of a key, to write. Where it is the one found last, or stands behind it, it is not hashed.
    #[inline(always)]
    pub fn get_mut(&mut self, key: K) -> Option<&mut V>
        ensures* writes_back { sem 𝓛 (lends_value K.row V.row H.row K.Hash H.Clone H.Default H.Hasher self.entry key result) }
        ensures value { option_copied_mut result ≡ lookup (K.eq key) self.old }
    {
        match place_of(&self.table, &self.last, key) {
            Some(place) => self.table.get_index_mut(place),
            None => None,
        }
    }

    /// Sets the value of a key that has one, which is looked for as `get_mut` does.
    pub fn set(&mut self, key: K, value: V)
        requires { IsSome (lookup (K.eq key) self.old) }
        ensures { IsTurned K.eq self.old self.new key (Some value) }
    {
        match self.get_mut(key) {
            Some(there) => *there = value,
            None => unreachable!(),
        }
    }

    /// Takes the entry of a key away, where there is one, which is looked for as `get_mut` does. Behind the last entry
    /// nothing stands: the one before it is looked for first then.
    pub fn remove(&mut self, key: K) -> Option<V>
        ensures turned { IsTurned K.eq self.old self.new key None }
        ensures value { result ≡ lookup (K.eq key) self.old }
    {
        match place_of(&self.table, &self.last, key) {
            Some(place) => {
                if place.wrapping_add(1) == self.table.len() {
                    self.last.set(place.wrapping_sub(1));
                }
                remove_at(&mut self.table, place, key)
            }
            None => None,
        }
    }

    /// Takes all entries away. The memory of so many stays for those that come next, and no more.
    pub fn clear(&mut self, alloc: Global, most_kept: usize)
        ensures { self.new ≡ [] }
    {
        if self.table.capacity() <= most_kept {
            self.table.clear();
        } else {
            *self = RecentTable::new(alloc);
        }
    }
}
