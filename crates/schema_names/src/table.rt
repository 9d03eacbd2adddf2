// What stands behind names.
ghost use Rattle.std.specs.Prelude.{◌≡◌, [], OnOk, MatchOption, take};
ghost use Rattle.schema_names.specs.Tables.{value_at, IsEntered, IsFurther};

use indexmap::IndexMap;
use pss_base::NoMemory;
use std::alloc::Global;
use std::hash::BuildHasherDefault;
use table_hash::ByteHasher;

/// What stands behind each name: of two things with one name the first.
pub type NameTable<T> = IndexMap<Vec<u8>, T, BuildHasherDefault<ByteHasher>>;

pub fn empty<T: Copy + Drop>(alloc: Global) -> NameTable<T>
    ensures { result.entries ≡ [] }
{
    IndexMap::with_hasher(alloc, BuildHasherDefault::new())
}

/// So many of the first names are compared before a name is hashed: most homes have few members.
const FEW: usize = 4;

// What stands at a place of the table, where the name stands there.
#[inline(always)]
fn value_there<T: Copy + Drop>(table: &NameTable<T>, place: usize, name: &[u8]) -> Option<T>
    ensures { MatchOption result (IsFurther table.now.entries name.now place) (λ value. value_at table.now.entries name.now ≡ Some value) }
{
    match table.get_index(place) {
        Some((there, value)) if there.as_slice() == name => Some(*value),
        _ => None,
    }
}

// What stands behind a name that is one of the first. None: it is none of them.
#[inline(always)]
fn read_first<T: Copy + Drop>(table: &NameTable<T>, name: &[u8]) -> Option<T>
    ensures { MatchOption result (value_at (take 4 table.now.entries) name.now ≡ None) (λ value. value_at table.now.entries name.now ≡ Some value) }
{
    for place in 0..FEW {
        if let Some(value) = value_there(table, place, name) {
            return Some(value);
        }
    }
    None
}

// What stands behind a name, where it may be none of the first.
fn read_all<T: Copy + Drop>(table: &NameTable<T>, name: &[u8]) -> Option<T>
    requires { value_at (take 4 table.now.entries) name.now ≡ None }
    ensures { result ≡ value_at table.now.entries name.now }
{
    if table.len() <= FEW {
        return None;
    }
    table.get(name).copied()
}

/// What stands behind a name, if something does.
#[inline(always)]
pub fn read<T: Copy + Drop>(table: &NameTable<T>, name: &[u8]) -> Option<T>
    ensures { result ≡ value_at table.now.entries name.now }
{
    match read_first(table, name) {
        Some(value) => Some(value),
        None => read_all(table, name),
    }
}

/// Puts a thing behind a name, unless one is there.
pub fn enter<T: Copy + Drop>(
    alloc: Global,
    table: &mut NameTable<T>,
    name: &[u8],
    value: T,
) -> Result<(), NoMemory>
    ensures { OnOk result (IsEntered table.old.entries table.new.entries name.now value) }
{
    if table.contains_key(name) {
        return Ok(());
    }
    let owned = name.to_vec(alloc)?;
    table.insert(owned, value)?;
    Ok(())
}
