// Which page holds an object.
ghost use Rattle.std.specs.Prelude.{ℕ, ◌≡◌, ◌≢◌, ◌++◌, ◌∷◌, [], ◌<◌, ◌↔◌, IsTrue, length, slice_index, IfOk};
ghost use Rattle.std.specs.Map.{keys_of};

use indexmap::IndexMap;
use pss_base::NoMemory;
use std::alloc::Global;
use std::hash::BuildHasherDefault;
use table_hash::ByteHasher;

/// The slots of pages under the serials of the objects that they hold. A stranger's file chose the serials.
pub type Places = IndexMap<u64, u32, BuildHasherDefault<ByteHasher>>;

/// No objects. It takes no memory.
pub fn no_places(alloc: Global) -> Places
    ensures { result.entries ≡ [] }
{
    IndexMap::with_hasher(alloc, BuildHasherDefault::new())
}

/// Puts an object into the page of a slot, and tells whether it is new: it is behind the others then.
pub fn add_place(places: &mut Places, serial: u64, slot: u32) -> Result<bool, NoMemory>
    ensures new { IfOk result (λ is_new. IsTrue is_new ↔ ((k : ℕ) → k < length (keys_of places.old.entries) → slice_index (keys_of places.old.entries) k ≢ serial)) }
    ensures added { IfOk result (λ is_new. IsTrue is_new → places.new.entries ≡ places.old.entries ++ (serial, slot) ∷ []) }
{
    let before = places.insert(serial, slot)?;
    Ok(before.is_none())
}
