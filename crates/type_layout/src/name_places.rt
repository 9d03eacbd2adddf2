// The first place of each name of a list.
ghost use Rattle.std.specs.Prelude.{◌≡◌, IfOk, OnOk};
ghost use Rattle.type_layout.specs.NamePlaces.{place_in, Finds, IsEntered};

use pss_base::{Bytes, NoMemory};
use std::alloc::Global;
use std::collections::BTreeMap;

/// So many names are found by a walk. It is as quick as a table, which would take memory.
pub(crate) const FEW: usize = 8;

/// Names by their first places.
pub(crate) type Places = BTreeMap<Vec<u8>, u32>;

/// The place of a name.
pub(crate) fn place_of(places: &Places, name: &[u8]) -> Option<u32>
    ensures { result ≡ place_in places.now name.now }
{
    match places.get(name) {
        Some(place) => Some(*place),
        None => None,
    }
}

/// A name has this place, unless it has one. More places than a `u32` counts take more memory than there is.
pub(crate) fn enter(
    alloc: Global,
    places: &mut Places,
    name: &[u8],
    place: usize,
) -> Result<(), NoMemory>
    ensures { OnOk result (IsEntered places.old places.new name.now place) }
{
    match places.get(name) {
        Some(_) => Ok(()),
        None => {
            let Ok(place) = u32::try_from(place) else {
                return Err(NoMemory);
            };
            let owned = name.to_vec(alloc)?;
            places.insert(owned, place)?;
            Ok(())
        }
    }
}

/// The places of names.
pub(crate) fn places_of(alloc: Global, names: &[Bytes]) -> Result<Places, NoMemory>
    ensures { IfOk result (λ places. Finds places names.now) }
{
    let mut places = BTreeMap::new(alloc);
    for i in 0..names.len() {
        enter(alloc, &mut places, names[i].as_slice(), i)?;
    }
    Ok(places)
}
