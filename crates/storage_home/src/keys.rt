// The keys of a home, and of the objects in it.
ghost use Rattle.std.specs.Prelude.{◌≡◌, IfOk, map};
ghost use Rattle.type_layout.specs.Keys.{key_bytes};
ghost use Rattle.type_layout.specs.Schemas.{keys_at as keys_in};
ghost use Rattle.type_layout.specs.Sound.{IsSoundSchema};
ghost use Rattle.storage_home.specs.Applied.{SpellsObject};
ghost use Rattle.storage_home.specs.Kept.{IsSound};

use crate::change::KeyValues;
use cdr_codec::MemberPlaces;
use pss_base::NoMemory;
use std::alloc::Global;
use type_layout::{HomeNo, KeyNo, Record, Schema, key_of, keys_at};

/// The keys of a home, in its order, with the bytes that an object's record, in these octets, gives each. The octets
/// are walked over once for all keys. Most homes have none, and then the octets are not looked at.
/// `NoMemory`: there was no room for the list or for some key's bytes.
pub fn keys_of_octets(
    alloc: Global,
    schema: &Schema,
    home: HomeNo,
    octets: &[u8],
) -> Result<KeyValues, NoMemory>
    requires sound { IsSoundSchema schema.now }
    requires spells { SpellsObject schema.now home octets.now }
    ensures { IfOk result (λ pairs. (s : SpellsObject schema.now home octets.now) → pairs ≡ map (λ k. (k, key_bytes schema.now k s.values)) (keys_in schema.now home)) }
{
    let keys = keys_at(schema, home);
    if keys.is_empty() {
        return Ok(KeyValues::new(alloc));
    }
    let places = MemberPlaces::new(alloc, schema, home, octets)?;
    keys_by_places(alloc, &places, keys)
}

fn keys_by_places(
    alloc: Global,
    places: &MemberPlaces<'_>,
    keys: &[KeyNo],
) -> Result<KeyValues, NoMemory>
    requires sound { IsSoundSchema places.now.schema.now }
    requires spells { SpellsObject places.now.schema.now places.now.home places.now.bytes.now }
    requires there { keys.now ≡ keys_in places.now.schema.now places.now.home }
    ensures { IfOk result (λ pairs. (s : SpellsObject places.now.schema.now places.now.home places.now.bytes.now) → pairs ≡ map (λ k. (k, key_bytes places.now.schema.now k s.values)) keys.now) }
{
    let mut values = KeyValues::new(alloc);
    for key in keys {
        values.push((*key, places.key_bytes(alloc, *key)?))?;
    }
    Ok(values)
}

/// The keys of a home, in its order, with the bytes that these values of an object give each.
/// `NoMemory`: there was no room for the list or for some key's bytes.
#[inline(always)]
pub fn keys_of_record(
    alloc: Global,
    schema: &Schema,
    home: HomeNo,
    values: &Record,
) -> Result<KeyValues, NoMemory>
    requires sound { IsSoundSchema schema.now }
    requires object { IsSound schema.now (record { home = home; values = values.now }) }
    ensures { IfOk result (λ pairs. pairs ≡ map (λ k. (k, key_bytes schema.now k values.now)) (keys_in schema.now home)) }
{
    let mut pairs = KeyValues::new(alloc);
    for key in keys_at(schema, home) {
        pairs.push((*key, key_of(alloc, schema, *key, values)?))?;
    }
    Ok(pairs)
}
