// What a schema has under a number.
ghost use Rattle.std.specs.Prelude.{◌≡◌, map};
ghost use Rattle.std.specs.Option.{option_map};
ghost use Rattle.type_layout.specs.Members.{plain_member};
ghost use Rattle.type_layout.specs.Schemas.{home_at as home_in, key_at as key_in, base_of as base_in, members_at as members_in, keys_at as keys_in};

use crate::{Home, HomeNo, Key, KeyNo, Member, Schema};

/// A storage home, where there is one with this number.
pub fn home_at(schema: &Schema, home: HomeNo) -> Option<&Home>
    ensures { option_map (λ found. found.now) result ≡ home_in schema.now home }
{
    if home.0 == 0 {
        return None;
    }
    schema.homes.as_slice().get(home.0 as usize - 1)
}

/// The home that a home derives from by one base, where there are both.
pub(crate) fn base_at(schema: &Schema, home: HomeNo) -> Option<HomeNo>
    ensures { result ≡ base_in schema.now home }
{
    match home_at(schema, home) {
        Some(found) => found.base,
        None => None,
    }
}

/// The members of a home, none where it is not there.
pub fn members_at(schema: &Schema, home: HomeNo) -> &[Member]
    ensures { map plain_member result.now ≡ members_in schema.now home }
{
    match home_at(schema, home) {
        Some(found) => found.layout.members.as_slice(),
        None => &[],
    }
}

/// The keys of a home, in its order, none where it is not there.
pub fn keys_at(schema: &Schema, home: HomeNo) -> &[KeyNo]
    ensures { result.now ≡ keys_in schema.now home }
{
    match home_at(schema, home) {
        Some(found) => found.keys.as_slice(),
        None => &[],
    }
}

/// A key, where there is one with this number.
pub fn key_at(schema: &Schema, key: KeyNo) -> Option<&Key>
    ensures { option_map (λ found. found.now) result ≡ key_in schema.now key }
{
    schema.keys.as_slice().get(key.0 as usize)
}
