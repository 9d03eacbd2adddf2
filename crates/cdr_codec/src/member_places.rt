// Where the members of a record stand in its octets.
ghost use Rattle.std.specs.Prelude.{◌≡◌, ◌<◌, ℕ, IfOk};
ghost use Rattle.std.proofs.Common.{get_or};
ghost use Rattle.type_layout.specs.Keys.{key_bytes};
ghost use Rattle.type_layout.specs.Schemas.{members_at as members_in};
ghost use Rattle.type_layout.specs.Sound.{IsSoundSchema};
ghost use Rattle.type_layout.specs.Values.{layout_fields};
ghost use Rattle.cdr_codec.specs.Places.{places_of as begin};
ghost use Rattle.cdr_codec.specs.Spelled.{SpellsRecord, SpellsRecordWith};

use crate::key::{indexes_of, parts_of};
use crate::places::places_of;
use pss_base::{Bytes, NoMemory};
use std::alloc::Global;
use type_layout::{HomeNo, KeyNo, Schema, members_at};

/// Where each member of a record of a home begins in the octets that spell it. They are walked over once,
/// whatever number of keys is asked for.
#[derive(Drop)]
pub struct MemberPlaces<'a> {
    /// The schema that has the home.
    pub schema: &'a Schema,
    /// The home whose members the record has.
    pub home: HomeNo,
    /// The octets of the record, the flag of byte order first.
    pub bytes: &'a [u8],
    places: Vec<usize>,
    ghost octets: { (i : ℕ) → get_or bytes.now i 0 < 256 },
    ghost placed: { places.items ≡ begin (layout_fields (members_in schema.now home)) bytes.now 1 },
}

impl<'a> MemberPlaces<'a> {
    /// The places in octets that spell a record of the home, counted from 0. It takes time in the octets, and
    /// memory in the number of members. `NoMemory`: nothing has changed.
    pub fn new(
        alloc: Global,
        schema: &'a Schema,
        home: HomeNo,
        bytes: &'a [u8],
    ) -> Result<MemberPlaces<'a>, NoMemory>
        requires sound { IsSoundSchema schema.now }
        requires spelled { SpellsRecord (members_in schema.now home) bytes.now }
        ensures schema { IfOk result (λ places. places.schema.now ≡ schema.now) }
        ensures home { IfOk result (λ places. places.home ≡ home) }
        ensures bytes { IfOk result (λ places. places.bytes.now ≡ bytes.now) }
    {
        let places = places_of(alloc, members_at(schema, home), bytes, 1)?;
        Ok(MemberPlaces {
            schema,
            home,
            bytes,
            places,
        })
    }

    /// The bytes of a key that the home has: those that `key_of` gives of the record. No value is made. It
    /// takes time and memory in the key's members and in the bytes. `NoMemory`: the places are as before.
    pub fn key_bytes(&self, alloc: Global, key: KeyNo) -> Result<Bytes, NoMemory>
        requires sound { IsSoundSchema self.now.schema.now }
        requires spelled { SpellsRecordWith self.now.schema.now key self.now.home self.now.bytes.now }
        ensures { IfOk result (λ made. (s : SpellsRecordWith self.now.schema.now key self.now.home self.now.bytes.now) → made ≡ key_bytes self.now.schema.now key s.whole.values) }
    {
        let members = members_at(self.schema, self.home);
        parts_of(
            alloc,
            members,
            self.bytes,
            &self.places,
            indexes_of(self.schema, key),
        )
    }
}
