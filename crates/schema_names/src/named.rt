// A schema whose names are found by hash.
ghost use Rattle.std.specs.Prelude.{◌≡◌, ◌≤◌, ◌+◌, IfOk, MatchOption, None, length, position};
ghost use Rattle.std.specs.Option.{option_map};
ghost use Rattle.type_layout.specs.Schemas.{home_at as home_in};
ghost use Rattle.type_layout.specs.Sound.{IsSoundSchema};
ghost use Rattle.pss_machine.specs.Names.{is_name_of, home_named, key_named, factory_named, member_named};
ghost use Rattle.schema_names.specs.inner.Homes.{AreNamesOf, AreNamesOfAll, AreNamesAt, MayFind, lesser};
ghost use Rattle.schema_names.specs.Found.{home_provided};
ghost use Rattle.schema_names.specs.inner.Hashed.{is_called};

use crate::members::{keys_by_name, members_by_name};
use crate::provided::{ProvidedPlaces, first_called, place_of, places_of};
use crate::roots::homes_by_name;
use crate::table::{NameTable, read};
use pss_base::NoMemory;
use std::alloc::Global;
use std::marker::Model;
use type_layout::{Home, HomeNo, Indexes, Key, KeyNo, ProvidedList, Schema, home_at};

// So many provisions are compared with a word one by one.
const FEW: usize = 4;

// The names of what one home has.
#[derive(Drop)]
struct HomeNames {
    members: NameTable<u32>,
    keys: NameTable<KeyNo>,
}

/// A schema. What the words of a command name in it is found by hash.
#[derive(Drop)]
pub struct NamedSchema {
    schema: Schema,
    homes: NameTable<HomeNo>,
    // None where the provisions are few.
    provided: Option<ProvidedPlaces>,
    // For each home, from number 1.
    of_homes: Vec<HomeNames>,
}

impl Model for NamedSchema {
    ghost use Rattle.type_layout.specs.declared.schema.Schema.{Schema};
    ghost use Rattle.schema_names.specs.inner.Homes.{HasTables};

    ghost Value = { Schema };

    ghost use Rattle.schema_names.specs.inner.Codes.{schema_code};

    ghost coded = { schema_code };

    ghost view = { λ n. n.schema };

    ghost invariant = { λ n. HasTables n.schema n.homes.entries n.provided n.of_homes.items };
}

// The names of what a home has.
fn names_of(alloc: Global, keys: &[Key], home: &Home) -> Result<HomeNames, NoMemory>
    requires { length home.now.layout.members ≤ 255 }
    ensures { IfOk result (AreNamesOf keys.now home.now) }
{
    let members = members_by_name(alloc, home.layout.members.as_slice())?;
    let keys = keys_by_name(alloc, keys, home.keys.as_slice())?;
    Ok(HomeNames { members, keys })
}

// The names of what each home has.
fn names_of_all(alloc: Global, schema: &Schema) -> Result<Vec<HomeNames>, NoMemory>
    requires { IsSoundSchema schema.now }
    ensures { IfOk result (λ names. AreNamesOfAll schema.now.keys schema.now.homes names.items) }
{
    let homes = schema.homes.as_slice();
    let mut all = Vec::new(alloc);
    for i in 0..homes.len() {
        let names = names_of(alloc, schema.keys.as_slice(), &homes[i])?;
        all.push(names)?;
    }
    Ok(all)
}

// A table of the provisions, but for few.
fn places_of_many(alloc: Global, list: &ProvidedList) -> Result<Option<ProvidedPlaces>, NoMemory>
    ensures { IfOk result (λ places. MayFind list.now places) }
{
    if list.parts().provisions.len() <= FEW {
        return Ok(None);
    }
    Ok(Some(places_of(alloc, list)?))
}

impl NamedSchema {
    /// The schema, with tables of its names. They take memory in the lengths of the names, those of members and keys that a
    /// home has from others once for each home. Factories are found by the tables that they bring.
    ///
    /// `NoMemory`: the schema is gone with them.
    pub fn new(alloc: Global, schema: Schema) -> Result<NamedSchema, NoMemory>
        requires { IsSoundSchema schema }
        ensures { IfOk result (λ named. named ≡ schema) }
    {
        let homes = homes_by_name(alloc, schema.homes.as_slice())?;
        let provided = places_of_many(alloc, &schema.provided)?;
        let of_homes = names_of_all(alloc, &schema)?;
        Ok(NamedSchema {
            schema,
            homes,
            provided,
            of_homes,
        })
    }

    /// The schema.
    pub fn schema(&self) -> &Schema
        ensures { result.now ≡ self.now }
    {
        &self.schema
    }

    /// The storage home that a word names: by its scoped name, with or without `::` in front, or by a catalog's scoped name,
    /// a point, and the name under which the catalog provides it. None: it names no home.
    #[inline(always)]
    pub fn home(&self, word: &[u8]) -> Option<HomeNo>
        ensures { result ≡ home_named self.now word.now }
    {
        match self.home_called(word) {
            Some(home) => Some(home),
            None => self.home_provided(word),
        }
    }

    // The place of the first provision that the word names.
    fn provision(&self, word: &[u8]) -> Option<usize>
        ensures { result ≡ position (is_called word.now) self.now.provided }
    {
        let list = &self.schema.provided;
        match &self.provided {
            Some(places) => place_of(places, list, word),
            None => first_called(list, word),
        }
    }

    // The home that a catalog provides under a word.
    fn home_provided(&self, word: &[u8]) -> Option<HomeNo>
        ensures { result ≡ home_provided self.now.provided word.now }
    {
        match self.provision(word) {
            Some(place) => self.schema.provided.home(place),
            None => None,
        }
    }

    // The first home whose scoped name the word is, with or without `::` in front.
    #[inline(always)]
    fn home_called(&self, word: &[u8]) -> Option<HomeNo>
        ensures { result ≡ option_map (λ n. record { 0 = n + 1 }) (position (is_name_of word.now) self.now.homes) }
    {
        let plain = read(&self.homes, word);
        match word.strip_prefix(b"::") {
            Some(rest) => first_of(plain, read(&self.homes, rest)),
            None => plain,
        }
    }

    // The names of what a home has, where the home is there.
    #[inline(always)]
    fn names_at(&self, home: HomeNo) -> Option<&HomeNames>
        ensures { MatchOption result (home_in self.now home ≡ None) (λ names. AreNamesAt self.now home names.now) }
    {
        if home.0 == 0 {
            return None;
        }
        self.of_homes.get(home.0 as usize - 1)
    }

    /// The place, from 0, of a home's member of a name. None: the home is not there, or has no such member.
    #[inline(always)]
    pub fn member(&self, home: HomeNo, word: &[u8]) -> Option<u32>
        ensures { result ≡ member_named self.now home word.now }
    {
        let names = self.names_at(home)?;
        read(&names.members, word)
    }

    /// The numbers of the members that the caller of a home's factory gives. None: the home is not there, or has no factory of
    /// this name. `NoMemory`: there was no room for the numbers.
    pub fn factory_members(
        &self,
        alloc: Global,
        home: HomeNo,
        word: &[u8],
    ) -> Result<Option<Indexes>, NoMemory>
        ensures { IfOk result (λ found. found ≡ option_map (λ factory. factory.members) (factory_named self.now home word.now)) }
    {
        match home_at(&self.schema, home) {
            Some(home) => home.factories.members_of(alloc, word),
            None => Ok(None),
        }
    }

    /// A home's key of a name, its own or one that it has from others. None: the home is not there, or has no such key.
    pub fn key(&self, home: HomeNo, word: &[u8]) -> Option<KeyNo>
        ensures { result ≡ key_named self.now home word.now }
    {
        let names = self.names_at(home)?;
        read(&names.keys, word)
    }
}

// The lesser of two homes.
fn first_of(a: Option<HomeNo>, b: Option<HomeNo>) -> Option<HomeNo>
    ensures { result ≡ lesser a b }
{
    match (a, b) {
        (Some(a), Some(b)) => Some(HomeNo(a.0.min(b.0))),
        (Some(a), None) => Some(a),
        (None, b) => b,
    }
}
