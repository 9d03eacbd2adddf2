// Names that are found by themselves.
ghost use Rattle.std.specs.Prelude.{◌≡◌, ◌≤◌, ◌<◌, length, IfOk, IfSome};
ghost use Rattle.type_layout.specs.NamePlaces.{few, place_among, MayFind};

use crate::Names;
use crate::name_places::{FEW, Places, place_of, places_of};
use pss_base::{Bytes, NoMemory};
use std::alloc::Global;
use std::marker::Model;

/// Names in order. The first place of each is found by it.
#[derive(Drop)]
pub struct PlacedNames {
    names: Names,
    // None where the names are few.
    places: Option<Places>,
}

impl Model for PlacedNames {
    ghost use Rattle.std.specs.Prelude.{List, ℕ};
    ghost use Rattle.type_layout.specs.NamePlaces.{MayFind};

    ghost Value = { List (List ℕ) };

    ghost view = { λ p. p.names };

    ghost invariant = { λ p. MayFind p.places p.names };
}

impl PlacedNames {
    /// The names, with a table of their places where they are many.
    /// `NoMemory`: there was no room for the table, and the names are gone.
    pub fn new(alloc: Global, names: Names) -> Result<PlacedNames, NoMemory>
        ensures { IfOk result (λ p. p ≡ names) }
    {
        let places = table_of(alloc, names.as_slice())?;
        Ok(PlacedNames { names, places })
    }

    /// The names, in their order.
    pub fn as_slice(&self) -> &[Bytes]
        ensures { result.now ≡ self.now }
    {
        self.names.as_slice()
    }

    /// The first place of a name.
    pub fn place(&self, word: &[u8]) -> Option<u32>
        ensures { result ≡ place_among self.now word.now }
    {
        match &self.places {
            Some(places) => place_of(places, word),
            None => place_among_few(self.names.as_slice(), word),
        }
    }
}

// A table of the names' places, but for few names.
fn table_of(alloc: Global, names: &[Bytes]) -> Result<Option<Places>, NoMemory>
    ensures { IfOk result (λ places. MayFind places names.now) }
{
    if names.len() <= FEW {
        return Ok(None);
    }
    Ok(Some(places_of(alloc, names)?))
}

// The first place of a name, by a walk.
fn walked_to(names: &[Bytes], word: &[u8]) -> Option<usize>
    ensures first { result ≡ place_among names.now word.now }
    ensures within { IfSome result (λ place. place < length names.now) }
{
    names.iter().position(|name| word == name.as_slice())
}

fn place_among_few(names: &[Bytes], word: &[u8]) -> Option<u32>
    requires { length names.now ≤ few }
    ensures { result ≡ place_among names.now word.now }
{
    match walked_to(names, word) {
        Some(place) => Some(place as u32),
        None => None,
    }
}
