// The factories that homes declare.
ghost use Rattle.std.specs.Prelude.{◌≡◌, map, find, IfOk};
ghost use Rattle.std.specs.Option.{option_map};
ghost use Rattle.std.specs.Str.{bytes_eq};
ghost use Rattle.type_layout.specs.NamePlaces.{Finds, MayFind};

use crate::Names;
use crate::name_places::{FEW, Places, enter, place_of};
use pss_base::{Bytes, NoMemory};
use std::alloc::Global;
use std::collections::BTreeMap;
use std::marker::Model;

/// A factory as a home declares it: its name, and those of the members that its caller gives, in its order.
#[derive(Drop)]
pub struct DeclaredFactory {
    pub name: Bytes,
    pub members: Names,
}

/// The factories that one home declares. They are found by their names.
#[derive(Drop)]
pub struct DeclaredFactories {
    factories: Vec<DeclaredFactory>,
    // None where the factories are few.
    places: Option<Places>,
}

impl Model for DeclaredFactories {
    ghost use Rattle.std.specs.Prelude.{List, map};
    ghost use Rattle.type_layout.specs.declared.factories.DeclaredFactory.{DeclaredFactory};
    ghost use Rattle.type_layout.specs.NamePlaces.{MayFind};

    ghost Value = { List DeclaredFactory };

    ghost view = { λ d. d.factories.items };

    ghost invariant = { λ d. MayFind d.places (map (λ f. f.name) d.factories.items) };
}

impl DeclaredFactories {
    /// The factories, with a table of their names where they are many.
    /// `NoMemory`: there was no room for the table, and the factories are gone.
    pub fn new(
        alloc: Global,
        factories: Vec<DeclaredFactory>,
    ) -> Result<DeclaredFactories, NoMemory>
        ensures { IfOk result (λ d. d ≡ factories.items) }
    {
        let places = table_of(alloc, &factories)?;
        Ok(DeclaredFactories { factories, places })
    }

    /// All, in their order.
    pub(crate) fn as_slice(&self) -> &[DeclaredFactory]
        ensures { result.now ≡ self.now }
    {
        self.factories.as_slice()
    }

    /// The first of a name.
    pub(crate) fn named(&self, word: &[u8]) -> Option<&DeclaredFactory>
        ensures { option_map (λ f. f.now) result ≡ find (λ f. bytes_eq word.now f.name) self.now }
    {
        match &self.places {
            Some(places) => looked_up(&self.factories, places, word),
            None => walked_to(&self.factories, word),
        }
    }
}

// The first of a name, by the table of the names.
fn looked_up<'a>(
    factories: &'a [DeclaredFactory],
    places: &Places,
    word: &[u8],
) -> Option<&'a DeclaredFactory>
    requires { Finds places.now (map (λ f. f.name) factories.now) }
    ensures { option_map (λ f. f.now) result ≡ find (λ f. bytes_eq word.now f.name) factories.now }
{
    match place_of(places, word) {
        Some(place) => factories.get(place as usize),
        None => None,
    }
}

// The first of a name, by a walk.
fn walked_to<'a>(factories: &'a [DeclaredFactory], word: &[u8]) -> Option<&'a DeclaredFactory>
    ensures { option_map (λ f. f.now) result ≡ find (λ f. bytes_eq word.now f.name) factories.now }
{
    factories
        .iter()
        .find(|factory| word == factory.name.as_slice())
}

// A table of the factories' places, but for few factories.
fn table_of(alloc: Global, factories: &[DeclaredFactory]) -> Result<Option<Places>, NoMemory>
    ensures { IfOk result (λ places. MayFind places (map (λ f. f.name) factories.now)) }
{
    if factories.len() <= FEW {
        return Ok(None);
    }
    Ok(Some(named_places(alloc, factories)?))
}

// The places of factories by their names.
fn named_places(alloc: Global, factories: &[DeclaredFactory]) -> Result<Places, NoMemory>
    ensures { IfOk result (λ places. Finds places (map (λ f. f.name) factories.now)) }
{
    let mut places = BTreeMap::new(alloc);
    for i in 0..factories.len() {
        enter(alloc, &mut places, factories[i].name.as_slice(), i)?;
    }
    Ok(places)
}
