// The factories of a storage home.
//
// What homes declare tells members by their names; the numbers that these have in a home's layout are found when they are asked for.
ghost use Rattle.std.specs.Prelude.{◌≡◌, find, IfOk};
ghost use Rattle.std.specs.Option.{option_map};
ghost use Rattle.std.specs.Str.{bytes_eq};
ghost use Rattle.type_layout.specs.Factories.{factories_held, numbers_among};

use crate::{HeldFactories, Indexes, PlacedNames};
use pss_base::{Bytes, NoMemory};
use std::alloc::Global;
use std::marker::Model;

// The numbers of the members with these names. A name that no member has is left out.
fn numbers_of(alloc: Global, members: &PlacedNames, names: &[Bytes]) -> Result<Indexes, NoMemory>
    ensures { IfOk result (λ numbers. numbers ≡ numbers_among members.now names.now) }
{
    let mut numbers = Indexes::new(alloc);
    for name in names {
        if let Some(place) = members.place(name.as_slice()) {
            numbers.push(place)?;
        }
    }
    Ok(numbers)
}

/// The factories of a storage home.
#[derive(Drop)]
pub struct Factories {
    members: PlacedNames,
    held: HeldFactories,
}

impl Model for Factories {
    ghost use Rattle.std.specs.Prelude.{List};
    ghost use Rattle.type_layout.specs.declared.schema.Factory.{Factory};
    ghost use Rattle.type_layout.specs.Factories.{factories_held};

    ghost Value = { List Factory };

    ghost view = { λ f. factories_held f.members f.held };
}

impl Factories {
    /// The factories of a home with these members, by what it and others declare.
    pub fn new(members: PlacedNames, held: HeldFactories) -> Factories
        ensures { result ≡ factories_held members held }
    {
        Factories { members, held }
    }

    /// The numbers of the members that the caller of a factory gives. None: there is no factory of this name.
    /// `NoMemory`: there was no room for the numbers.
    pub fn members_of(&self, alloc: Global, word: &[u8]) -> Result<Option<Indexes>, NoMemory>
        ensures { IfOk result (λ found. found ≡ option_map (λ f. f.members) (find (λ f. bytes_eq word.now f.name) self.now)) }
    {
        let Some(factory) = self.held.named(alloc, word)? else {
            return Ok(None);
        };
        let numbers = numbers_of(alloc, &self.members, factory.members.as_slice())?;
        Ok(Some(numbers))
    }
}
