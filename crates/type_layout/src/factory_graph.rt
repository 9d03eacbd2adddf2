// The factories that homes have by those from which they derive.
//
// A home has those of all homes that it derives from, and a text may have thousands of homes that derive from thousands of
// others. So all homes of a text share one graph, which has once what each declares, and a home is a place in it.
use crate::factory_names::first_places;
use crate::factory_search::Search;
use crate::name_places::{Places, place_of};
use crate::{DeclaredFactories, DeclaredFactory};
use pss_base::NoMemory;
use std::alloc::Global;
use std::marker::Model;
use std::rc::Rc;

/// For each declaration those from which it derives, in order, all of them in front of it, and the factories that it
/// declares.
#[derive(Drop)]
pub struct FactoryGraph {
    bases: Vec<Vec<usize>>,
    declared: Vec<Option<Box<DeclaredFactories>>>,
    names: Places,
}

impl Model for FactoryGraph {
    ghost use Rattle.std.specs.Prelude.{map, []};
    ghost use Rattle.type_layout.specs.Factories.{FactoryLines};
    ghost use Rattle.type_layout.specs.Schemas.{given};
    ghost use Rattle.type_layout.specs.inner.Searches.{FindsFirsts};

    ghost Value = { FactoryLines };

    ghost view = { λ g. record { bases = map (λ v. v.items) g.bases.items; declared = map (λ o. given o [] (λ b. b.value)) g.declared.items } };

    ghost invariant = { λ g. FindsFirsts g.names (map (λ o. given o [] (λ b. b.value)) g.declared.items) };
}

impl FactoryGraph {
    ghost use Rattle.std.specs.Prelude.{◌≡◌, map, [], find, IfOk};
    ghost use Rattle.std.specs.Option.{option_map};
    ghost use Rattle.std.specs.Str.{bytes_eq};
    ghost use Rattle.type_layout.specs.Factories.{bases_of, declared_by, held_in};
    ghost use Rattle.type_layout.specs.Schemas.{given};
    ghost use Rattle.type_layout.specs.inner.Searches.{NoneInFront};

    /// By the lists of all declarations. `NoMemory`: their names had no room, and the lists are gone.
    pub fn new(
        alloc: Global,
        bases: Vec<Vec<usize>>,
        declared: Vec<Option<Box<DeclaredFactories>>>,
    ) -> Result<FactoryGraph, NoMemory>
        ensures bases { IfOk result (λ g. g.bases ≡ map (λ v. v.items) bases.items) }
        ensures declared { IfOk result (λ g. g.declared ≡ map (λ o. given o [] (λ b. b.value)) declared.items) }
    {
        let names = first_places(alloc, &declared)?;
        Ok(FactoryGraph {
            bases,
            declared,
            names,
        })
    }

    /// Those from which a declaration derives.
    pub(crate) fn bases(&self, number: usize) -> &[usize]
        ensures { result.now ≡ bases_of self.now number }
    {
        match self.bases.get(number) {
            Some(bases) => bases,
            None => &[],
        }
    }

    /// The first of a name that a declaration declares itself.
    pub(crate) fn declared(&self, number: usize, word: &[u8]) -> Option<&DeclaredFactory>
        ensures { option_map (λ f. f.now) result ≡ find (λ f. bytes_eq word.now f.name) (declared_by self.now number) }
    {
        match self.declared.get(number) {
            Some(Some(declared)) => declared.named(word),
            _ => None,
        }
    }

    // The first of a name that a home has.
    fn named(
        &self,
        alloc: Global,
        home: usize,
        word: &[u8],
    ) -> Result<Option<&DeclaredFactory>, NoMemory>
        ensures { IfOk result (λ found. option_map (λ f. f.now) found ≡ find (λ f. bytes_eq word.now f.name) (held_in self.now home)) }
    {
        if self.bases(home).is_empty() {
            return Ok(self.declared(home, word));
        }
        match place_of(&self.names, word) {
            Some(first) => self.searched(alloc, home, word, first as usize),
            None => Ok(None),
        }
    }

    // The same by a walk, where no declaration in front of the first has such a factory. It takes a step for each behind it
    // from which that home derives, and for each time that one of them names another.
    fn searched(
        &self,
        alloc: Global,
        home: usize,
        word: &[u8],
        first: usize,
    ) -> Result<Option<&DeclaredFactory>, NoMemory>
        requires { NoneInFront self.now word.now first }
        ensures { IfOk result (λ found. option_map (λ f. f.now) found ≡ find (λ f. bytes_eq word.now f.name) (held_in self.now home)) }
    {
        let mut search = Search::new(alloc, home, first)?;
        while let Some(step) = search.next() {
            match step.base(self.bases(step.number)) {
                Some(base) => search.take(step, base)?,
                None => match self.declared(step.number, word) {
                    Some(factory) => return Ok(Some(factory)),
                    None => search.leave(step.number),
                },
            }
        }
        Ok(None)
    }
}

/// The factories that a home has: a place in the graph of all homes.
#[derive(Drop)]
pub struct HeldFactories {
    graph: Rc<FactoryGraph>,
    place: usize,
}

impl Model for HeldFactories {
    ghost use Rattle.std.specs.Prelude.{List};
    ghost use Rattle.type_layout.specs.declared.factories.DeclaredFactory.{DeclaredFactory};
    ghost use Rattle.type_layout.specs.Factories.{held_in};

    ghost Value = { List DeclaredFactory };

    ghost view = { λ h. held_in h.graph.value h.place };
}

impl HeldFactories {
    ghost use Rattle.std.specs.Prelude.{◌≡◌, find, IfOk};
    ghost use Rattle.std.specs.Option.{option_map};
    ghost use Rattle.std.specs.Str.{bytes_eq};
    ghost use Rattle.type_layout.specs.Factories.{held_in};

    /// Those of the home at a place.
    pub fn new(graph: Rc<FactoryGraph>, place: usize) -> HeldFactories
        ensures { result ≡ held_in graph.value place }
    {
        HeldFactories { graph, place }
    }

    /// Those of a home that derives from nothing. `NoMemory`: there was no room for their graph, and they are gone.
    pub fn alone(alloc: Global, declared: DeclaredFactories) -> Result<HeldFactories, NoMemory>
        ensures { IfOk result (λ held. held ≡ declared) }
    {
        let mut all = Vec::new(alloc);
        all.push(Some(Box::new(alloc, declared)?))?;
        let graph = Rc::new(alloc, FactoryGraph::new(alloc, Vec::new(alloc), all)?)?;
        Ok(HeldFactories { graph, place: 0 })
    }

    /// The first of a name.
    pub(crate) fn named(
        &self,
        alloc: Global,
        word: &[u8],
    ) -> Result<Option<&DeclaredFactory>, NoMemory>
        ensures { IfOk result (λ found. option_map (λ f. f.now) found ≡ find (λ f. bytes_eq word.now f.name) self.now) }
    {
        self.graph.named(alloc, self.place, word)
    }
}
