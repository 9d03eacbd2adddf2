// The factories that homes have. What all homes of a text derive from and declare is held once.
ghost use Rattle.std.specs.Prelude.{◌≡◌, ◌<◌, ◌++◌, [], length, map, IfOk, OnOk};
ghost use Rattle.std.specs.List.{range_with_len};
ghost use Rattle.type_layout.specs.Schemas.{given};
ghost use Rattle.psdl_directory.specs.Directories.{all_of};
ghost use Rattle.psdl_directory.specs.inner.Nodes.{what_view};
ghost use Rattle.psdl_lineage.specs.Descent.{names_of as names_in};
ghost use Rattle.psdl_members.specs.Listings.{listed_view, listed_views};
ghost use Rattle.psdl_members.specs.declared.list_kind.ListKind.TheVariants as kinds;
ghost use Rattle.psdl_members.specs.inner.Listing.{listed_in, own_lists};
ghost use Rattle.psdl_lineage.specs.Graph.{graph_of, parents_in};
ghost use Rattle.psdl_lineage.specs.Lineages.{text_of};
ghost use Rattle.psdl_check.specs.inner.Declaring.{declared_as, AreDeclared};
ghost use Rattle.psdl_check.specs.inner.Rising.{IsRising};

use psdl_directory::{DeclarationNo, Directory, What};
use psdl_lineage::{Graph, Lineage};
use psdl_members::{ListKind, Listed, add_lists};
use psdl_tree::Identifier;
use pss_base::NoMemory;
use std::alloc::Global;
use std::rc::Rc;
use type_layout::{DeclaredFactories, DeclaredFactory, FactoryGraph, HeldFactories, Names};

/// From which others each declaration of a text derives, and which factories it declares.
#[derive(Drop)]
pub(crate) struct HomeFactories<'t, 'd> {
    lineage: &'t Lineage<'t, 'd>,
    graph: Rc<FactoryGraph>,
    ghost rising: { IsRising (graph_of (text_of lineage.now)) },
    ghost had: { AreDeclared (text_of lineage.now) graph.value },
}

// Adds names.
fn add_names(list: &mut Names, identifiers: &[Identifier]) -> Result<(), NoMemory>
    ensures { OnOk result (list.new ≡ list.old ++ names_in identifiers.now) }
{
    for identifier in identifiers {
        list.push(identifier.name.copy()?)?;
    }
    Ok(())
}

// The names in a list.
fn names_of(alloc: Global, listed: &Listed<'_>) -> Result<Names, NoMemory>
    ensures { IfOk result (λ names. names ≡ (listed_view listed.now).members) }
{
    let mut names = Names::new(alloc);
    add_names(&mut names, listed.first)?;
    add_names(&mut names, listed.others)?;
    Ok(names)
}

// A factory as it is declared.
fn declared(alloc: Global, listed: &Listed<'_>) -> Result<DeclaredFactory, NoMemory>
    ensures { IfOk result (λ f. f ≡ declared_as (listed_view listed.now)) }
{
    let name = listed.name.name.copy()?;
    let members = names_of(alloc, listed)?;
    Ok(DeclaredFactory { name, members })
}

// Factories as they are declared.
fn declared_list(alloc: Global, lists: &[Listed<'_>]) -> Result<Vec<DeclaredFactory>, NoMemory>
    ensures { IfOk result (λ v. v.items ≡ map declared_as (listed_views lists.now)) }
{
    let mut list = Vec::new(alloc);
    for listed in lists {
        list.push(declared(alloc, listed)?)?;
    }
    Ok(list)
}

// What a body declares, where that is something.
fn of_body(alloc: Global, what: What<'_>) -> Result<Option<Box<DeclaredFactories>>, NoMemory>
    ensures { IfOk result (λ r. given r [] (λ b. b.value) ≡ map declared_as (listed_in kinds.Factory (what_view what.entry))) }
{
    let mut lists = Vec::new(alloc);
    add_lists(&mut lists, ListKind::Factory, what)?;
    if lists.is_empty() {
        return Ok(None);
    }
    let declared = declared_list(alloc, &lists)?;
    let boxed = Box::new(alloc, DeclaredFactories::new(alloc, declared)?)?;
    Ok(Some(boxed))
}

// What all bodies declare.
fn of_bodies(
    alloc: Global,
    directory: &Directory<'_>,
) -> Result<Vec<Option<Box<DeclaredFactories>>>, NoMemory>
    ensures { IfOk result (λ v. map (λ o. given o [] (λ b. b.value)) v.items ≡ map (λ n. map declared_as (own_lists kinds.Factory (all_of directory.now) n)) (range_with_len 0 (length (all_of directory.now)))) }
{
    let mut all = Vec::new(alloc);
    for index in 0..directory.len() {
        all.push(of_body(alloc, directory.what(DeclarationNo::new(index)))?)?;
    }
    Ok(all)
}

// What a declaration derives from.
fn bases_of(alloc: Global, graph: &Graph, number: usize) -> Result<Vec<usize>, NoMemory>
    requires { number < length graph.now }
    ensures { IfOk result (λ v. v.items ≡ parents_in graph.now number) }
{
    let bases = graph.parents(number).to_vec(alloc)?;
    Ok(bases)
}

// What all declarations derive from.
fn all_bases(alloc: Global, graph: &Graph) -> Result<Vec<Vec<usize>>, NoMemory>
    ensures { IfOk result (λ v. map (λ r. r.items) v.items ≡ graph.now) }
{
    let mut all = Vec::new(alloc);
    for number in 0..graph.len() {
        all.push(bases_of(alloc, graph, number)?)?;
    }
    Ok(all)
}

// The graph of a text.
fn graph_with(alloc: Global, lineage: &Lineage) -> Result<Rc<FactoryGraph>, NoMemory>
    ensures { IfOk result (λ r. AreDeclared (text_of lineage.now) r.value) }
{
    let bases = all_bases(alloc, lineage.graph())?;
    let graph = FactoryGraph::new(alloc, bases, of_bodies(alloc, lineage.directory())?)?;
    let shared = Rc::new(alloc, graph)?;
    Ok(shared)
}

impl<'t, 'd> HomeFactories<'t, 'd> {
    ghost use Rattle.std.specs.Prelude.{◌≡◌, [], map, IfOk};
    ghost use Rattle.type_layout.specs.Factories.{first_of_each, same_declared};
    ghost use Rattle.psdl_lineage.specs.Descent.{home_factories};
    ghost use Rattle.psdl_lineage.specs.Graph.{graph_of};
    ghost use Rattle.psdl_lineage.specs.Lineages.{text_of};
    ghost use Rattle.psdl_check.specs.inner.Declaring.{declared_as};
    ghost use Rattle.psdl_check.specs.inner.FactoryTexts.{factories_text};
    ghost use Rattle.psdl_check.specs.inner.Rising.{IsRising};

    /// What the homes of a text derive from and declare.
    pub(crate) fn new(
        alloc: Global,
        lineage: &'t Lineage<'t, 'd>,
    ) -> Result<HomeFactories<'t, 'd>, NoMemory>
        requires { IsRising (graph_of (text_of lineage.now)) }
        ensures { IfOk result (λ f. factories_text f ≡ text_of lineage.now) }
    {
        let graph = graph_with(alloc, lineage)?;
        Ok(HomeFactories { lineage, graph })
    }

    /// The factories of a home, as it and all homes declare them from which it has them. One that comes again may be there
    /// again.
    pub(crate) fn of(&self, home: DeclarationNo) -> Result<HeldFactories, NoMemory>
        ensures { IfOk result (λ held. first_of_each same_declared [] held ≡ map declared_as (home_factories (factories_text self.now) home)) }
    {
        let graph = self.graph.clone()?;
        Ok(HeldFactories::new(graph, home.index()))
    }
}
