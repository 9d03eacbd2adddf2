// What the types and homes of a text descend from.
ghost use Rattle.psdl_directory.specs.Directories.{all_of};
ghost use Rattle.psdl_lineage.specs.inner.Known.{IsKnown};

use crate::families::families_of;
use crate::graph::Graph;
use crate::homes::{concrete_homes, first_home, managed_type};
use crate::parents::graph_of;
use crate::providers::providers;
use psdl_directory::{DeclarationNo, Directory, Header};
use pss_base::NoMemory;
use std::alloc::Global;

/// The lines of descent of a text: which definitions each names as bases or implements, and what follows for homes.
#[derive(Drop)]
pub struct Lineage<'l, 'd> {
    directory: &'l Directory<'d>,
    headers: &'l [Header],
    graph: Graph,
    homes: Vec<DeclarationNo>,
    families: Vec<DeclarationNo>,
    providers: Vec<Option<DeclarationNo>>,
    ghost known: { IsKnown (all_of directory.now) headers.now graph homes.items families.items providers.items },
}

impl<'l, 'd> Lineage<'l, 'd> {
    ghost use Rattle.std.specs.Prelude.{◌≡◌, ◌<◌, length, slice_get, IfOk};
    ghost use Rattle.psdl_directory.specs.Directories.{all_of};
    ghost use Rattle.psdl_directory.specs.Headers as of;
    ghost use Rattle.psdl_lineage.specs.Descent as descent;
    ghost use Rattle.psdl_lineage.specs.Graph as graphs;
    ghost use Rattle.psdl_lineage.specs.Lineages.{text_of};

    // With the graph and the concrete homes of a text.
    fn with_homes(
        alloc: Global,
        directory: &'l Directory<'d>,
        headers: &'l [Header],
        graph: Graph,
        homes: Vec<DeclarationNo>,
    ) -> Result<Lineage<'l, 'd>, NoMemory>
        requires headers { headers.now ≡ of.headers (all_of directory.now) }
        requires graph { graph ≡ graphs.graph_of (all_of directory.now) }
        requires homes { homes.items ≡ descent.concrete_homes (all_of directory.now) }
        ensures { IfOk result (λ l. text_of l ≡ all_of directory.now) }
    {
        let families = families_of(alloc, directory, headers)?;
        let providers = providers(alloc, directory, &graph, &homes)?;
        Ok(Lineage {
            directory,
            headers,
            graph,
            homes,
            families,
            providers,
        })
    }

    /// The lineage of a text, by what the names in its headers mean.
    /// `NoMemory`: there was no room for the graph and its lists.
    pub fn new(
        alloc: Global,
        directory: &'l Directory<'d>,
        headers: &'l [Header],
    ) -> Result<Lineage<'l, 'd>, NoMemory>
        requires { headers.now ≡ of.headers (all_of directory.now) }
        ensures { IfOk result (λ l. text_of l ≡ all_of directory.now) }
    {
        let graph = graph_of(alloc, directory, headers)?;
        let homes = concrete_homes(alloc, directory)?;
        Lineage::with_homes(alloc, directory, headers, graph, homes)
    }

    /// The directory of the text.
    pub fn directory(&self) -> &'l Directory<'d>
        ensures { all_of result.now ≡ text_of self.now }
    {
        self.directory
    }

    /// For each declaration the definitions that it names as bases or implements.
    pub fn graph(&self) -> &Graph
        ensures { result.now ≡ graphs.graph_of (text_of self.now) }
    {
        &self.graph
    }

    /// The concrete home at a place among those of the text, from 0.
    pub fn home(&self, place: usize) -> Option<DeclarationNo>
        ensures { result ≡ slice_get (descent.concrete_homes (text_of self.now)) place }
    {
        self.homes.get(place).copied()
    }

    /// How many concrete homes there are.
    pub fn home_count(&self) -> usize
        ensures { result ≡ length (descent.concrete_homes (text_of self.now)) }
    {
        self.homes.len()
    }

    /// The definition of a home's storage type.
    pub fn type_of_home(&self, home: DeclarationNo) -> Option<DeclarationNo>
        ensures { result ≡ descent.type_of_home (text_of self.now) home }
    {
        match self.headers.get(home.index()) {
            Some(header) => managed_type(self.directory, header),
            None => None,
        }
    }

    /// The home that a concrete home names as its base.
    pub fn base_home(&self, home: DeclarationNo) -> Option<DeclarationNo>
        ensures { result ≡ descent.base_home (text_of self.now) home }
    {
        match self.headers.get(home.index()) {
            Some(header) => first_home(self.directory, header.bases()),
            None => None,
        }
    }

    /// The family of a home, which is named by its first home.
    pub fn family(&self, home: DeclarationNo) -> DeclarationNo
        ensures { home < length (text_of self.now) → result ≡ descent.family (text_of self.now) home }
    {
        match self.families.get(home.index()) {
            Some(family) => *family,
            None => home,
        }
    }

    /// The first concrete home that implements an abstract home.
    pub fn provider(&self, home: DeclarationNo) -> Option<DeclarationNo>
        ensures { home < length (text_of self.now) → result ≡ descent.provider (text_of self.now) home }
    {
        match self.providers.get(home.index()) {
            Some(provider) => *provider,
            None => None,
        }
    }
}
