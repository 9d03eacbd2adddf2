// The homes that provide others.
ghost use Rattle.std.specs.Prelude.{◌≡◌, IfOk};
ghost use Rattle.psdl_directory.specs.Directories.{all_of};
ghost use Rattle.psdl_lineage.specs.Descent.{concrete_homes};
ghost use Rattle.psdl_lineage.specs.Graph.{graph_of};
ghost use Rattle.psdl_lineage.specs.inner.Providing.{AreProviders};

use crate::descendants::first_descendants;
use crate::graph::Graph;
use crate::marks::Marks;
use psdl_directory::{DeclarationNo, Directory};
use pss_base::NoMemory;
use std::alloc::Global;

/// The home that provides each definition, by number.
pub(crate) fn providers(
    alloc: Global,
    directory: &Directory<'_>,
    graph: &Graph,
    homes: &[DeclarationNo],
) -> Result<Vec<Option<DeclarationNo>>, NoMemory>
    requires graph { graph.now ≡ graph_of (all_of directory.now) }
    requires homes { homes.now ≡ concrete_homes (all_of directory.now) }
    ensures { IfOk result (λ v. AreProviders (all_of directory.now) v.items) }
{
    let mut marks = Marks::new(alloc, graph.len())?;
    let providers = first_descendants(alloc, graph, &mut marks, homes)?;
    Ok(providers)
}
