// The graph of a text: what the names in headers mean was found out already.
ghost use Rattle.std.specs.Prelude.{◌≡◌, ◌++◌, ◌∷◌, [], IfOk, OnOk};
ghost use Rattle.psdl_directory.specs.Directories.{all_of};
ghost use Rattle.psdl_directory.specs.Headers as of;
ghost use Rattle.psdl_directory.specs.inner.Nodes.{what_view};
ghost use Rattle.psdl_lineage.specs.Descent.{same_sort};
ghost use Rattle.psdl_lineage.specs.Graph.{graph_of};
ghost use Rattle.psdl_lineage.specs.inner.Meant.{of_uses};

use crate::graph::Graph;
use psdl_directory::{DeclarationNo, Directory, Header, Use, What};
use pss_base::NoMemory;
use std::alloc::Global;

// Whether both are storage types, or both homes.
fn same_sort(first: What<'_>, second: What<'_>) -> bool
    ensures { result ≡ same_sort (what_view first.entry) (what_view second.entry) }
{
    (first.is_storage_type() && second.is_storage_type()) || (first.is_home() && second.is_home())
}

// Adds the definitions that are of the sort of a declaration.
fn add_definitions(
    directory: &Directory<'_>,
    row: &mut Vec<usize>,
    number: DeclarationNo,
    uses: &[Use],
) -> Result<(), NoMemory>
    ensures { OnOk result (row.new.items ≡ row.old.items ++ of_uses (all_of directory.now) number uses.now) }
{
    for used in uses {
        add_definition(directory, row, number, used)?;
    }
    Ok(())
}

fn add_definition(
    directory: &Directory<'_>,
    row: &mut Vec<usize>,
    number: DeclarationNo,
    used: &Use,
) -> Result<(), NoMemory>
    ensures { OnOk result (row.new.items ≡ row.old.items ++ of_uses (all_of directory.now) number (used.now ∷ [])) }
{
    let Some(defined) = used.defined else {
        return Ok(());
    };
    let holds = same_sort(directory.what(number), directory.what(defined));
    if holds {
        row.push(defined.index())?;
    }
    Ok(())
}

#[tactic(auto, using(crate::proofs::Naming::by_uses))]
fn row(
    alloc: Global,
    directory: &Directory<'_>,
    header: &Header,
    number: DeclarationNo,
) -> Result<Vec<usize>, NoMemory>
    ensures { IfOk result (λ v. v.items ≡ of_uses (all_of directory.now) number (header.now.bases ++ header.now.implemented)) }
{
    let mut row = Vec::new(alloc);
    add_definitions(directory, &mut row, number, header.bases())?;
    add_definitions(directory, &mut row, number, header.implemented())?;
    Ok(row)
}

/// The definitions that each declaration names as bases or implements.
pub(crate) fn graph_of(
    alloc: Global,
    directory: &Directory<'_>,
    headers: &[Header],
) -> Result<Graph, NoMemory>
    requires { headers.now ≡ of.headers (all_of directory.now) }
    ensures { IfOk result (λ graph. graph ≡ graph_of (all_of directory.now)) }
{
    let mut rows = Vec::new(alloc);
    for index in 0..headers.len() {
        let header = &headers[index];
        let row = row(alloc, directory, header, DeclarationNo::new(index))?;
        rows.push(row)?;
    }
    Ok(Graph::new(rows))
}
