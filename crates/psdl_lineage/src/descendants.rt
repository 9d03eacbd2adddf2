// The first of some definitions that descends from each.
ghost use Rattle.std.specs.Prelude.{◌≡◌, ◌<◌, ℕ, length, true, None, Some, IfOk, slice_index_or, if◌then◌else◌};
ghost use Rattle.psdl_lineage.specs.Descent.{has};
ghost use Rattle.psdl_lineage.specs.Graph.{first_descendant};

use crate::graph::Graph;
use crate::marks::Marks;
use crate::walk::Walk;
use psdl_directory::DeclarationNo;
use pss_base::NoMemory;
use std::alloc::Global;

/// For each definition the first of the roots that descends from it.
pub(crate) fn first_descendants(
    alloc: Global,
    graph: &Graph,
    marks: &mut Marks,
    roots: &[DeclarationNo],
) -> Result<Vec<Option<DeclarationNo>>, NoMemory>
    requires roots { (n : ℕ) → has roots.now n ≡ true → n < length graph.now }
    requires sized { length marks.old ≡ length graph.now }
    ensures sized { length marks.new ≡ length marks.old }
    ensures len { IfOk result (λ firsts. length firsts.items ≡ length graph.now) }
    ensures first { IfOk result (λ firsts. (n : ℕ) → n < length graph.now → slice_index_or firsts.items n None ≡ first_descendant graph.now roots.now n) }
{
    marks.clear();
    let mut walk = Walk::new(alloc);
    let mut firsts = vec![in alloc; None; graph.len()]?;
    for root in roots {
        let before = walk.len();
        walk.run(graph, marks, root.index())?;
        give(&mut firsts, walk.found_since(before), *root);
    }
    Ok(firsts)
}

// Sets the first descendant of each of these.
fn give(firsts: &mut Vec<Option<DeclarationNo>>, numbers: &[usize], root: DeclarationNo)
    requires { (n : ℕ) → has numbers.now n ≡ true → n < length firsts.old.items }
    ensures len { length firsts.new.items ≡ length firsts.old.items }
    ensures given { (n : ℕ) → slice_index_or firsts.new.items n None ≡ (if has numbers.now n then Some root else slice_index_or firsts.old.items n None) }
{
    for number in numbers {
        firsts[*number] = Some(root);
    }
}
