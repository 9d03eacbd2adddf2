// What declarations descend from.
ghost use Rattle.std.specs.Prelude.{◌≡◌, ◌<◌, ◌==◌, ℕ, true, length, IfOk};
ghost use Rattle.std.specs.List.{flat_map, range_with_len};
ghost use Rattle.psdl_lineage.specs.Descent.{has, without_repeats};
ghost use Rattle.psdl_lineage.specs.Graph.{ancestry_in};

use crate::graph::Graph;
use crate::marks::Marks;
use crate::walk::Walk;
use pss_base::NoMemory;
use std::alloc::Global;

/// What a declaration descends from, itself last.
pub(crate) fn ancestry(
    alloc: Global,
    graph: &Graph,
    marks: &mut Marks,
    number: usize,
) -> Result<Vec<usize>, NoMemory>
    requires number { number < length graph.now }
    requires sized { length marks.old ≡ length graph.now }
    ensures sized { length marks.new ≡ length marks.old }
    ensures ancestry { IfOk result (λ found. found.items ≡ ancestry_in graph.now number) }
{
    marks.clear();
    let mut walk = Walk::new(alloc);
    walk.run(graph, marks, number)?;
    Ok(walk.into_found())
}

/// All declarations, each behind those that it descends from where these do not descend from it.
pub(crate) fn order(alloc: Global, graph: &Graph, marks: &mut Marks) -> Result<Vec<usize>, NoMemory>
    requires sized { length marks.old ≡ length graph.now }
    ensures sized { length marks.new ≡ length marks.old }
    ensures order { IfOk result (λ order. order.items ≡ without_repeats (λ a b. a == b) (flat_map (ancestry_in graph.now) (range_with_len 0 (length graph.now)))) }
    ensures below { IfOk result (λ order. (n : ℕ) → has order.items n ≡ true → n < length graph.now) }
{
    marks.clear();
    let mut walk = Walk::new(alloc);
    for number in 0..graph.len() {
        walk.run(graph, marks, number)?;
    }
    Ok(walk.into_found())
}
