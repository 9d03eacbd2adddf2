// Whether one definition descends from another.
ghost use Rattle.std.specs.Prelude.{◌≡◌, ◌<◌, Some, length, IfOk, OnOk};
ghost use Rattle.psdl_lineage.specs.Graph.{conforms_in};
ghost use Rattle.psdl_lineage.specs.inner.Lines.{AreLines, AreOf};

use crate::graph::Graph;
use crate::marks::Marks;
use crate::walk::Walk;
use pss_base::NoMemory;
use std::alloc::Global;

/// A walk up the lines of a definition, as far as questions about it have led.
#[derive(Drop)]
pub(crate) struct Lines {
    marks: Marks,
    walk: Walk,
    from: Option<usize>,
}

// A walk that begins at a definition.
fn begun(alloc: Global, graph: &Graph, marks: &mut Marks, from: usize) -> Result<Walk, NoMemory>
    requires from { from < length graph.now }
    requires sized { length marks.old ≡ length graph.now }
    ensures sized { length marks.new ≡ length marks.old }
    ensures lines { IfOk result (λ walk. AreOf graph.now marks.new walk from) }
{
    marks.clear();
    let mut walk = Walk::new(alloc);
    walk.begin(graph, marks, from)?;
    Ok(walk)
}

impl Lines {
    pub(crate) fn new(alloc: Global, graph: &Graph) -> Result<Lines, NoMemory>
        ensures { IfOk result (λ lines. AreLines graph.now lines) }
    {
        let marks = Marks::new(alloc, graph.len())?;
        Ok(Lines {
            marks,
            walk: Walk::new(alloc),
            from: None,
        })
    }

    // Begins at a definition, unless the walk is up its lines already.
    fn be_at(&mut self, alloc: Global, graph: &Graph, from: usize) -> Result<(), NoMemory>
        requires from { from < length graph.now }
        requires lines { AreLines graph.now self.old }
        ensures lines { AreLines graph.now self.new }
        ensures at { OnOk result (self.new.from ≡ Some from) }
    {
        if self.from == Some(from) {
            return Ok(());
        }
        self.from = None;
        self.walk = begun(alloc, graph, &mut self.marks, from)?;
        self.from = Some(from);
        Ok(())
    }

    /// Whether a definition descends from another. Where the last question was about the same
    /// definition, the walk goes on from there.
    pub(crate) fn conforms(
        &mut self,
        alloc: Global,
        graph: &Graph,
        from: usize,
        to: usize,
    ) -> Result<bool, NoMemory>
        requires from { from < length graph.now }
        requires to { to < length graph.now }
        requires lines { AreLines graph.now self.old }
        ensures lines { AreLines graph.now self.new }
        ensures conforms { IfOk result (λ r. r ≡ conforms_in graph.now from to) }
    {
        self.be_at(alloc, graph, from)?;
        self.from = None;
        let found = self.walk.reach(graph, &mut self.marks, to)?;
        self.from = Some(from);
        Ok(found)
    }
}
