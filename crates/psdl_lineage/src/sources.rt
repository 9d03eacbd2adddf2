// The declarations from which others have something by descent.
ghost use Rattle.std.specs.Prelude.{◌≡◌, ◌∷◌, [], filter, IfOk};
ghost use Rattle.psdl_lineage.specs.Sources.{is_own};

use crate::graph::Graph;
use crate::joined;
use crate::lineage::Lineage;
use crate::marks::Marks;
use crate::source_lists::SourceLists;
use psdl_directory::DeclarationNo;
use pss_base::NoMemory;
use std::alloc::Global;
use std::marker::Model;

/// For each declaration those that it descends from which have something of their own.
#[derive(Drop)]
pub struct Sources<'l> {
    graph: &'l Graph,
    own: Vec<bool>,
    marks: Marks,
    lists: SourceLists,
}

impl<'l> Model for Sources<'l> {
    ghost use Rattle.psdl_lineage.specs.Sources.{Inheritance};
    ghost use Rattle.psdl_lineage.specs.inner.Inherited.{AreSources};

    ghost Value = { Inheritance };

    ghost view = { λ s. record { graph = s.graph.now; own = s.own.items } };

    ghost invariant = { λ s. AreSources s.graph.now s.own.items s.marks s.lists };
}

// A number that is no declaration's descends from itself alone.
fn alone(alloc: Global, own: &[bool], number: DeclarationNo) -> Result<Vec<DeclarationNo>, NoMemory>
    ensures { IfOk result (λ v. v.items ≡ filter (is_own own.now) (number ∷ [])) }
{
    let mut list = Vec::new(alloc);
    if joined::is_own(own, number.index()) {
        list.push(number)?;
    }
    Ok(list)
}

impl<'l> Sources<'l> {
    ghost use Rattle.std.specs.Prelude.{◌≡◌, IfOk};
    ghost use Rattle.psdl_lineage.specs.Graph.{graph_of};
    ghost use Rattle.psdl_lineage.specs.Lineages.{text_of};
    ghost use Rattle.psdl_lineage.specs.Sources.{sources_in};

    /// By which declarations have something of their own, in order.
    /// `NoMemory`: there was no room for the lists, and `own` is gone.
    pub fn new(alloc: Global, lineage: &'l Lineage, own: Vec<bool>) -> Result<Sources<'l>, NoMemory>
        ensures graph { IfOk result (λ s. s.graph ≡ graph_of (text_of lineage.now)) }
        ensures own { IfOk result (λ s. s.own ≡ own.items) }
    {
        let graph = lineage.graph();
        let mut marks = Marks::new(alloc, graph.len())?;
        let lists = SourceLists::new(alloc, graph, &mut marks, &own)?;
        Ok(Sources {
            graph,
            own,
            marks,
            lists,
        })
    }

    /// The sources of a declaration, in the order of its lines, itself last where it is one. Without memory the next question
    /// is answered as ever.
    #[tactic(auto, using(crate::proofs::Past::by_past))]
    pub fn of(
        &mut self,
        alloc: Global,
        number: DeclarationNo,
    ) -> Result<Vec<DeclarationNo>, NoMemory>
        ensures same { self.new ≡ self.old }
        ensures sources { IfOk result (λ v. v.items ≡ sources_in self.old.graph self.old.own number) }
    {
        let index = number.index();
        if index >= self.graph.len() {
            return alone(alloc, &self.own, number);
        }
        let list = self
            .lists
            .of(alloc, self.graph, &mut self.marks, &self.own, index)?;
        Ok(list)
    }
}
