// Which types conform to which.
ghost use Rattle.std.specs.Prelude.{◌≡◌};
ghost use Rattle.psdl_directory.specs.Directories.{all_of};
ghost use Rattle.psdl_lineage.specs.Graph.{graph_of};

use crate::graph::Graph;
use crate::lineage::Lineage;
use crate::lines::Lines;
use psdl_directory::DeclarationNo;
use pss_base::NoMemory;
use std::alloc::Global;
use std::marker::Model;

// A graph, with a walk over it.
#[derive(Drop)]
struct Asked<'g> {
    graph: &'g Graph,
    lines: Lines,
}

impl<'g> Model for Asked<'g> {
    ghost use Rattle.std.specs.Prelude.{List, ℕ};
    ghost use Rattle.psdl_lineage.specs.inner.Lines.{AreLines};

    ghost Value = { List (List ℕ) };

    ghost view = { λ s. s.graph.now };

    ghost invariant = { λ s. AreLines s.graph.now s.lines };
}

impl<'g> Asked<'g> {
    ghost use Rattle.std.specs.Prelude.{◌≡◌, IfOk};
    ghost use Rattle.psdl_lineage.specs.Graph.{conforms_in};

    fn new(alloc: Global, graph: &'g Graph) -> Result<Asked<'g>, NoMemory>
        ensures { IfOk result (λ s. s ≡ graph.now) }
    {
        let lines = Lines::new(alloc, graph)?;
        Ok(Asked { graph, lines })
    }

    #[tactic(auto, using(crate::proofs::Past::by_past))]
    fn conforms(&mut self, alloc: Global, from: usize, to: usize) -> Result<bool, NoMemory>
        ensures same { self.new ≡ self.old }
        ensures conforms { IfOk result (λ r. r ≡ conforms_in self.old from to) }
    {
        if from >= self.graph.len() {
            return Ok(from == to);
        }
        // For the proof alone: what a graph's definitions name is of the graph.
        let _named = self.graph.parents(from);
        if to >= self.graph.len() {
            return Ok(false);
        }
        let found = self.lines.conforms(alloc, self.graph, from, to)?;
        Ok(found)
    }
}

/// Answers which definitions descend from which. Questions of one definition that come one behind the other
/// cost no more, all together, than what that definition descends from.
#[derive(Drop)]
pub struct Conformity<'l, 'd> {
    lineage: &'l Lineage<'l, 'd>,
    asked: Asked<'l>,
    ghost same: { asked ≡ graph_of (all_of lineage.now.directory.now) },
}

impl<'l, 'd> Conformity<'l, 'd> {
    ghost use Rattle.std.specs.Prelude.{◌≡◌, IfOk};
    ghost use Rattle.psdl_lineage.specs.Descent as descent;
    ghost use Rattle.psdl_lineage.specs.Lineages.{text_of, asked_of};

    /// Asks about the definitions of a text. `NoMemory`: there was no room for a mark for each.
    pub fn new(alloc: Global, lineage: &'l Lineage<'l, 'd>) -> Result<Conformity<'l, 'd>, NoMemory>
        ensures { IfOk result (λ c. asked_of c ≡ text_of lineage.now) }
    {
        let asked = Asked::new(alloc, lineage.graph())?;
        Ok(Conformity { lineage, asked })
    }

    /// Whether a definition is another or descends from it. Without memory the next question is answered as ever.
    pub fn conforms(
        &mut self,
        alloc: Global,
        from: DeclarationNo,
        to: DeclarationNo,
    ) -> Result<bool, NoMemory>
        ensures same { asked_of self.new ≡ asked_of self.old }
        ensures conforms { IfOk result (λ r. r ≡ descent.conforms (asked_of self.old) from to) }
    {
        let conforms = self.asked.conforms(alloc, from.index(), to.index())?;
        Ok(conforms)
    }
}
