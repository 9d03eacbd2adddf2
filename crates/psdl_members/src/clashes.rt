// Which homes have two keys, or two factories, that clash.
ghost use Rattle.std.specs.Prelude.{◌≡◌, ◌<◌, ◌||◌, ℕ, false, length, IfOk, OnOk};
ghost use Rattle.std.proofs.Common.{get_or};
ghost use Rattle.psdl_members.specs.inner.Heirs.{AreClashes, IsInOrder, clashes_by_descent};

use crate::heirs::Heirs;
use crate::in_order::count_in_order;
use crate::own::Listings;
use crate::rows::Rows;
use psdl_lineage::Graph;
use pss_base::NoMemory;
use std::alloc::Global;

/// For each of the first declarations, those that name ones in front of them alone, whether two keys or two factories
/// clash that it has, by descent too. It is found out for all when it is asked first.
#[derive(Drop)]
pub(crate) struct Clashes {
    are_told: bool,
    pub flags: Vec<bool>,
}

fn note_clashes(
    alloc: Global,
    graph: &Graph,
    rows: &Rows,
    flags: &mut Vec<bool>,
) -> Result<(), NoMemory>
    requires { IsInOrder graph.now (length flags.old.items) }
    ensures sized { length flags.new.items ≡ length flags.old.items }
    ensures clashes { OnOk result ((n : ℕ) → n < length flags.old.items → get_or flags.new.items n false ≡ (get_or flags.old.items n false || clashes_by_descent graph.now rows.now n)) }
{
    let heirs = Heirs::new(alloc, graph, rows, flags.len())?;
    heirs.note(alloc, flags)?;
    Ok(())
}

fn clashes_of(alloc: Global, graph: &Graph, lists: &Listings) -> Result<Vec<bool>, NoMemory>
    ensures { IfOk result (λ v. AreClashes graph.now lists.now v.items) }
{
    let mut flags = vec![in alloc; false; count_in_order(graph)]?;
    note_clashes(alloc, graph, &lists.keys, &mut flags)?;
    note_clashes(alloc, graph, &lists.factories, &mut flags)?;
    Ok(flags)
}

impl Clashes {
    ghost use Rattle.std.specs.Prelude.{◌≡◌, ◌<◌, ℕ, List, false, length, IfSome};
    ghost use Rattle.std.proofs.Common.{get_or};
    ghost use Rattle.psdl_members.specs.declared.own.Listings.{Listings};
    ghost use Rattle.psdl_members.specs.inner.Heirs.{AreClashes};

    /// Nothing is told yet.
    pub(crate) fn new(alloc: Global) -> Clashes
        ensures { (graph : List (List ℕ)) (lists : Listings) → AreClashes graph lists result.flags.items }
    {
        Clashes {
            are_told: false,
            flags: Vec::new(alloc),
        }
    }

    /// Finds out, unless that was done.
    pub(crate) fn learn(
        &mut self,
        alloc: Global,
        graph: &Graph,
        lists: &Listings,
    ) -> Result<(), NoMemory>
        requires { AreClashes graph.now lists.now self.old.flags.items }
        ensures { AreClashes graph.now lists.now self.new.flags.items }
    {
        if self.are_told {
            return Ok(());
        }
        let flags = clashes_of(alloc, graph, lists)?;
        self.flags = flags;
        self.are_told = true;
        Ok(())
    }

    /// Whether a declaration has such, where it is told.
    pub(crate) fn of(&self, number: usize) -> Option<bool>
        ensures told { IfSome result (λ clash. clash ≡ get_or self.now.flags.items number false) }
        ensures within { IfSome result (λ _. number < length self.now.flags.items) }
    {
        match self.flags.get(number) {
            Some(clash) => Some(*clash),
            None => None,
        }
    }
}
