// What declarations descend from that has something of its own.
ghost use Rattle.std.specs.Prelude.{◌≡◌, ◌<◌, ℕ, false, Some, None, is_some, length, slice_set, IfOk, OnOk, IfSome, OnSome, option_map};
ghost use Rattle.psdl_lineage.specs.Sources.{sources_in};
ghost use Rattle.psdl_lineage.specs.inner.KeptSources.{list_at, NamesKept};
ghost use Rattle.psdl_lineage.specs.inner.SourceTables.{kept_in, IsTable};

use crate::graph::Graph;
use crate::marks::Marks;
use crate::{ancestry, joined};
use psdl_directory::DeclarationNo;
use pss_base::NoMemory;
use std::alloc::Global;

// A longer list is of a type with too many members, or of a home with many keys, and is not kept, so that memory stays linear.
const MOST_KEPT: usize = 255;

/// For each declaration its list, where it is kept.
#[derive(Drop)]
pub(crate) struct SourceLists {
    kept: Vec<Option<Vec<DeclarationNo>>>,
}

impl SourceLists {
    fn list(&self, number: usize) -> Option<&[DeclarationNo]>
        ensures { option_map (λ l. l.now) result ≡ list_at (kept_in self.now) number }
    {
        if number >= self.kept.len() {
            return None;
        }
        match &self.kept[number] {
            Some(list) => Some(list.as_slice()),
            None => None,
        }
    }

    // The lists of all that a declaration without a list names, joined, where they are kept.
    fn joined(
        &self,
        alloc: Global,
        graph: &Graph,
        marks: &mut Marks,
        own: &[bool],
        number: usize,
    ) -> Result<Option<Vec<DeclarationNo>>, NoMemory>
        requires number { number < length graph.now }
        requires unkept { is_some (list_at (kept_in self.now) number) ≡ false }
        requires sized { length marks.old ≡ length graph.now }
        requires table { IsTable graph.now own.now self.now }
        ensures sized { length marks.new ≡ length marks.old }
        ensures list { IfOk result (λ r. IfSome r (λ list. list.items ≡ sources_in graph.now own.now number)) }
        ensures named { IfOk result (λ r. OnSome r (NamesKept graph.now (kept_in self.now) number)) }
    {
        marks.clear();
        let mut joined = Vec::new(alloc);
        let parents = graph.parents(number);
        for parent in parents {
            match self.list(*parent) {
                None => return Ok(None),
                Some(list) => joined::join(&mut joined, marks, list)?,
            }
        }
        if !joined::is_own(own, number) {
            return Ok(Some(joined));
        }
        joined::add(&mut joined, marks, DeclarationNo::new(number))?;
        Ok(Some(joined))
    }

    fn is_kept(&self, number: usize) -> bool
        ensures { result ≡ is_some (list_at (kept_in self.now) number) }
    {
        let list = self.list(number);
        list.is_some()
    }

    fn keep(&mut self, number: usize, list: Vec<DeclarationNo>)
        requires { number < length (kept_in self.old) }
        ensures { kept_in self.new ≡ slice_set (kept_in self.old) number (Some list.items) }
    {
        self.kept[number] = Some(list);
    }

    // Keeps the list of a declaration, where those of all that it names are kept and it is not too long.
    fn add(
        &mut self,
        alloc: Global,
        graph: &Graph,
        marks: &mut Marks,
        own: &[bool],
        number: usize,
    ) -> Result<(), NoMemory>
        requires number { number < length graph.now }
        requires sized { length marks.old ≡ length graph.now }
        requires table { IsTable graph.now own.now self.old }
        ensures sized { length marks.new ≡ length marks.old }
        ensures table { OnOk result (IsTable graph.now own.now self.new) }
    {
        if self.is_kept(number) {
            return Ok(());
        }
        let list = self.joined(alloc, graph, marks, own, number)?;
        if let Some(kept) = short(list) {
            self.keep(number, kept);
        }
        Ok(())
    }

    // No list for any of so many declarations.
    fn without(alloc: Global, count: usize) -> Result<SourceLists, NoMemory>
        ensures sized { IfOk result (λ table. length (kept_in table) ≡ count) }
        ensures none { IfOk result (λ table. (n : ℕ) → list_at (kept_in table) n ≡ None) }
    {
        let mut kept = Vec::new(alloc);
        for _ in 0..count {
            kept.push(None)?;
        }
        Ok(SourceLists { kept })
    }

    /// The lists of all declarations but of those in circles of bases and below such, and of those whose list, or that of
    /// one above them, is longer than 255.
    pub(crate) fn new(
        alloc: Global,
        graph: &Graph,
        marks: &mut Marks,
        own: &[bool],
    ) -> Result<SourceLists, NoMemory>
        requires sized { length marks.old ≡ length graph.now }
        ensures sized { length marks.new ≡ length marks.old }
        ensures table { IfOk result (λ table. IsTable graph.now own.now table) }
    {
        let order = ancestry::order(alloc, graph, marks)?;
        let mut table = SourceLists::without(alloc, graph.len())?;
        for number in &order {
            table.add(alloc, graph, marks, own, *number)?;
        }
        Ok(table)
    }

    /// What a declaration descends from and has something of its own, the declaration itself last.
    pub(crate) fn of(
        &self,
        alloc: Global,
        graph: &Graph,
        marks: &mut Marks,
        own: &[bool],
        number: usize,
    ) -> Result<Vec<DeclarationNo>, NoMemory>
        requires number { number < length graph.now }
        requires sized { length marks.old ≡ length graph.now }
        requires table { IsTable graph.now own.now self.now }
        ensures sized { length marks.new ≡ length marks.old }
        ensures sources { IfOk result (λ list. list.items ≡ sources_in graph.now own.now number) }
    {
        match self.list(number) {
            Some(list) => Ok(Vec::from_slice(alloc, list)?),
            None => walked(alloc, graph, marks, own, number),
        }
    }
}

// The list, unless it is too long.
fn short(list: Option<Vec<DeclarationNo>>) -> Option<Vec<DeclarationNo>>
    ensures { IfSome result (λ kept. list ≡ Some kept) }
{
    match list {
        Some(kept) if kept.len() <= MOST_KEPT => Some(kept),
        _ => None,
    }
}

// The same by a walk.
fn walked(
    alloc: Global,
    graph: &Graph,
    marks: &mut Marks,
    own: &[bool],
    number: usize,
) -> Result<Vec<DeclarationNo>, NoMemory>
    requires number { number < length graph.now }
    requires sized { length marks.old ≡ length graph.now }
    ensures sized { length marks.new ≡ length marks.old }
    ensures sources { IfOk result (λ list. list.items ≡ sources_in graph.now own.now number) }
{
    let ancestry = ancestry::ancestry(alloc, graph, marks, number)?;
    joined::owners(alloc, own, &ancestry)
}
