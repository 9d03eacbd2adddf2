// Which declarations have entries that clash, by descent too. One pass over them tells it of 64 entries, each with a bit of
// its own: there may be thousands of heirs and thousands of entries, and to compare all that each heir has would cost much
// more than the text.
ghost use Rattle.std.specs.Prelude.{◌≡◌, ◌<◌, ◌≤◌, ◌*◌, ◌||◌, ℕ, Bool, true, false, length, take, drop, IfOk};
ghost use Rattle.std.proofs.Common.{get_or};
ghost use Rattle.std.specs.List.{list_any};
ghost use Rattle.psdl_lineage.specs.Graph.{parents_in};
ghost use Rattle.psdl_members.specs.inner.Claims.{AreClaims};
ghost use Rattle.psdl_members.specs.inner.Heirs.{AreColumns, AreHeirs, IsInOrder, has_row};

use crate::claims::Claims;
use crate::entry::Entry;
use crate::group::Group;
use crate::rows::Rows;
use crate::seen::{Seen, seen_at, seen_by_all};
use crate::showing::show;
use psdl_lineage::Graph;
use pss_base::NoMemory;
use std::alloc::Global;

/// Declarations each of which names ones in front of it alone, and which of them have entries, by descent too; and the
/// entries of which they are told, and all by their names.
#[derive(Drop)]
pub(crate) struct Heirs<'t> {
    graph: &'t Graph,
    rows: &'t Rows,
    heirs: Vec<bool>,
    claims: Claims,
    ghost order: { IsInOrder graph.now (length heirs.items) },
    ghost told: { AreHeirs graph.now rows.now heirs.items },
    ghost columned: { AreColumns rows.now.entries.items claims.columns.items },
    ghost claimed: { AreClaims rows.now claims.by_name.items },
}

fn is_set(flags: &[bool], number: usize) -> bool
    ensures { result ≡ get_or flags.now number false }
{
    match flags.get(number) {
        Some(flag) => *flag,
        None => false,
    }
}

fn any_set(flags: &[bool], numbers: &[usize]) -> bool
    ensures { result ≡ list_any (λ p. get_or flags.now p false) numbers.now }
{
    for number in numbers {
        if is_set(flags, *number) {
            return true;
        }
    }
    false
}

// A declaration has entries in its body, or names heirs.
fn is_heir(graph: &Graph, rows: &Rows, heirs: &[bool], number: usize) -> bool
    requires { number < length graph.now }
    ensures { result ≡ (has_row rows.now number || list_any (λ p. get_or heirs.now p false) (parents_in graph.now number)) }
{
    let own = rows.of(number).len();
    own > 0 || any_set(heirs, graph.parents(number))
}

fn heirs_of(alloc: Global, graph: &Graph, rows: &Rows, count: usize) -> Result<Vec<bool>, NoMemory>
    requires { IsInOrder graph.now count }
    ensures sized { IfOk result (λ v. length v.items ≡ count) }
    ensures heirs { IfOk result (λ v. AreHeirs graph.now rows.now v.items) }
{
    let mut heirs = vec![in alloc; false; count]?;
    for number in 0..count {
        let heir = is_heir(graph, rows, &heirs, number);
        heirs[number] = heir;
    }
    Ok(heirs)
}

fn either(first: bool, second: bool) -> bool
    ensures { result ≡ (first || second) }
{
    first || second
}

// The entries of a group.
fn part(entries: &[Entry], index: usize) -> &[Entry]
    requires { index * 64 ≤ length entries.now }
    ensures part { result.now ≡ take 64 (drop (index * 64) entries.now) }
    ensures few { length result.now ≤ 64 }
{
    let rest = &entries[index * 64..];
    if rest.len() < 64 { rest } else { &rest[..64] }
}

impl<'t> Heirs<'t> {
    ghost use Rattle.std.specs.Prelude.{◌≡◌, ◌<◌, ◌≤◌, ◌+◌, ◌*◌, ◌||◌, ℕ, List, Bool, true, false, length, take, IfOk, OnOk};
    ghost use Rattle.std.proofs.Common.{get_or};
    ghost use Rattle.psdl_lineage.specs.Descent.{has};
    ghost use Rattle.psdl_lineage.specs.Graph.{parents_in};
    ghost use Rattle.psdl_members.specs.inner.Heirs.{AreMet, IsInOrder, IsTold, clashes_by_descent, sees, shows};
    ghost use Rattle.psdl_members.specs.inner.Rowed.{Entries};
    ghost use Rattle.std.specs.List.{list_any};
    ghost use Rattle.psdl_members.specs.inner.Seeing.{AreSeen, IsSeen, is_met, seen_at};

    /// The first so many declarations.
    pub(crate) fn new(
        alloc: Global,
        graph: &'t Graph,
        rows: &'t Rows,
        count: usize,
    ) -> Result<Heirs<'t>, NoMemory>
        requires { IsInOrder graph.now count }
        ensures graph { IfOk result (λ h. h.graph.now ≡ graph.now) }
        ensures rows { IfOk result (λ h. h.rows.now ≡ rows.now) }
        ensures sized { IfOk result (λ h. length h.heirs.items ≡ count) }
    {
        let claims = Claims::new(alloc, rows)?;
        let heirs = heirs_of(alloc, graph, rows, count)?;
        Ok(Heirs {
            graph,
            rows,
            heirs,
            claims,
        })
    }

    // What a declaration sees of a group, where it is known of those that it names.
    fn seen_by(&self, seen: &[Seen], number: usize) -> Seen
        requires { number < length self.now.heirs.items }
        ensures { (es : Entries) → IsSeen (seen_at seen.now number) es (shows self.now.rows.now number) → ((p : ℕ) → has (parents_in self.now.graph.now number) p ≡ true → IsSeen (seen_at seen.now p) es (sees self.now.graph.now self.now.rows.now p)) → IsSeen result es (sees self.now.graph.now self.now.rows.now number) }
    {
        let own = seen_at(seen, number);
        own.and(seen_by_all(seen, self.graph.parents(number)))
    }

    // One declaration more is told of a group.
    fn tell(&self, number: usize, seen: &mut Vec<Seen>, clashes: &mut Vec<bool>)
        requires number { number < length self.now.heirs.items }
        requires seen { length seen.old.items ≡ length self.now.heirs.items }
        requires sized { length clashes.old.items ≡ length self.now.heirs.items }
        ensures seen { length seen.new.items ≡ length self.now.heirs.items }
        ensures sized { length clashes.new.items ≡ length self.now.heirs.items }
        ensures told { (es : Entries) (before : List Bool) → length es ≤ 64 → IsTold self.now.graph.now self.now.rows.now es before number seen.old.items clashes.old.items → IsTold self.now.graph.now self.now.rows.now es before (number + 1) seen.new.items clashes.new.items }
    {
        if !self.heirs[number] {
            return;
        }
        let here = self.seen_by(seen, number);
        let clash = either(clashes[number], here.has_clash());
        seen[number] = here;
        clashes[number] = clash;
    }

    // All are told of a group.
    fn tell_all(&self, seen: &mut Vec<Seen>, clashes: &mut Vec<bool>)
        requires seen { length seen.old.items ≡ length self.now.heirs.items }
        requires sized { length clashes.old.items ≡ length self.now.heirs.items }
        ensures seen { length seen.new.items ≡ length self.now.heirs.items }
        ensures sized { length clashes.new.items ≡ length self.now.heirs.items }
        ensures told { (es : Entries) → length es ≤ 64 → AreSeen seen.old.items es (shows self.now.rows.now) → (n : ℕ) → n < length self.now.heirs.items → get_or clashes.new.items n false ≡ (get_or clashes.old.items n false || list_any (is_met (sees self.now.graph.now self.now.rows.now n)) es) }
    {
        for number in 0..self.heirs.len() {
            self.tell(number, seen, clashes);
        }
    }

    // All are told of the group with this number.
    fn tell_part(
        &self,
        group: &mut Group,
        index: usize,
        seen: &mut Vec<Seen>,
        clashes: &mut Vec<bool>,
    ) -> Result<(), NoMemory>
        requires index { index * 64 ≤ length self.now.claims.columns.items }
        requires seen { length seen.old.items ≡ length self.now.heirs.items }
        requires sized { length clashes.old.items ≡ length self.now.heirs.items }
        ensures seen { length seen.new.items ≡ length self.now.heirs.items }
        ensures sized { length clashes.new.items ≡ length self.now.heirs.items }
        ensures met { OnOk result ((before : List Bool) → AreMet self.now.graph.now self.now.rows.now self.now.claims.columns.items before (length self.now.heirs.items) (index * 64) clashes.old.items → AreMet self.now.graph.now self.now.rows.now self.now.claims.columns.items before (length self.now.heirs.items) ((index + 1) * 64) clashes.new.items) }
    {
        group.put(part(&self.claims.columns, index))?;
        show(group, &self.claims.by_name, seen);
        self.tell_all(seen, clashes);
        Ok(())
    }

    // All are told of all groups.
    fn tell_parts(
        &self,
        group: &mut Group,
        seen: &mut Vec<Seen>,
        clashes: &mut Vec<bool>,
    ) -> Result<(), NoMemory>
        requires seen { length seen.old.items ≡ length self.now.heirs.items }
        requires sized { length clashes.old.items ≡ length self.now.heirs.items }
        ensures sized { length clashes.new.items ≡ length self.now.heirs.items }
        ensures clashes { OnOk result ((n : ℕ) → n < length self.now.heirs.items → get_or clashes.new.items n false ≡ (get_or clashes.old.items n false || clashes_by_descent self.now.graph.now self.now.rows.now n)) }
    {
        for index in 0..self.claims.columns.len() / 64 + 1 {
            self.tell_part(group, index, seen, clashes)?;
        }
        Ok(())
    }

    fn tell_with(
        &self,
        alloc: Global,
        seen: &mut Vec<Seen>,
        clashes: &mut Vec<bool>,
    ) -> Result<(), NoMemory>
        requires seen { length seen.old.items ≡ length self.now.heirs.items }
        requires sized { length clashes.old.items ≡ length self.now.heirs.items }
        ensures sized { length clashes.new.items ≡ length self.now.heirs.items }
        ensures clashes { OnOk result ((n : ℕ) → n < length self.now.heirs.items → get_or clashes.new.items n false ≡ (get_or clashes.old.items n false || clashes_by_descent self.now.graph.now self.now.rows.now n)) }
    {
        let mut group = Group::new(alloc);
        self.tell_parts(&mut group, seen, clashes)
    }

    /// Notes for each whether two entries clash that it has, by descent too.
    pub(crate) fn note(&self, alloc: Global, clashes: &mut Vec<bool>) -> Result<(), NoMemory>
        requires sized { length clashes.old.items ≡ length self.now.heirs.items }
        ensures sized { length clashes.new.items ≡ length self.now.heirs.items }
        ensures clashes { OnOk result ((n : ℕ) → n < length self.now.heirs.items → get_or clashes.new.items n false ≡ (get_or clashes.old.items n false || clashes_by_descent self.now.graph.now self.now.rows.now n)) }
    {
        let mut seen = vec![in alloc; Seen::nothing(); self.heirs.len()]?;
        self.tell_with(alloc, &mut seen, clashes)
    }
}
