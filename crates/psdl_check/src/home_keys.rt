// The keys that homes have, their own and by descent, each once.
ghost use Rattle.std.specs.Prelude.{◌≡◌, ◌++◌, ◌∷◌, ◌<◌, [], ℕ, List, Some, nat_lt, length, map, IfOk, OnOk};
ghost use Rattle.std.specs.List.{flat_map};
ghost use Rattle.psdl_lineage.specs.Descent.{Listed as ListedView};
ghost use Rattle.psdl_lineage.specs.Graph.{graph_of};
ghost use Rattle.psdl_lineage.specs.Lineages.{text_of};
ghost use Rattle.psdl_check.specs.declared.key_rows.KeyIds.{KeyIds as Ids};
ghost use Rattle.psdl_check.specs.inner.Gathered.{AreGathered, AreBelow, keyed_rows};
ghost use Rattle.psdl_check.specs.inner.HeldKeys.{held_by};
ghost use Rattle.psdl_check.specs.inner.KeyIds.{id_of, own_view, own_views, HaveIds};
ghost use Rattle.psdl_check.specs.inner.KeyRowed.{row_in};

use crate::key_rows::{KeyRows, OwnKey};
use psdl_directory::DeclarationNo;
use psdl_lineage::{Lineage, Marks, Sources};
use pss_base::NoMemory;
use std::alloc::Global;

/// What is asked for the keys of homes: the homes that have keys in their bodies, and marks of the numbers of keys.
#[derive(Drop)]
pub(crate) struct HomeKeys<'t, 'd> {
    lineage: &'t Lineage<'t, 'd>,
    sources: Sources<'t>,
    marks: Marks,
    ghost graphed: { sources.graph ≡ graph_of (text_of lineage.now) },
}

/// A key that a home has, and whether its base has it too.
#[derive(Clone, Copy)]
pub(crate) struct HeldKey<'d> {
    pub key: OwnKey<'d>,
    pub of_base: bool,
}

// A declaration has a key in its body.
fn has_keys(rows: &KeyRows<'_>, declaration: usize) -> bool
    ensures { result ≡ nat_lt 0 (length (row_in rows.now.rows.items declaration)) }
{
    match rows.of(declaration) {
        Some(row) => !row.is_empty(),
        None => false,
    }
}

// Which declarations have keys in their bodies.
fn keyed(alloc: Global, rows: &KeyRows<'_>, count: usize) -> Result<Vec<bool>, NoMemory>
    ensures { IfOk result (λ v. v.items ≡ keyed_rows rows.now.rows.items count) }
{
    let mut flags = Vec::new(alloc);
    for index in 0..count {
        flags.push(has_keys(rows, index))?;
    }
    Ok(flags)
}

// Adds a key, unless its number is marked.
fn add<'d>(found: &mut Vec<OwnKey<'d>>, marks: &mut Marks, key: OwnKey<'d>) -> Result<(), NoMemory>
    requires below { key.id < length marks.old }
    ensures sized { length marks.new ≡ length marks.old }
    ensures gathered { OnOk result ((ids : Ids) (all : List ListedView) → id_of ids (own_view key.entry) ≡ Some key.entry.id → AreGathered ids marks.old found.old.items all → AreGathered ids marks.new found.new.items (all ++ own_view key.entry ∷ [])) }
{
    if marks.has(key.id) {
        return Ok(());
    }
    marks.mark(key.id);
    found.push(key)?;
    Ok(())
}

// Adds the keys of a body that are not marked.
fn add_all<'d>(
    found: &mut Vec<OwnKey<'d>>,
    marks: &mut Marks,
    keys: &[OwnKey<'d>],
) -> Result<(), NoMemory>
    requires below { AreBelow (length marks.old) keys.now }
    ensures sized { length marks.new ≡ length marks.old }
    ensures gathered { OnOk result ((ids : Ids) (all : List ListedView) → HaveIds ids keys.now → AreGathered ids marks.old found.old.items all → AreGathered ids marks.new found.new.items (all ++ own_views keys.now)) }
{
    for key in keys {
        add(found, marks, *key)?;
    }
    Ok(())
}

// Adds the keys of a declaration's body that are not marked.
fn add_body<'d>(
    found: &mut Vec<OwnKey<'d>>,
    marks: &mut Marks,
    rows: &KeyRows<'d>,
    body: DeclarationNo,
) -> Result<(), NoMemory>
    requires below { AreBelow (length marks.old) (row_in rows.now.rows.items body) }
    ensures sized { length marks.new ≡ length marks.old }
    ensures gathered { OnOk result ((ids : Ids) (all : List ListedView) → HaveIds ids (row_in rows.now.rows.items body) → AreGathered ids marks.old found.old.items all → AreGathered ids marks.new found.new.items (all ++ own_views (row_in rows.now.rows.items body))) }
{
    match rows.of(body.index()) {
        Some(row) => add_all(found, marks, row),
        None => Ok(()),
    }
}

// Adds the keys of these bodies that are not marked.
fn add_bodies<'d>(
    found: &mut Vec<OwnKey<'d>>,
    marks: &mut Marks,
    rows: &KeyRows<'d>,
    bodies: &[DeclarationNo],
) -> Result<(), NoMemory>
    requires below { (n : ℕ) → AreBelow (length marks.old) (row_in rows.now.rows.items n) }
    ensures sized { length marks.new ≡ length marks.old }
    ensures gathered { OnOk result ((ids : Ids) (all : List ListedView) → ((n : ℕ) → HaveIds ids (row_in rows.now.rows.items n)) → AreGathered ids marks.old found.old.items all → AreGathered ids marks.new found.new.items (all ++ flat_map (λ n. own_views (row_in rows.now.rows.items n)) bodies.now)) }
{
    for body in bodies {
        add_body(found, marks, rows, *body)?;
    }
    Ok(())
}

// Keys, each with its mark.
fn with_marks<'d>(
    alloc: Global,
    marks: &Marks,
    keys: &[OwnKey<'d>],
) -> Result<Vec<HeldKey<'d>>, NoMemory>
    requires { AreBelow (length marks.now) keys.now }
    ensures { IfOk result (λ v. v.items ≡ map (held_by marks.now) keys.now) }
{
    let mut held = Vec::new(alloc);
    for key in keys {
        held.push(HeldKey {
            key: *key,
            of_base: marks.has(key.id),
        })?;
    }
    Ok(held)
}

impl<'t, 'd> HomeKeys<'t, 'd> {
    ghost use Rattle.std.specs.Prelude.{◌≡◌, [], IfOk, OnOk, length};
    ghost use Rattle.type_layout.specs.Schemas.{given};
    ghost use Rattle.psdl_check.specs.inner.HeldKeys.{AreMarked, AreHeld};
    ghost use Rattle.psdl_lineage.specs.Descent.{home_keys};
    ghost use Rattle.psdl_lineage.specs.Lineages.{text_of};
    ghost use Rattle.psdl_check.specs.inner.KeyIds.{own_views, HaveIds};
    ghost use Rattle.psdl_check.specs.inner.KeyRowed.{AreRows};
    ghost use Rattle.psdl_check.specs.inner.KeyTexts.{IsKeyed};

    /// What is asked for the homes of a text.
    pub(crate) fn new(
        alloc: Global,
        lineage: &'t Lineage<'t, 'd>,
        rows: &KeyRows<'_>,
    ) -> Result<HomeKeys<'t, 'd>, NoMemory>
        requires { AreRows (text_of lineage.now) rows.now.ids rows.now.rows.items }
        ensures { IfOk result (λ k. IsKeyed (text_of lineage.now) rows.now k) }
    {
        let flags = keyed(alloc, rows, lineage.directory().len())?;
        let sources = Sources::new(alloc, lineage, flags)?;
        let marks = Marks::new(alloc, rows.ids.len())?;
        Ok(HomeKeys {
            lineage,
            sources,
            marks,
        })
    }

    /// The keys that a home has, in the order of its lines of descent.
    pub(crate) fn of(
        &mut self,
        alloc: Global,
        rows: &KeyRows<'d>,
        home: DeclarationNo,
    ) -> Result<Vec<OwnKey<'d>>, NoMemory>
        requires rows { AreRows (text_of self.old.lineage.now) rows.now.ids rows.now.rows.items }
        requires keyed { IsKeyed (text_of self.old.lineage.now) rows.now self.old }
        ensures keyed { IsKeyed (text_of self.old.lineage.now) rows.now self.new }
        ensures same { text_of self.new.lineage.now ≡ text_of self.old.lineage.now }
        ensures keys { IfOk result (λ v. own_views v.items ≡ home_keys (text_of self.old.lineage.now) home) }
        ensures ids { IfOk result (λ v. HaveIds rows.now.ids v.items) }
        ensures marked { IfOk result (λ _. AreMarked rows.now.ids self.new.marks (home_keys (text_of self.old.lineage.now) home)) }
    {
        self.marks.clear();
        let bodies = self.sources.of(alloc, home)?;
        let mut found = Vec::new(alloc);
        add_bodies(&mut found, &mut self.marks, rows, &bodies)?;
        Ok(found)
    }

    // Marks the keys of a home's base.
    fn mark_base(
        &mut self,
        alloc: Global,
        rows: &KeyRows<'d>,
        base: Option<DeclarationNo>,
    ) -> Result<(), NoMemory>
        requires rows { AreRows (text_of self.old.lineage.now) rows.now.ids rows.now.rows.items }
        requires keyed { IsKeyed (text_of self.old.lineage.now) rows.now self.old }
        ensures keyed { IsKeyed (text_of self.old.lineage.now) rows.now self.new }
        ensures same { text_of self.new.lineage.now ≡ text_of self.old.lineage.now }
        ensures marked { OnOk result (AreMarked rows.now.ids self.new.marks (given base [] (home_keys (text_of self.old.lineage.now)))) }
    {
        match base {
            Some(home) => {
                let _keys = self.of(alloc, rows, home)?;
                Ok(())
            }
            None => {
                self.marks.clear();
                Ok(())
            }
        }
    }

    /// The keys that a home has, and which of them its base has too.
    pub(crate) fn held(
        &mut self,
        alloc: Global,
        rows: &KeyRows<'d>,
        home: DeclarationNo,
        base: Option<DeclarationNo>,
    ) -> Result<Vec<HeldKey<'d>>, NoMemory>
        requires rows { AreRows (text_of self.old.lineage.now) rows.now.ids rows.now.rows.items }
        requires keyed { IsKeyed (text_of self.old.lineage.now) rows.now self.old }
        ensures keyed { IsKeyed (text_of self.old.lineage.now) rows.now self.new }
        ensures same { text_of self.new.lineage.now ≡ text_of self.old.lineage.now }
        ensures held { IfOk result (λ v. AreHeld (text_of self.old.lineage.now) rows.now.ids home base v.items) }
    {
        let keys = self.of(alloc, rows, home)?;
        self.mark_base(alloc, rows, base)?;
        let held = with_marks(alloc, &self.marks, &keys)?;
        Ok(held)
    }
}
