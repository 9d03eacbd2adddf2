// Which homes have types that descend from a definition. One pass over all declarations tells it of 64 definitions, each
// with a bit of its own: references may mean thousands of definitions, and a pass for each would cost much more than the text.
ghost use Rattle.std.specs.Prelude.{◌≡◌, ◌<◌, ◌*◌, ◌+◌, ◌==◌, ◌||◌, ℕ, Bool, length, map, filter, IfOk};
ghost use Rattle.std.proofs.Common.{get_or};
ghost use Rattle.std.specs.List.{list_any};
ghost use Rattle.psdl_lineage.specs.Descent.{concrete_homes};
ghost use Rattle.psdl_lineage.specs.Graph.{conforms_in};
ghost use Rattle.psdl_check.specs.Schemas as schemas;
ghost use Rattle.psdl_check.specs.inner.Masks.{has_bit, IsGroup, type_mask};
ghost use Rattle.psdl_check.specs.inner.Rising.{IsRising};
ghost use Rattle.psdl_check.specs.inner.Texts.{text_in};

use crate::text::Text;
use psdl_directory::DeclarationNo;
use psdl_lineage::Graph;
use psdl_members::mask_at;
use pss_base::NoMemory;
use std::alloc::Global;
use type_layout::HomeNo;

/// For each group of 64 definitions that was asked about a mask of each home: which of them its type descends from.
#[derive(Drop)]
pub(crate) struct Heirs {
    groups: Vec<Option<Vec<u64>>>,
}

fn has_bit(mask: u64, bit: usize) -> bool
    requires { bit < 64 }
    ensures { result ≡ has_bit mask bit }
{
    mask >> bit & 1 == 1
}

// The bit of a declaration itself, where it is of the group.
fn own_mask(number: usize, group: usize) -> u64
    ensures { (k : ℕ) → k < 64 → has_bit result k ≡ (number == group * 64 + k) }
{
    if number / 64 != group {
        return 0;
    }
    1 << (number % 64)
}

fn joined_mask(masks: &[u64], numbers: &[usize]) -> u64
    ensures { (k : ℕ) → has_bit result k ≡ list_any (λ p. has_bit (get_or masks.now p 0) k) numbers.now }
{
    let mut joined = 0;
    for number in numbers {
        joined |= mask_at(masks, *number);
    }
    joined
}

// A declaration is one of a group, or names heirs of it.
fn heir_mask(masks: &[u64], parents: &[usize], number: usize, group: usize) -> u64
    ensures { (k : ℕ) → k < 64 → has_bit result k ≡ ((number == group * 64 + k) || list_any (λ p. has_bit (get_or masks.now p 0) k) parents.now) }
{
    own_mask(number, group) | joined_mask(masks, parents)
}

// Which definitions of a group each declaration descends from. Each stands behind those that it names.
fn heir_masks(alloc: Global, graph: &Graph, group: usize) -> Result<Vec<u64>, NoMemory>
    requires { IsRising graph.now }
    ensures { IfOk result (λ v. (n k : ℕ) → n < length graph.now → k < 64 → has_bit (get_or v.items n 0) k ≡ conforms_in graph.now n (group * 64 + k)) }
{
    let mut masks = vec![in alloc; 0; graph.len()]?;
    for number in 0..graph.len() {
        let mask = heir_mask(&masks, graph.parents(number), number, group);
        masks[number] = mask;
    }
    Ok(masks)
}

// The mask of a home's type.
fn mask_of_type(text: &Text, masks: &[u64], home: DeclarationNo) -> u64
    ensures { result ≡ type_mask (text_in text.now) masks.now home }
{
    match text.lineage.type_of_home(home) {
        Some(home_type) => mask_at(masks, home_type.index()),
        None => 0,
    }
}

// The masks of the types of all homes.
fn masks_of_types(alloc: Global, text: &Text, masks: &[u64]) -> Result<Vec<u64>, NoMemory>
    ensures { IfOk result (λ v. v.items ≡ map (type_mask (text_in text.now) masks.now) (concrete_homes (text_in text.now))) }
{
    let mut kept = Vec::new(alloc);
    for place in 0..text.lineage.home_count() {
        let Some(home) = text.lineage.home(place) else {
            return Ok(kept);
        };
        kept.push(mask_of_type(text, masks, home))?;
    }
    Ok(kept)
}

// The masks of all homes for a group.
fn masks_of_homes(alloc: Global, text: &Text, group: usize) -> Result<Vec<u64>, NoMemory>
    ensures { IfOk result (λ v. IsGroup (text_in text.now) group v.items) }
{
    let masks = heir_masks(alloc, text.graph(), group)?;
    let kept = masks_of_types(alloc, text, &masks)?;
    Ok(kept)
}

// The homes whose masks have this bit, rising.
fn homes_with(
    alloc: Global,
    text: &Text,
    masks: &[u64],
    bit: usize,
) -> Result<Vec<HomeNo>, NoMemory>
    requires { bit < 64 }
    ensures { IfOk result (λ v. (test : ℕ → Bool) → map (λ m. has_bit m bit) masks.now ≡ map test (concrete_homes (text_in text.now)) → v.items ≡ map (schemas.home_no (text_in text.now)) (filter test (concrete_homes (text_in text.now)))) }
{
    let mut homes = Vec::new(alloc);
    for place in 0..text.lineage.home_count() {
        let Some(home) = text.lineage.home(place) else {
            return Ok(homes);
        };
        if has_bit(mask_at(masks, place), bit) {
            homes.push(text.home_no(home))?;
        }
    }
    Ok(homes)
}

impl Heirs {
    ghost use Rattle.std.specs.Prelude.{◌≡◌, ◌<◌, ◌==◌, ℕ, List, Some, length, is_some, IfOk, OnOk, if◌then◌else◌};
    ghost use Rattle.psdl_directory.specs.Declarations.{Declaration};
    ghost use Rattle.psdl_check.specs.Schemas as schemas;
    ghost use Rattle.psdl_check.specs.inner.Masks.{AreGroups, IsGroup, group_at, masks_in};
    ghost use Rattle.psdl_check.specs.inner.Texts.{text_in};

    /// Nothing was asked.
    pub(crate) fn new(alloc: Global) -> Heirs
        ensures { (all : List Declaration) → AreGroups all result }
    {
        Heirs {
            groups: Vec::new(alloc),
        }
    }

    fn holds(&self, group: usize) -> bool
        ensures { result ≡ is_some (group_at self.now group) }
    {
        match self.groups.get(group) {
            Some(masks) => masks.is_some(),
            None => false,
        }
    }

    // There is a place for a group.
    fn make_place(&mut self, group: usize) -> Result<(), NoMemory>
        ensures same { (n : ℕ) → group_at self.new n ≡ group_at self.old n }
        ensures place { OnOk result (group < length self.new.groups.items) }
    {
        while self.groups.len() <= group {
            self.groups.push(None)?;
        }
        Ok(())
    }

    fn keep(&mut self, group: usize, masks: Vec<u64>)
        requires { group < length self.old.groups.items }
        ensures { (n : ℕ) → group_at self.new n ≡ (if n == group then Some masks.items else group_at self.old n) }
    {
        self.groups[group] = Some(masks);
    }

    // With the masks of a group.
    fn learn(&mut self, alloc: Global, text: &Text, group: usize) -> Result<(), NoMemory>
        requires { AreGroups (text_in text.now) self.old }
        ensures groups { AreGroups (text_in text.now) self.new }
        ensures group { OnOk result (IsGroup (text_in text.now) group (masks_in self.new group)) }
    {
        if self.holds(group) {
            return Ok(());
        }
        self.make_place(group)?;
        let masks = masks_of_homes(alloc, text, group)?;
        self.keep(group, masks);
        Ok(())
    }

    fn masks(&self, group: usize) -> &[u64]
        ensures { result.now ≡ masks_in self.now group }
    {
        match self.groups.get(group) {
            Some(Some(masks)) => masks.as_slice(),
            _ => &[],
        }
    }

    /// The homes that a reference to a definition may have.
    pub(crate) fn referents(
        &mut self,
        alloc: Global,
        text: &Text,
        definition: usize,
    ) -> Result<Vec<HomeNo>, NoMemory>
        requires { AreGroups (text_in text.now) self.old }
        ensures groups { AreGroups (text_in text.now) self.new }
        ensures homes { IfOk result (λ v. v.items ≡ schemas.referents (text_in text.now) definition) }
    {
        let group = definition / 64;
        self.learn(alloc, text, group)?;
        let homes = homes_with(alloc, text, self.masks(group), definition % 64)?;
        Ok(homes)
    }
}
