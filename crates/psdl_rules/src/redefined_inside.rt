// Identifiers that are declared twice inside a declaration.
ghost use Rattle.std.specs.Prelude.{◌≡◌, ◌<◌, ◌||◌, ℕ, List, map, OnOk, IfOk};
ghost use Rattle.std.specs.List.{flat_map};
ghost use Rattle.std.specs.Str.{bytes_eq};
ghost use Rattle.psdl_tree.specs.Views.{operation_view};
ghost use Rattle.psdl_directory.specs.declared.fault.CheckKind.TheVariants.{Redefined};
ghost use Rattle.psdl_directory.specs.Fault.{each, fault_if};
ghost use Rattle.psdl_directory.specs.Lookup.{at, lower};
ghost use Rattle.psdl_directory.specs.Noting.{noting};
ghost use Rattle.psdl_directory.specs.Parts as parts;
ghost use Rattle.psdl_directory.specs.inner.Nodes.{what_view};
ghost use Rattle.psdl_rules.specs.Faults.Redefined as conditions;
ghost use Rattle.psdl_rules.specs.Texts.{judged};
ghost use Rattle.psdl_rules.specs.inner.Scopes.{has_name};

use crate::operations::operations;
use crate::scopes::{body_names, parameter_names};
use crate::text::Text;
use psdl_directory::{CheckKind, DeclarationNo, Least, What, in_small_letters};
use psdl_tree::{Identifier, Operation};
use pss_base::NoMemory;
use std::alloc::Global;
use std::collections::BTreeSet;

/// Enters a name, unless it is there. Answers whether it was.
pub(crate) fn enter(names: &mut BTreeSet<Vec<u8>>, name: Vec<u8>) -> Result<bool, NoMemory>
    ensures there { IfOk result (λ r. r ≡ has_name names.old name.items) }
    ensures names { OnOk result ((q : List ℕ) → has_name names.new q ≡ (bytes_eq q name.items || has_name names.old q)) }
{
    let is_new = names.insert(name)?;
    Ok(!is_new)
}

fn redefined_identifier(
    alloc: Global,
    names: &mut BTreeSet<Vec<u8>>,
    identifier: &Identifier,
    least: &mut Least,
) -> Result<(), NoMemory>
    ensures noted { OnOk result (least.new ≡ noting least.old (fault_if (has_name names.old (lower identifier.now.name)) Redefined identifier.now.place)) }
    ensures names { OnOk result ((q : List ℕ) → has_name names.new q ≡ (bytes_eq q (lower identifier.now.name) || has_name names.old q)) }
{
    let spelled = in_small_letters(alloc, identifier.name.as_slice())?;
    let there = enter(names, spelled)?;
    least.note_if(there, CheckKind::Redefined, identifier.place);
    Ok(())
}

fn redefined_in(
    alloc: Global,
    identifiers: &[&Identifier],
    least: &mut Least,
) -> Result<(), NoMemory>
    ensures { OnOk result (least.new ≡ noting least.old (conditions.redefined_in (map (λ i. i.now) identifiers.now))) }
{
    let mut names = BTreeSet::new(alloc);
    for identifier in identifiers {
        redefined_identifier(alloc, &mut names, identifier, least)?;
    }
    Ok(())
}

fn redefined_parameters(
    alloc: Global,
    operation: &Operation,
    least: &mut Least,
) -> Result<(), NoMemory>
    ensures { OnOk result (least.new ≡ noting least.old (conditions.redefined_in (parts.parameter_names (operation_view operation.now)))) }
{
    let names = parameter_names(alloc, operation)?;
    redefined_in(alloc, &names, least)?;
    Ok(())
}

#[tactic(auto, using(crate::proofs::Parts::by_parts))]
fn redefined_in_operations(
    alloc: Global,
    operations: &[&Operation],
    least: &mut Least,
) -> Result<(), NoMemory>
    ensures { OnOk result (least.new ≡ noting least.old (flat_map conditions.redefined_in (map parts.parameter_names (map (λ o. operation_view o.now) operations.now)))) }
{
    for operation in operations {
        redefined_parameters(alloc, operation, least)?;
    }
    Ok(())
}

fn redefined_in_body(alloc: Global, what: What<'_>, least: &mut Least) -> Result<(), NoMemory>
    ensures { OnOk result (least.new ≡ noting least.old (conditions.redefined_in (parts.body_names (what_view what.entry)))) }
{
    let names = body_names(alloc, what)?;
    redefined_in(alloc, &names, least)?;
    Ok(())
}

fn redefined_in_lists(alloc: Global, what: What<'_>, least: &mut Least) -> Result<(), NoMemory>
    ensures { OnOk result (least.new ≡ noting least.old (flat_map conditions.redefined_in (map parts.parameter_names (parts.operations (what_view what.entry))))) }
{
    let operations = operations(alloc, what)?;
    redefined_in_operations(alloc, &operations, least)?;
    Ok(())
}

#[tactic(auto, using(crate::proofs::Parts::by_parts))]
fn redefined_inside_at(
    alloc: Global,
    text: &Text,
    number: DeclarationNo,
    least: &mut Least,
) -> Result<(), NoMemory>
    ensures { OnOk result (least.new ≡ noting least.old (conditions.redefined_inside number (at (judged text.now) number))) }
{
    redefined_in_body(alloc, text.what(number), least)?;
    redefined_in_lists(alloc, text.what(number), least)?;
    Ok(())
}

/// Notes each identifier of a body or of a list of parameters that equals, but for case, an earlier one of it.
pub(crate) fn redefined_inside(
    alloc: Global,
    text: &Text,
    least: &mut Least,
) -> Result<(), NoMemory>
    ensures { OnOk result (least.new ≡ noting least.old (each conditions.redefined_inside (judged text.now))) }
{
    for index in 0..text.len() {
        redefined_inside_at(alloc, text, DeclarationNo::new(index), least)?;
    }
    Ok(())
}
