// Declarations that take the name of earlier ones.
ghost use Rattle.std.specs.Prelude.{◌≡◌, ◌<◌, ◌||◌, length, take, IfOk, IfSome, OnOk};
ghost use Rattle.std.specs.List.{list_any};
ghost use Rattle.psdl_directory.specs.Directories.{all_of};
ghost use Rattle.psdl_directory.specs.Fault.{each};
ghost use Rattle.psdl_directory.specs.Lookup.{at, definition};
ghost use Rattle.psdl_directory.specs.Noting.{noting};
ghost use Rattle.psdl_directory.specs.Parts.{is_module, is_forward};
ghost use Rattle.psdl_directory.specs.inner.Nodes.{what_view};
ghost use Rattle.psdl_rules.specs.Faults.Redefined as conditions;
ghost use Rattle.psdl_rules.specs.Faults.Redefined.{takes_name_of};
ghost use Rattle.psdl_rules.specs.Texts.{judged};
ghost use Rattle.psdl_rules.specs.inner.Others as of;

use crate::text::Text;
use psdl_directory::{CheckKind, DeclarationNo, Directory, Least, What, same_kind};
use pss_base::NoMemory;
use std::alloc::Global;

// The first in its scope whose name is the same but for case.
fn first_alike(directory: &Directory<'_>, number: DeclarationNo) -> Option<DeclarationNo>
    requires { number < length (all_of directory.now) }
    ensures first { result ≡ of.first_alike (all_of directory.now) number }
    ensures there { IfSome result (λ f. f < length (all_of directory.now)) }
{
    directory.first_alike(number)
}

fn same_thing(directory: &Directory<'_>, first: DeclarationNo, second: DeclarationNo) -> bool
    ensures { result ≡ of.same_thing (at (all_of directory.now) first) (at (all_of directory.now) second) }
{
    directory.name(first) == directory.name(second)
        && same_kind(directory.what(first), directory.what(second))
}

// Keeps a declaration that is another thing than the first of its name, where none is kept.
fn keep(directory: &Directory<'_>, others: &mut Vec<Option<DeclarationNo>>, number: DeclarationNo)
    requires number { number < length (all_of directory.now) }
    requires sized { length others.old.items ≡ length (all_of directory.now) }
    ensures sized { length others.new.items ≡ length others.old.items }
    ensures noted { others.new.items ≡ of.noted (all_of directory.now) others.old.items number }
{
    if let Some(first) = first_alike(directory, number) {
        let index = first.index();
        if others[index].is_none() && !same_thing(directory, first, number) {
            others[index] = Some(number);
        }
    }
}

// For each declaration that is the first of its name but for case: the first that is another thing of that name.
fn others(alloc: Global, directory: &Directory<'_>) -> Result<Vec<Option<DeclarationNo>>, NoMemory>
    ensures sized { IfOk result (λ v. length v.items ≡ length (all_of directory.now)) }
    ensures others { IfOk result (λ v. of.AreOthers (all_of directory.now) (all_of directory.now) v.items) }
{
    let mut others = vec![in alloc; None; directory.len()]?;
    for number in 0..directory.len() {
        keep(directory, &mut others, DeclarationNo::new(number));
    }
    Ok(others)
}

fn is_below(found: Option<DeclarationNo>, number: DeclarationNo) -> bool
    ensures { result ≡ of.is_below found number }
{
    match found {
        Some(at) => at.index() < number.index(),
        None => false,
    }
}

// A module may be opened again, and a forward declaration stands beside others and the definition.
fn may_stand_again(what: What<'_>) -> bool
    ensures { result ≡ (is_module (what_view what.entry) || is_forward (what_view what.entry)) }
{
    matches!(what, What::Module(_)) || what.is_forward()
}

fn is_defined_before(directory: &Directory<'_>, number: DeclarationNo) -> bool
    requires { number < length (all_of directory.now) }
    ensures { result ≡ of.is_below (definition (all_of directory.now) number) number }
{
    is_below(directory.definition(number), number)
}

fn is_taken(
    directory: &Directory<'_>,
    first: DeclarationNo,
    other: Option<DeclarationNo>,
    number: DeclarationNo,
) -> bool
    requires { number < length (all_of directory.now) }
    ensures { result ≡ of.is_taken (all_of directory.now) first other number }
{
    if !same_thing(directory, first, number) || is_below(other, number) {
        return true;
    }
    if may_stand_again(directory.what(number)) {
        return false;
    }
    is_defined_before(directory, number)
}

fn takes_name(
    directory: &Directory<'_>,
    others: &[Option<DeclarationNo>],
    number: DeclarationNo,
) -> bool
    requires number { number < length (all_of directory.now) }
    requires sized { length others.now ≡ length (all_of directory.now) }
    requires others { of.AreOthers (all_of directory.now) (all_of directory.now) others.now }
    ensures { result ≡ list_any (takes_name_of (at (all_of directory.now) number)) (take number (all_of directory.now)) }
{
    match first_alike(directory, number) {
        None => false,
        Some(first) => {
            if !is_below(Some(first), number) {
                return false;
            }
            is_taken(directory, first, others[first.index()], number)
        }
    }
}

fn taken_name_at(
    text: &Text,
    others: &[Option<DeclarationNo>],
    number: DeclarationNo,
    least: &mut Least,
)
    requires number { number < length (judged text.now) }
    requires sized { length others.now ≡ length (judged text.now) }
    requires others { of.AreOthers (judged text.now) (judged text.now) others.now }
    ensures { least.new ≡ noting least.old (conditions.redefined (judged text.now) number (at (judged text.now) number)) }
{
    let holds = takes_name(text.directory(), others, number);
    least.note_if(holds, CheckKind::Redefined, text.place(number));
}

/// Notes each declaration that has, but for case, the name of an earlier one of its scope, and is not the same thing again.
pub(crate) fn taken_names(alloc: Global, text: &Text, least: &mut Least) -> Result<(), NoMemory>
    ensures { OnOk result (least.new ≡ noting least.old (each (conditions.redefined (judged text.now)) (judged text.now))) }
{
    let others = others(alloc, text.directory())?;
    for index in 0..text.len() {
        taken_name_at(text, &others, DeclarationNo::new(index), least);
    }
    Ok(())
}
