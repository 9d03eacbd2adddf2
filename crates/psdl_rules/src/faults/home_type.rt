// C12: homes whose types do not go with those of their bases, or are of another kind.
ghost use Rattle.std.specs.Prelude.{◌≡◌, ◌||◌, IfOk, OnOk};
ghost use Rattle.std.specs.List.{flat_map, list_any};
ghost use Rattle.psdl_directory.specs.Fault.{each};
ghost use Rattle.psdl_directory.specs.Headers.{header};
ghost use Rattle.psdl_directory.specs.Lookup.{at};
ghost use Rattle.psdl_directory.specs.Noting.{noting};
ghost use Rattle.psdl_directory.specs.inner.Nodes.{what_view};
ghost use Rattle.psdl_lineage.specs.Descent.{type_of_home};
ghost use Rattle.psdl_lineage.specs.Lineages.{asked_of};
ghost use Rattle.psdl_rules.specs.Faults.HomeType as conditions;
ghost use Rattle.psdl_rules.specs.Texts.{judged};
ghost use Rattle.psdl_rules.specs.inner.Headed.{differs_as_base, is_other_use, managed_use};

use crate::home_types::types_with;
use crate::text::Text;
use psdl_directory::{CheckKind, DeclarationNo, Least, Use, What};
use psdl_lineage::Conformity;
use pss_base::NoMemory;
use std::alloc::Global;

// Whether a home and what stands behind its `of` are of different kinds.
fn is_other_kind(home: What<'_>, managed: What<'_>) -> bool
    ensures { result ≡ conditions.is_other_kind (what_view home.entry) (what_view managed.entry) }
{
    match home {
        What::AbstractHome(_) => managed.is_concrete_type(),
        What::ConcreteHome(_) => managed.is_abstract_type(),
        _ => false,
    }
}

fn is_other_use(text: &Text, number: DeclarationNo, used: &Use) -> bool
    ensures { result ≡ is_other_use (judged text.now) (at (judged text.now) number).what used.now }
{
    match used.meant {
        Some(meant) => is_other_kind(text.what(number), text.what(meant)),
        None => false,
    }
}

// Whether the type of a home does not go with that of the home that it names as base.
fn differs_from_base(
    alloc: Global,
    text: &Text,
    conformity: &mut Conformity,
    number: DeclarationNo,
    used: &Use,
) -> Result<bool, NoMemory>
    requires same { asked_of conformity.old ≡ judged text.now }
    ensures same { asked_of conformity.new ≡ judged text.now }
    ensures differs { IfOk result (λ r. r ≡ differs_as_base (judged text.now) (at (judged text.now) number).what (type_of_home (judged text.now) number) used.now) }
{
    let Some(types) = types_with(text, number, used) else {
        return Ok(false);
    };
    let is_concrete = text.what(number).is_concrete_home();
    let conforms = conformity.conforms(alloc, types.own, types.named)?;
    Ok(!conforms || (is_concrete && types.own == types.named))
}

// Whether the type of a home does not go with that of one of its bases.
fn differs_from_any(
    alloc: Global,
    text: &Text,
    conformity: &mut Conformity,
    number: DeclarationNo,
    bases: &[Use],
) -> Result<bool, NoMemory>
    requires same { asked_of conformity.old ≡ judged text.now }
    ensures same { asked_of conformity.new ≡ judged text.now }
    ensures differs { IfOk result (λ r. r ≡ list_any (differs_as_base (judged text.now) (at (judged text.now) number).what (type_of_home (judged text.now) number)) bases.now) }
{
    for base in bases {
        let differs = differs_from_base(alloc, text, conformity, number, base)?;
        if differs {
            return Ok(true);
        }
    }
    Ok(false)
}

#[tactic(auto, using(crate::proofs::Parts::by_order))]
fn managed_use(
    alloc: Global,
    text: &Text,
    conformity: &mut Conformity,
    number: DeclarationNo,
    used: &Use,
    least: &mut Least,
) -> Result<(), NoMemory>
    requires same { asked_of conformity.old ≡ judged text.now }
    ensures same { asked_of conformity.new ≡ judged text.now }
    ensures noted { OnOk result (least.new ≡ noting least.old (managed_use (judged text.now) number (at (judged text.now) number).what (header (judged text.now) number).bases used.now)) }
{
    if !least.comes_first(CheckKind::HomeType, used.place) {
        return Ok(());
    }
    let is_other = is_other_use(text, number, used);
    let differs = differs_from_any(alloc, text, conformity, number, text.bases(number))?;
    least.note_if(is_other || differs, CheckKind::HomeType, used.place);
    Ok(())
}

#[tactic(auto, using(crate::proofs::Parts::by_parts))]
fn managed_uses(
    alloc: Global,
    text: &Text,
    conformity: &mut Conformity,
    number: DeclarationNo,
    uses: &[Use],
    least: &mut Least,
) -> Result<(), NoMemory>
    requires same { asked_of conformity.old ≡ judged text.now }
    ensures same { asked_of conformity.new ≡ judged text.now }
    ensures noted { OnOk result (least.new ≡ noting least.old (flat_map (managed_use (judged text.now) number (at (judged text.now) number).what (header (judged text.now) number).bases) uses.now)) }
{
    for used in uses {
        managed_use(alloc, text, conformity, number, used, least)?;
    }
    Ok(())
}

fn home_type_at(
    alloc: Global,
    text: &Text,
    conformity: &mut Conformity,
    number: DeclarationNo,
    least: &mut Least,
) -> Result<(), NoMemory>
    requires same { asked_of conformity.old ≡ judged text.now }
    ensures same { asked_of conformity.new ≡ judged text.now }
    ensures noted { OnOk result (least.new ≡ noting least.old (conditions.home_type (judged text.now) number (at (judged text.now) number))) }
{
    managed_uses(alloc, text, conformity, number, text.managed(number), least)?;
    Ok(())
}

/// C12: a home's type does not conform to that of its base, or is that of its base though the home is concrete; or it is
/// abstract and the home is not, or the other way round.
pub(crate) fn home_type(alloc: Global, text: &Text, least: &mut Least) -> Result<(), NoMemory>
    ensures { OnOk result (least.new ≡ noting least.old (each (conditions.home_type (judged text.now)) (judged text.now))) }
{
    let mut conformity = Conformity::new(alloc, text.lineage())?;
    for index in 0..text.len() {
        let number = DeclarationNo::new(index);
        home_type_at(alloc, text, &mut conformity, number, least)?;
    }
    Ok(())
}
