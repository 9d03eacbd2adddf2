// C11: homes that implement others to whose types their own do not conform.
ghost use Rattle.std.specs.Prelude.{◌≡◌, IfOk, OnOk};
ghost use Rattle.std.specs.List.{flat_map};
ghost use Rattle.psdl_directory.specs.Fault.{each};
ghost use Rattle.psdl_directory.specs.Lookup.{at};
ghost use Rattle.psdl_directory.specs.Noting.{noting};
ghost use Rattle.psdl_lineage.specs.Descent.{type_of_home};
ghost use Rattle.psdl_lineage.specs.Lineages.{asked_of};
ghost use Rattle.psdl_rules.specs.Faults.NotImplemented as conditions;
ghost use Rattle.psdl_rules.specs.Texts.{judged};
ghost use Rattle.psdl_rules.specs.inner.Headed.{differs_from_use, implemented_use};

use crate::home_types::types_with;
use crate::text::Text;
use psdl_directory::{CheckKind, DeclarationNo, Least, Use};
use psdl_lineage::Conformity;
use pss_base::NoMemory;
use std::alloc::Global;

// The type of a home is there, and so is that of the home that it names, and the first does not conform to the second.
fn differs(
    alloc: Global,
    text: &Text,
    conformity: &mut Conformity,
    number: DeclarationNo,
    used: &Use,
) -> Result<bool, NoMemory>
    requires same { asked_of conformity.old ≡ judged text.now }
    ensures same { asked_of conformity.new ≡ judged text.now }
    ensures differs { IfOk result (λ r. r ≡ differs_from_use (judged text.now) (type_of_home (judged text.now) number) used.now) }
{
    let Some(types) = types_with(text, number, used) else {
        return Ok(false);
    };
    let conforms = conformity.conforms(alloc, types.own, types.named)?;
    Ok(!conforms)
}

#[tactic(auto, using(crate::proofs::Parts::by_order))]
fn implemented_use(
    alloc: Global,
    text: &Text,
    conformity: &mut Conformity,
    number: DeclarationNo,
    used: &Use,
    least: &mut Least,
) -> Result<(), NoMemory>
    requires same { asked_of conformity.old ≡ judged text.now }
    ensures same { asked_of conformity.new ≡ judged text.now }
    ensures noted { OnOk result (least.new ≡ noting least.old (implemented_use (judged text.now) (type_of_home (judged text.now) number) used.now)) }
{
    if !least.comes_first(CheckKind::NotImplemented, used.place) {
        return Ok(());
    }
    let holds = differs(alloc, text, conformity, number, used)?;
    least.note_if(holds, CheckKind::NotImplemented, used.place);
    Ok(())
}

#[tactic(auto, using(crate::proofs::Parts::by_parts))]
fn implemented_uses(
    alloc: Global,
    text: &Text,
    conformity: &mut Conformity,
    number: DeclarationNo,
    uses: &[Use],
    least: &mut Least,
) -> Result<(), NoMemory>
    requires same { asked_of conformity.old ≡ judged text.now }
    ensures same { asked_of conformity.new ≡ judged text.now }
    ensures noted { OnOk result (least.new ≡ noting least.old (flat_map (implemented_use (judged text.now) (type_of_home (judged text.now) number)) uses.now)) }
{
    for used in uses {
        implemented_use(alloc, text, conformity, number, used, least)?;
    }
    Ok(())
}

fn not_implemented_at(
    alloc: Global,
    text: &Text,
    conformity: &mut Conformity,
    number: DeclarationNo,
    least: &mut Least,
) -> Result<(), NoMemory>
    requires same { asked_of conformity.old ≡ judged text.now }
    ensures same { asked_of conformity.new ≡ judged text.now }
    ensures noted { OnOk result (least.new ≡ noting least.old (conditions.not_implemented (judged text.now) number (at (judged text.now) number))) }
{
    implemented_uses(
        alloc,
        text,
        conformity,
        number,
        text.implemented(number),
        least,
    )?;
    Ok(())
}

/// C11: a home implements an abstract home to whose type its own does not conform.
pub(crate) fn not_implemented(alloc: Global, text: &Text, least: &mut Least) -> Result<(), NoMemory>
    ensures { OnOk result (least.new ≡ noting least.old (each (conditions.not_implemented (judged text.now)) (judged text.now))) }
{
    let mut conformity = Conformity::new(alloc, text.lineage())?;
    for index in 0..text.len() {
        let number = DeclarationNo::new(index);
        not_implemented_at(alloc, text, &mut conformity, number, least)?;
    }
    Ok(())
}
