// C5: names of what is only declared so far, and forward declarations that are never defined.
ghost use Rattle.std.specs.Prelude.{◌≡◌, ◌<◌, is_none, ◌&&◌, length};
ghost use Rattle.std.specs.List.{flat_map};
ghost use Rattle.psdl_directory.specs.Fault.{each};
ghost use Rattle.psdl_directory.specs.Headers.{header};
ghost use Rattle.psdl_directory.specs.Lookup.{at, definition};
ghost use Rattle.psdl_directory.specs.Noting.{noting};
ghost use Rattle.psdl_directory.specs.Parts as parts;
ghost use Rattle.psdl_rules.specs.Faults.Incomplete as conditions;
ghost use Rattle.psdl_rules.specs.Texts.{judged};
ghost use Rattle.psdl_rules.specs.inner.Headed.{above, is_forward_use, forward_use};

use crate::text::Text;
use psdl_directory::{CheckKind, DeclarationNo, Least, Use};

fn is_forward_use(number: DeclarationNo, used: &Use) -> bool
    ensures { result ≡ is_forward_use number used.now }
{
    match used.meant {
        None => false,
        Some(_) => match used.defined {
            Some(defined) => defined.index() > number.index(),
            None => true,
        },
    }
}

#[tactic(auto, using(crate::proofs::Parts::by_parts))]
fn forward_uses(number: DeclarationNo, uses: &[Use], least: &mut Least)
    ensures { least.new ≡ noting least.old (flat_map (forward_use number) uses.now) }
{
    for used in uses {
        let holds = is_forward_use(number, used);
        least.note_if(holds, CheckKind::Incomplete, used.place);
    }
}

#[tactic(auto, using(crate::proofs::Parts::by_parts))]
fn header_uses(text: &Text, number: DeclarationNo, least: &mut Least)
    ensures { least.new ≡ noting least.old (flat_map (forward_use number) (above (header (judged text.now) number))) }
{
    forward_uses(number, text.bases(number), least);
    forward_uses(number, text.implemented(number), least);
    forward_uses(number, text.managed(number), least);
}

fn is_never_defined(text: &Text, number: DeclarationNo) -> bool
    ensures { number < length (judged text.now) → result ≡ (parts.is_forward (at (judged text.now) number).what && is_none (definition (judged text.now) number)) }
{
    let is_forward = text.what(number).is_forward();
    if !is_forward {
        return false;
    }
    match text.directory().definition(number) {
        Some(_) => false,
        None => true,
    }
}

fn incomplete_at(text: &Text, number: DeclarationNo, least: &mut Least)
    ensures { number < length (judged text.now) → least.new ≡ noting least.old (conditions.incomplete (judged text.now) number (at (judged text.now) number)) }
{
    let holds = is_never_defined(text, number);
    least.note_if(holds, CheckKind::Incomplete, text.place(number));
    header_uses(text, number, least);
}

/// C5: a type or home that is only forward so far is named in a header, or a forward declaration is never defined.
pub(crate) fn incomplete(text: &Text, least: &mut Least)
    ensures { least.new ≡ noting least.old (each (conditions.incomplete (judged text.now)) (judged text.now)) }
{
    for index in 0..text.len() {
        incomplete_at(text, DeclarationNo::new(index), least);
    }
}
