// C16: what catalogs provide, though no concrete home implements it.
ghost use Rattle.std.specs.Prelude.{◌≡◌, ◌<◌, length, IfSome};
ghost use Rattle.std.specs.List.{flat_map};
ghost use Rattle.psdl_directory.specs.Fault.{each};
ghost use Rattle.psdl_directory.specs.Lookup.{at};
ghost use Rattle.psdl_directory.specs.Noting.{noting};
ghost use Rattle.psdl_rules.specs.Faults.Provides as conditions;
ghost use Rattle.psdl_rules.specs.Texts.{judged};
ghost use Rattle.psdl_rules.specs.inner.Headed.{is_unprovided, provided_use, AreThere};

use crate::text::Text;
use psdl_directory::{CheckKind, DeclarationNo, Least, Use};

fn is_unprovided(text: &Text, used: &Use) -> bool
    requires { IfSome used.now.defined (λ d. d < length (judged text.now)) }
    ensures { result ≡ is_unprovided (judged text.now) used.now }
{
    match used.meant {
        None => false,
        Some(_) => match used.defined {
            None => true,
            Some(home) => match text.lineage().provider(home) {
                Some(_) => false,
                None => true,
            },
        },
    }
}

#[tactic(auto, using(crate::proofs::Parts::by_parts))]
fn provided_uses(text: &Text, uses: &[Use], least: &mut Least)
    requires { AreThere (length (judged text.now)) uses.now }
    ensures { least.new ≡ noting least.old (flat_map (provided_use (judged text.now)) uses.now) }
{
    for used in uses {
        let holds = is_unprovided(text, used);
        least.note_if(holds, CheckKind::Provides, used.place);
    }
}

fn not_provided_at(text: &Text, number: DeclarationNo, least: &mut Least)
    ensures { least.new ≡ noting least.old (conditions.not_provided (judged text.now) number (at (judged text.now) number)) }
{
    provided_uses(text, text.provided(number), least);
}

/// C16: no concrete home implements the abstract home that a catalog provides.
pub(crate) fn not_provided(text: &Text, least: &mut Least)
    ensures { least.new ≡ noting least.old (each (conditions.not_provided (judged text.now)) (judged text.now)) }
{
    for index in 0..text.len() {
        not_provided_at(text, DeclarationNo::new(index), least);
    }
}
