// C6: names of the very declaration in which they stand.
ghost use Rattle.std.specs.Prelude.{◌≡◌, ◌<◌, length};
ghost use Rattle.std.specs.List.{flat_map};
ghost use Rattle.psdl_directory.specs.Fault.{each};
ghost use Rattle.psdl_directory.specs.Headers.{header};
ghost use Rattle.psdl_directory.specs.Lookup.{at};
ghost use Rattle.psdl_directory.specs.Noting.{noting};
ghost use Rattle.psdl_rules.specs.Faults.Cycle as conditions;
ghost use Rattle.psdl_rules.specs.Texts.{judged};
ghost use Rattle.psdl_rules.specs.inner.Headed.{above, are_one, own_use};
ghost use Rattle.psdl_standings.specs.Texts.{text_of as told_of};

use crate::found_apart::note_found;
use crate::text::Text;
use psdl_directory::{CheckKind, DeclarationNo, Least, Use};
use psdl_standings::Standings;

fn are_one(first: &Option<DeclarationNo>, second: &Option<DeclarationNo>) -> bool
    ensures { result ≡ are_one first.now second.now }
{
    match first {
        None => false,
        Some(first) => match second {
            Some(second) => first == second,
            None => false,
        },
    }
}

#[tactic(auto, using(crate::proofs::Parts::by_parts))]
fn own_uses(origin: &Option<DeclarationNo>, uses: &[Use], least: &mut Least)
    ensures { least.new ≡ noting least.old (flat_map (own_use origin.now) uses.now) }
{
    for used in uses {
        let holds = are_one(&used.meant, origin);
        least.note_if(holds, CheckKind::Cycle, used.place);
    }
}

#[tactic(auto, using(crate::proofs::Parts::by_parts))]
fn header_uses(
    text: &Text,
    number: DeclarationNo,
    origin: &Option<DeclarationNo>,
    least: &mut Least,
)
    ensures { least.new ≡ noting least.old (flat_map (own_use origin.now) (above (header (judged text.now) number))) }
{
    own_uses(origin, text.bases(number), least);
    own_uses(origin, text.implemented(number), least);
    own_uses(origin, text.managed(number), least);
}

fn cycle_at(text: &Text, number: DeclarationNo, least: &mut Least)
    ensures { number < length (judged text.now) → least.new ≡ noting least.old (conditions.cycle (judged text.now) number (at (judged text.now) number)) }
{
    let origin = text.directory().origin(number);
    header_uses(text, number, &origin, least);
}

// A type or home names itself as base, behind `of` or behind `implements`.
fn header_cycles(text: &Text, least: &mut Least)
    ensures { least.new ≡ noting least.old (each (conditions.cycle (judged text.now)) (judged text.now)) }
{
    for index in 0..text.len() {
        cycle_at(text, DeclarationNo::new(index), least);
    }
}

/// C6: a type or home names itself in its header, or a struct in its body, which was found as it was walked.
pub(crate) fn cycle(text: &Text, standings: &Standings, least: &mut Least)
    requires told { told_of standings.now ≡ judged text.now }
    ensures { least.new ≡ noting least.old (conditions.cycle_faults (judged text.now)) }
{
    header_cycles(text, least);
    note_found(standings.selves_fault(), least);
}
