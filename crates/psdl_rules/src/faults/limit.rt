// C17: types that are too large or nest too deep, and too many homes.
ghost use Rattle.std.specs.Prelude.{◌≡◌, ◌==◌, ◌&&◌, ◌+◌, false, slice_get, OnOk};
ghost use Rattle.type_layout.specs.Schemas.{given};
ghost use Rattle.psdl_directory.specs.Fault.{each};
ghost use Rattle.psdl_directory.specs.Lookup.{at};
ghost use Rattle.psdl_directory.specs.Noting.{noting};
ghost use Rattle.psdl_directory.specs.Parts.{is_concrete_home as is_concrete};
ghost use Rattle.psdl_lineage.specs.Descent.{concrete_homes};
ghost use Rattle.psdl_rules.specs.Faults.Limit as conditions;
ghost use Rattle.psdl_rules.specs.Faults.Limit.{home_number, most_homes};
ghost use Rattle.psdl_rules.specs.Texts.{judged};
ghost use Rattle.psdl_standings.specs.Standings.{standings as standings_of};
ghost use Rattle.psdl_standings.specs.Texts.{text_of as told_of};

use crate::long_type::long_type;
use crate::text::Text;
use psdl_directory::{CheckKind, DeclarationNo, Least};
use psdl_standings::Standings;
use pss_base::NoMemory;
use std::alloc::Global;

// The greatest number of concrete homes.
const MOST_HOMES: usize = 4096;

fn deep_type_at(text: &Text, standings: &Standings, number: DeclarationNo, least: &mut Least)
    requires told { told_of standings.now ≡ judged text.now }
    ensures { least.new ≡ noting least.old (conditions.deep_type (judged text.now) (standings_of (judged text.now)) number (at (judged text.now) number)) }
{
    let holds = standings.is_deep(number);
    least.note_if(holds, CheckKind::Limit, text.place(number));
}

// A typedef or a struct nests deeper than 32.
fn deep_type(text: &Text, standings: &Standings, least: &mut Least)
    requires told { told_of standings.now ≡ judged text.now }
    ensures { least.new ≡ noting least.old (each (conditions.deep_type (judged text.now) (standings_of (judged text.now))) (judged text.now)) }
{
    for index in 0..text.len() {
        deep_type_at(text, standings, DeclarationNo::new(index), least);
    }
}

fn stands_at(text: &Text, place: usize, number: DeclarationNo) -> bool
    ensures { result ≡ given (slice_get (concrete_homes (judged text.now)) place) false (λ home. home == number) }
{
    match text.lineage().home(place) {
        Some(home) => home == number,
        None => false,
    }
}

// This is the home with which there are too many.
fn passes_limit(text: &Text, number: DeclarationNo) -> bool
    ensures { result ≡ (is_concrete (at (judged text.now) number).what && home_number (judged text.now) number == most_homes + 1) }
{
    let is_home = text.what(number).is_concrete_home();
    if !is_home {
        return false;
    }
    stands_at(text, MOST_HOMES, number)
}

fn many_homes_at(text: &Text, number: DeclarationNo, least: &mut Least)
    ensures { least.new ≡ noting least.old (conditions.many_homes (judged text.now) number (at (judged text.now) number)) }
{
    let holds = passes_limit(text, number);
    least.note_if(holds, CheckKind::Limit, text.place(number));
}

// There are more than 4,096 concrete homes.
fn many_homes(text: &Text, least: &mut Least)
    ensures { least.new ≡ noting least.old (each (conditions.many_homes (judged text.now)) (judged text.now)) }
{
    for index in 0..text.len() {
        many_homes_at(text, DeclarationNo::new(index), least);
    }
}

/// C17: a type has too many members, too long a default record or too deep a nesting, or there are too many homes.
pub(crate) fn limit(
    alloc: Global,
    text: &Text,
    standings: &Standings,
    least: &mut Least,
) -> Result<(), NoMemory>
    requires told { told_of standings.now ≡ judged text.now }
    ensures { OnOk result (least.new ≡ noting least.old (conditions.limit_faults (judged text.now) (standings_of (judged text.now)))) }
{
    long_type(alloc, text, standings, least)?;
    deep_type(text, standings, least);
    many_homes(text, least);
    Ok(())
}
