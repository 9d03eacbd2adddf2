// Types with too many members, or with a default record that is too long.
ghost use Rattle.std.specs.Prelude.{◌≡◌, ◌&&◌, ◌||◌, length, nat_lt, option_map, OnOk};
ghost use Rattle.type_layout.specs.Types.{Octet};
ghost use Rattle.psdl_directory.specs.Fault.{each};
ghost use Rattle.psdl_directory.specs.Lookup.{at};
ghost use Rattle.psdl_directory.specs.Noting.{noting};
ghost use Rattle.psdl_directory.specs.Parts as parts;
ghost use Rattle.psdl_directory.specs.inner.Nodes.{what_view};
ghost use Rattle.psdl_rules.specs.Faults.Limit as conditions;
ghost use Rattle.psdl_rules.specs.Texts.{judged};
ghost use Rattle.psdl_rules.specs.inner.Typed.{HaveMembers, default_types, defaults_extent, are_long};
ghost use Rattle.psdl_standings.specs.Extents.{extent, extent_view};
ghost use Rattle.psdl_standings.specs.Standings.{standings as standings_of};
ghost use Rattle.psdl_standings.specs.Texts.{text_of as told_of, types_in};

use crate::member_types::{member_sources, types_of_members};
use crate::settled::is_settled;
use crate::text::Text;
use psdl_directory::{CheckKind, DeclarationNo, Least, What};
use psdl_lineage::Sources;
use psdl_standings::{Extent, Standings, StateEntry};
use pss_base::NoMemory;
use std::alloc::Global;

// The greatest number of members that a type may have.
const MOST_MEMBERS: usize = 255;

// The octets of the default record of members, where their types are there. It begins behind the octet for the byte order.
fn record_extent(standings: &Standings, kept: &[StateEntry]) -> Option<Extent>
    ensures { option_map extent_view result ≡ defaults_extent (default_types (types_in standings.now) kept.now) (extent Octet) }
{
    let mut whole = Extent::OCTET;
    for entry in kept {
        match standings.extent(*entry) {
            Some(part) => whole = whole.followed_by(part),
            None => return None,
        }
    }
    Some(whole)
}

fn has_long_default(standings: &Standings, kept: &[StateEntry]) -> bool
    ensures { result ≡ are_long (default_types (types_in standings.now) kept.now) }
{
    match record_extent(standings, kept) {
        Some(whole) => whole.is_over(),
        None => false,
    }
}

// Too many members, or of a concrete type a default record that is too long.
fn is_long(standings: &Standings, what: What<'_>, kept: &[StateEntry]) -> bool
    ensures { result ≡ (nat_lt 255 (length kept.now) || (parts.is_concrete_type (what_view what.entry) && are_long (default_types (types_in standings.now) kept.now))) }
{
    kept.len() > MOST_MEMBERS || (what.is_concrete_type() && has_long_default(standings, kept))
}

#[tactic(auto, using(crate::proofs::Parts::by_order))]
fn long_type_at(
    alloc: Global,
    text: &Text,
    standings: &Standings,
    sources: &mut Sources<'_>,
    number: DeclarationNo,
    least: &mut Least,
) -> Result<(), NoMemory>
    requires told { told_of standings.now ≡ judged text.now }
    requires sources { HaveMembers (told_of standings.now) sources.old }
    ensures same { sources.new ≡ sources.old }
    ensures noted { OnOk result (least.new ≡ noting least.old (conditions.long_type (judged text.now) (standings_of (judged text.now)) number (at (judged text.now) number))) }
{
    let place = text.place(number);
    if !least.comes_first(CheckKind::Limit, place) {
        return Ok(());
    }
    let is_type = text.what(number).is_storage_type();
    if !is_type {
        return Ok(());
    }
    let is_settled = is_settled(text, number);
    if !is_settled {
        return Ok(());
    }
    let kept = types_of_members(alloc, standings, sources, number)?;
    let holds = is_long(standings, text.what(number), &kept);
    least.note_if(holds, CheckKind::Limit, place);
    Ok(())
}

/// Notes each type that has more than 255 members, or, if it is concrete, a default record of more than 8,000 octets.
pub(crate) fn long_type(
    alloc: Global,
    text: &Text,
    standings: &Standings,
    least: &mut Least,
) -> Result<(), NoMemory>
    requires told { told_of standings.now ≡ judged text.now }
    ensures { OnOk result (least.new ≡ noting least.old (each (conditions.long_type (judged text.now) (standings_of (judged text.now))) (judged text.now))) }
{
    let mut sources = member_sources(alloc, text, standings)?;
    for index in 0..text.len() {
        let number = DeclarationNo::new(index);
        long_type_at(alloc, text, standings, &mut sources, number, least)?;
    }
    Ok(())
}
