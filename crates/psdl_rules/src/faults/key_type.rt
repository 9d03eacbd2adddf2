// C9: keys whose members are structs, sequences, arrays or references.
ghost use Rattle.std.specs.Prelude.{◌≡◌, ◌<◌, None, length};
ghost use Rattle.std.specs.List.{flat_map, position_from};
ghost use Rattle.std.proofs.Common.{get_or};
ghost use Rattle.psdl_directory.specs.Noting.{noting};
ghost use Rattle.psdl_members.specs.Bodies.{member_views};
ghost use Rattle.psdl_members.specs.Listings.{identifiers_in, identifiers_of_each};
ghost use Rattle.psdl_rules.specs.Words.{is_called};
ghost use Rattle.psdl_rules.specs.Faults.KeyType.{keyed_wrong};
ghost use Rattle.psdl_rules.specs.inner.Listing.{type_faults};
ghost use Rattle.psdl_rules.specs.inner.Typed.{AreTypes, default_types};
ghost use Rattle.psdl_standings.specs.Standings.{standings as standings_of};
ghost use Rattle.psdl_standings.specs.Texts.{text_of as told_of, types_in};

use crate::faults::home_lists::TypeMembers;
use crate::listed_members::is_called;
use psdl_directory::{CheckKind, Least};
use psdl_members::{Listed, Member};
use psdl_standings::{Standings, StateEntry};
use psdl_tree::Identifier;

// The place of the first member with that name.
fn place_of(members: &[Member<'_>], identifier: &Identifier) -> Option<usize>
    ensures { result ≡ position_from (is_called identifier.now) 0 (member_views members.now) }
{
    for place in 0..members.len() {
        if is_called(identifier, &members[place]) {
            return Some(place);
        }
    }
    None
}

fn keyed_at(
    standings: &Standings,
    kept: &[StateEntry],
    place: usize,
    identifier: &Identifier,
    least: &mut Least,
)
    requires { place < length kept.now }
    ensures { least.new ≡ noting least.old (type_faults identifier.now (get_or (default_types (types_in standings.now) kept.now) place None)) }
{
    match kept.get(place) {
        Some(entry) => {
            let holds = standings.is_compound(*entry);
            least.note_if(holds, CheckKind::KeyType, identifier.place);
        }
        None => {}
    }
}

fn keyed_identifier(
    standings: &Standings,
    members: &[Member<'_>],
    kept: &[StateEntry],
    identifier: &Identifier,
    least: &mut Least,
)
    requires { AreTypes (told_of standings.now) (types_in standings.now) (member_views members.now) kept.now }
    ensures { least.new ≡ noting least.old (keyed_wrong (told_of standings.now) (standings_of (told_of standings.now)) (member_views members.now) identifier.now) }
{
    match place_of(members, identifier) {
        Some(place) => keyed_at(standings, kept, place, identifier, least),
        None => {}
    }
}

// Notes the identifiers in the list of a key whose members are structs, sequences, arrays or references.
#[tactic(auto, using(crate::proofs::Parts::by_parts))]
fn keyed_wrong(
    standings: &Standings,
    members: &[Member<'_>],
    kept: &[StateEntry],
    identifiers: &[Identifier],
    least: &mut Least,
)
    requires { AreTypes (told_of standings.now) (types_in standings.now) (member_views members.now) kept.now }
    ensures { least.new ≡ noting least.old (flat_map (keyed_wrong (told_of standings.now) (standings_of (told_of standings.now)) (member_views members.now)) identifiers.now) }
{
    for identifier in identifiers {
        keyed_identifier(standings, members, kept, identifier, least);
    }
}

#[tactic(auto, using(crate::proofs::Parts::by_parts))]
fn key_types(
    standings: &Standings,
    members: &TypeMembers<'_>,
    listed: &Listed<'_>,
    least: &mut Least,
)
    requires { AreTypes (told_of standings.now) (types_in standings.now) (member_views members.now.members.items) members.now.types.items }
    ensures { least.new ≡ noting least.old (flat_map (keyed_wrong (told_of standings.now) (standings_of (told_of standings.now)) (member_views members.now.members.items)) (identifiers_in listed.now)) }
{
    keyed_wrong(
        standings,
        &members.members,
        &members.types,
        listed.first,
        least,
    );
    keyed_wrong(
        standings,
        &members.members,
        &members.types,
        listed.others,
        least,
    );
}

/// C9: a member in a key is a struct, a sequence, an array or a reference.
#[tactic(auto, using(crate::proofs::Parts::by_parts))]
pub(crate) fn all_key_types(
    standings: &Standings,
    members: &TypeMembers<'_>,
    keys: &[Listed<'_>],
    least: &mut Least,
)
    requires { AreTypes (told_of standings.now) (types_in standings.now) (member_views members.now.members.items) members.now.types.items }
    ensures { least.new ≡ noting least.old (flat_map (flat_map (keyed_wrong (told_of standings.now) (standings_of (told_of standings.now)) (member_views members.now.members.items))) (identifiers_of_each keys.now)) }
{
    for key in keys {
        key_types(standings, members, key, least);
    }
}
