// What is held and who holds up whom, by walks of the rows of needs alone.
ghost use Rattle.std.specs.Prelude.{◌≡◌, ◌∷◌, [], Some, IsSome, true};
ghost use Rattle.std.specs.FinMap as map;
ghost use Rattle.std.specs.FinSet as set;
ghost use Rattle.pss_machine.specs.declared.lock.Resource.{Resource};
ghost use Rattle.lock_table.specs.Locks.{held_by, blocker};
ghost use Rattle.lock_table.specs.inner.Nodes.{held_in};
ghost use Rattle.lock_table.specs.inner.Links.{IsLinked, IsLookedUp, IsAlone, place_at};

use crate::links::Links;
use crate::places::{self, FoundPlace, Place};
use crate::walks::{is_in_row, least_against, lesser};
use pss_base::OwnerNo;
use pss_machine::{Mode, Need, Resource};

/// Where the locks on a resource stand, if it has a row.
pub fn look_up(links: &Links, resource: &Resource) -> Option<FoundPlace>
    ensures { IsLookedUp links.now resource.now result }
{
    places::find(&links.places, resource)
}

/// Whether an owner has locked what it needs, where this was found of its resource.
pub fn is_held(links: &Links, owner: OwnerNo, need: &Need, found: Option<FoundPlace>) -> bool
    requires linked { IsLinked links.now }
    requires found { IsLookedUp links.now need.now.resource found }
    ensures { result ≡ set.contains (held_by (held_in links.now.pool) owner) need.now }
{
    match found {
        Some(found) => is_held_at(links, found.place, owner, need.mode),
        None => false,
    }
}

/// Whether an owner has locked the resource with this place in a mode. Where no lock stands, no row is walked.
pub fn is_held_at(links: &Links, place: Place, owner: OwnerNo, mode: Mode) -> bool
    requires linked { IsLinked links.now }
    requires row { IsSome (map.get links.now.pool.rows place.row) }
    ensures { (resource : Resource) → place_at links.now resource ≡ Some place → result ≡ set.contains (held_by (held_in links.now.pool) owner) (record { resource = resource; mode = mode }) }
{
    place.locks > 0 && is_in_row(&links.pool, place.row, owner, mode)
}

/// The least other owner with a lock that clashes with one need.
fn blocker_of_one(links: &Links, owner: OwnerNo, need: &Need) -> Option<OwnerNo>
    requires { IsLinked links.now }
    ensures { result ≡ blocker (held_in links.now.pool) owner (need.now ∷ []) }
{
    match look_up(links, &need.resource) {
        Some(found) => least_against(&links.pool, found.place.row, owner, need.mode),
        None => None,
    }
}

// Whether no other owner has a column.
fn is_alone(links: &Links, owner: OwnerNo) -> bool
    ensures { result ≡ true → IsAlone links.now owner }
{
    match links.columns.get_index(0) {
        Some((first, _)) => *first == owner && links.columns.len() == 1,
        None => true,
    }
}

/// The least other owner with a lock that clashes with one of the needs. An owner that is alone is held up by nobody, which is
/// known without a look at the needs.
#[inline(always)]
pub fn blocker_of(links: &Links, owner: OwnerNo, needs: &[Need]) -> Option<OwnerNo>
    requires { IsLinked links.now }
    ensures { result ≡ blocker (held_in links.now.pool) owner needs.now }
{
    if is_alone(links, owner) {
        return None;
    }
    let mut least = None;
    for need in needs {
        least = lesser(least, blocker_of_one(links, owner, need));
    }
    least
}
