// Locks go out: from the front of an owner's column, each with one step.
ghost use Rattle.std.specs.Prelude.{◌≡◌, ◌+◌, ◌-◌, ◌≤◌, [], Some, None, IsSome, MatchOption, true, false, if◌then◌else◌};
ghost use Rattle.std.specs.FinMap as map;
ghost use Rattle.std.specs.FinSet as set;
ghost use Rattle.pss_base.specs.declared.owner.OwnerNo.{OwnerNo as Owner};
ghost use Rattle.lock_table.specs.Locks.{held_by, released};
ghost use Rattle.lock_table.specs.inner.Nodes.{held_in};
ghost use Rattle.lock_table.specs.inner.Links.{IsLinked, IsWhole, IsReleasing, IsFound, Recounts, Unlinks, place_at};

use crate::links::{Links, Lock};
use crate::places::{self, FoundPlace, Place};
use crate::rings::{drop_empty_row, remove_column};
use crate::tables;
use link_pool::Col;
use pss_base::{OwnerNo, Steps};
use pss_machine::Resource;
use std::sync::ledger::Ledger;

// Counts one lock fewer on a resource that has a row, and answers what is left.
fn count_down(links: &mut Links, resource: &Resource) -> FoundPlace
    requires { IsSome (place_at links.old resource.now) }
    ensures found { IsFound links.new resource.now result }
    ensures recounts { Recounts links.old links.new resource.now (λ n. n - 1) }
{
    match places::find(&links.places, resource) {
        Some(found) => {
            let left = Place {
                row: found.place.row,
                locks: found.place.locks.saturating_sub(1),
            };
            places::write(&mut links.places, found.at, left);
            FoundPlace {
                at: found.at,
                place: left,
            }
        }
        None => unreachable!(),
    }
}

// Takes the first lock of a column out of its rings, and answers it with what is left of its row. None where the column is
// empty. One step.
fn unlink_first<L: Ledger>(
    links: &mut Links,
    col: Col,
    steps: &mut Steps<L>,
) -> Option<(Lock, FoundPlace)>
    requires linked { IsLinked links.old }
    requires col { IsSome (map.get links.old.pool.cols col) }
    ensures linked { IsLinked links.new }
    ensures unlinks { MatchOption result ((links.new ≡ links.old) × (map.get links.new.pool.cols col ≡ Some [])) (λ r. Unlinks links.old links.new col r.0 r.1) }
    ensures steps { steps.new ≡ steps.old + 1 }
{
    let (_, lock) = links.pool.take_first_of_col(col, steps)?;
    let left = count_down(links, &lock.resource);
    links.held -= 1;
    Some((lock, left))
}

// Takes the first lock of a column out of its rings. False where there is none left. One step.
fn release_first<L: Ledger>(links: &mut Links, col: Col, steps: &mut Steps<L>) -> bool
    requires linked { IsLinked links.old }
    requires col { IsSome (map.get links.old.pool.cols col) }
    ensures still { (owner : Owner) → IsReleasing links.old owner col → IsReleasing links.new owner col }
    ensures others { (owner : Owner) → IsReleasing links.old owner col → released (held_in links.new.pool) owner ≡ released (held_in links.old.pool) owner }
    ensures fewer { (owner : Owner) → IsReleasing links.old owner col → set.len (held_by (held_in links.new.pool) owner) + (if result then 1 else 0) ≡ set.len (held_by (held_in links.old.pool) owner) }
    ensures end { result ≡ false → map.get links.new.pool.cols col ≡ Some [] }
    ensures steps { steps.new ≡ steps.old + 1 }
{
    match unlink_first(links, col, steps) {
        Some((lock, left)) => {
            drop_empty_row(links, left);
            drop(lock);
            true
        }
        None => false,
    }
}

/// Takes all locks of an owner out.
pub fn release<L: Ledger>(links: &mut Links, owner: OwnerNo, steps: &mut Steps<L>)
    requires { IsWhole links.old }
    ensures whole { IsWhole links.new }
    ensures held { held_in links.new.pool ≡ released (held_in links.old.pool) owner }
    ensures each { steps.old + set.len (held_by (held_in links.old.pool) owner) ≤ steps.new }
    ensures at_most { steps.new ≤ steps.old + set.len (held_by (held_in links.old.pool) owner) + 1 }
{
    if let Some(col) = tables::find(&links.columns, &owner) {
        while release_first(links, col, steps) {}
        remove_column(links, owner, col);
    }
}
