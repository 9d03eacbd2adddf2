// What the objects would weigh together, if what an owner changed were committed.
ghost use Rattle.std.specs.Prelude.{◌≡◌, ◌≤◌, ◌<◌, ◌+◌, ◌^◌, min};
ghost use Rattle.type_layout.specs.declared.schema.Schema.{Schema};
ghost use Rattle.pss_catalog.specs.Catalog.{total};
ghost use Rattle.pss_catalog.specs.Changes.{over};
ghost use Rattle.owner_view.specs.Net.{net_of};
ghost use Rattle.owner_view.specs.Overlay.{changes_in, slots_in};
ghost use Rattle.owner_view.specs.Seen.{plain_object};
ghost use Rattle.owner_view.specs.Sized.{IsSized, IsToldSized, AreSized};
ghost use Rattle.owner_view.specs.States.{told_state};
ghost use Rattle.owner_view.specs.Stored.{Shows};
ghost use Rattle.owner_view.specs.Views.{seen_with};
ghost use Rattle.owner_view.specs.Weights.{weight_at, sum_of, Moves, reckoned};

use crate::committed::Committed;
use crate::object::Changed;
use crate::states::Told;
use crate::view::View;
use pss_base::OBJECT_WEIGHT;

// A sum from here on is not told: no greater length than 2^64 - 1 is told of a record.
const LIMIT: u128 = 1 << 64;

/// What all objects would weigh together, each 16 and the octets of its record, if what the owner changed were committed, or
/// 2^64 where that is not more. It takes no memory.
pub fn total_with<C: Committed>(view: &View<'_, C>) -> u128
    requires shows { Shows C.shows view.now }
    requires sized { AreSized view.now.schema.now (slots_in view.now.overlay.now) }
    ensures { (v : Shows C.shows view.now) → result ≡ min (total view.now.schema.now (over v.catalog (net_of v.catalog (changes_in view.now.overlay.now)))) (2 ^ 64) }
{
    let total = total_reckoned(view);
    if total < LIMIT { total } else { LIMIT }
}

// The sum by the lengths that are told of records. It goes from the last slot to the first: each is one change more of what is
// seen with those behind it.
fn total_reckoned<C: Committed>(view: &View<'_, C>) -> u128
    requires shows { Shows C.shows view.now }
    requires sized { AreSized view.now.schema.now (slots_in view.now.overlay.now) }
    ensures { (v : Shows C.shows view.now) → result ≡ sum_of (reckoned view.now.schema.now) (seen_with v.catalog (changes_in view.now.overlay.now)) }
{
    let mut total = view.committed.total() as u128;
    for place in (0..view.overlay.count()).rev() {
        let (serial, told) = view.overlay.slot_in(place);
        total = moved(view, serial, told, total);
    }
    total
}

// The sum with what was made of the object with a serial. There are fewer than 2^63 of these, so it stays small.
fn moved<C: Committed>(view: &View<'_, C>, serial: u64, told: Told<'_>, total: u128) -> u128
    requires shows { Shows C.shows view.now }
    requires sized { IsToldSized view.now.schema.now told }
    requires part { (v : Shows C.shows view.now) → weight_at (reckoned view.now.schema.now) v.catalog serial ≤ total }
    requires small { total < 2 ^ 127 + 2 ^ 100 }
    ensures moves { (v : Shows C.shows view.now) → Moves (reckoned view.now.schema.now) v.catalog serial (told_state told.entry) total result }
    ensures small { result ≤ total + (2 ^ 64 + 16) }
{
    match told {
        Told::Untouched => total,
        Told::Gone => total - old_weight(view, serial),
        Told::There(object) => total - old_weight(view, serial) + new_weight(object),
    }
}

// The weight of the object that was committed at a serial, 0 where there was none.
fn old_weight<C: Committed>(view: &View<'_, C>, serial: u64) -> u128
    ensures { (v : Shows C.shows view.now) → result ≡ weight_at (reckoned view.now.schema.now) v.catalog serial }
{
    match view.committed.object(serial) {
        Some((_, octets)) => OBJECT_WEIGHT as u128 + octets.len() as u128,
        None => 0,
    }
}

// The weight of an object as it is now.
fn new_weight(object: &Changed) -> u128
    ensures is { (S : Schema) → IsSized S object.now → result ≡ reckoned S (plain_object object.now) }
    ensures small { result < 2 ^ 64 + 16 }
{
    OBJECT_WEIGHT as u128 + object.len as u128
}
