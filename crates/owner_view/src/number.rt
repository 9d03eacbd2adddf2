// How many objects of a home a view has.
ghost use Rattle.std.specs.Prelude.{◌≡◌, ◌≤◌, ◌<◌, ◌+◌, ◌^◌, length, if◌then◌else◌};
ghost use Rattle.type_layout.specs.Schemas.{descends};
ghost use Rattle.storage_home.specs.Kept.{is_of};
ghost use Rattle.pss_machine.specs.Homes.{extent};
ghost use Rattle.owner_view.specs.Overlay.{changes_in};
ghost use Rattle.owner_view.specs.States.{told_state};
ghost use Rattle.owner_view.specs.Stored.{Sees};
ghost use Rattle.owner_view.specs.Views.{seen_with, one_where};
ghost use Rattle.owner_view.specs.Weights.{weight_at, Moves};

use crate::committed::Committed;
use crate::states::Told;
use crate::view::{View, is_below};
use type_layout::HomeNo;

/// The number of the objects of a home and of those derived from it: those that were committed, with what the owner's changes
/// bring and without what they take away. It takes no memory. It goes from the last slot to the first: each is one change more of
/// what is seen with those behind it.
pub fn number_in<C: Committed>(view: &View<'_, C>, home: HomeNo) -> u64
    requires { Sees C.shows view.now }
    ensures { (v : Sees C.shows view.now) → result ≡ length (extent view.now.schema.now (seen_with v.catalog (changes_in view.now.overlay.now)) home) }
{
    let mut number = view.committed.number(home);
    for place in (0..view.overlay.count()).rev() {
        let (serial, told) = view.overlay.slot_in(place);
        number = moved(view, home, serial, told, number);
    }
    number
}

// The number with what was made of the object with a serial. There are fewer than 2^63 of these, so it stays small.
fn moved<C: Committed>(
    view: &View<'_, C>,
    home: HomeNo,
    serial: u64,
    told: Told<'_>,
    number: u64,
) -> u64
    requires sees { Sees C.shows view.now }
    requires part { (v : Sees C.shows view.now) → weight_at (one_where (is_of view.now.schema.now home)) v.catalog serial ≤ number }
    requires small { number < 2 ^ 63 + 2 ^ 60 }
    ensures moves { (v : Sees C.shows view.now) → Moves (one_where (is_of view.now.schema.now home)) v.catalog serial (told_state told.entry) number result }
    ensures small { result ≤ number + 1 }
{
    match told {
        Told::Untouched => number,
        Told::Gone => number - committed_at(view, home, serial),
        Told::There(object) => {
            number - committed_at(view, home, serial) + one_below(view, object.home, home)
        }
    }
}

// 1 where an object of the home was committed at a serial.
fn committed_at<C: Committed>(view: &View<'_, C>, home: HomeNo, serial: u64) -> u64
    requires { Sees C.shows view.now }
    ensures { (v : Sees C.shows view.now) → result ≡ weight_at (one_where (is_of view.now.schema.now home)) v.catalog serial }
{
    match view.committed.object(serial) {
        Some((found, _)) => one_below(view, found, home),
        None => 0,
    }
}

// 1 where a home is another one or derives from it.
fn one_below<C: Committed>(view: &View<'_, C>, home: HomeNo, of: HomeNo) -> u64
    requires { Sees C.shows view.now }
    ensures value { result ≡ (if descends view.now.schema.now home of then 1 else 0) }
    ensures small { result ≤ 1 }
{
    if is_below(view, home, of) { 1 } else { 0 }
}
