// The state of one object as an owner sees it.
ghost use Rattle.std.specs.Prelude.{◌≡◌, Some, IfOk};
ghost use Rattle.std.specs.Option.{option_map};
ghost use Rattle.std.specs.FinMap.{get};
ghost use Rattle.type_layout.specs.Sound.{IsSoundSchema};
ghost use Rattle.owner_view.specs.Overlay.{changes_in};
ghost use Rattle.owner_view.specs.Seen.{IsShown};
ghost use Rattle.owner_view.specs.Stored.{Shows};
ghost use Rattle.owner_view.specs.Views.{seen_with};

use crate::committed::Committed;
use crate::seen::{Seen, record_of};
use crate::view::{View, object_at};
use pss_base::NoMemory;
use std::alloc::Global;
use type_layout::{Record, Schema};

/// The record of the object with a serial, where the view has one.
pub fn state_at<C: Committed>(
    alloc: Global,
    view: &View<'_, C>,
    serial: u64,
) -> Result<Option<Record>, NoMemory>
    requires { Shows C.shows view.now }
    ensures { IfOk result (λ made. (v : Shows C.shows view.now) → made ≡ option_map (λ object. object.values) (get (seen_with v.catalog (changes_in view.now.overlay.now)) serial)) }
{
    match object_at(view, serial) {
        Some(seen) => some_record(alloc, view.schema, seen),
        None => Ok(None),
    }
}

fn some_record(alloc: Global, schema: &Schema, seen: Seen<'_>) -> Result<Option<Record>, NoMemory>
    requires sound { IsSoundSchema schema.now }
    requires shown { IsShown schema.now seen }
    ensures { IfOk result (λ made. (s : IsShown schema.now seen.entry) → made ≡ Some s.object.values) }
{
    Ok(Some(record_of(alloc, schema, seen)?))
}
