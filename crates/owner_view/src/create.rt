// Objects that come to be.
ghost use Rattle.std.specs.Prelude.{IfOk};
ghost use Rattle.std.specs.List.{flat_map};
ghost use Rattle.pss_catalog.specs.Catalog.{references};
ghost use Rattle.pss_machine.specs.Operations.{Create};
ghost use Rattle.pss_machine.specs.Needs.{needs};
ghost use Rattle.owner_view.specs.Overlay.{changes_in};
ghost use Rattle.owner_view.specs.Seen.{Fits, plain_object};
ghost use Rattle.owner_view.specs.Sized.{IsSized};
ghost use Rattle.owner_view.specs.Views.{seen_with};
ghost use Rattle.owner_view.specs.Stored.{Sees};
ghost use Rattle.owner_view.specs.Steps.{IsDraft, IsStep, stored_unless};

use crate::committed::Committed;
use crate::draft::{Draft, draft_new};
use crate::object::Changed;
use crate::references::all_references_of;
use crate::step::Step;
use crate::view::View;
use pss_base::{NoMemory, Pid};
use pss_machine::{Answer, Level};
use std::alloc::Global;

/// Makes an object under a serial.
#[inline(always)]
pub fn create<C: Committed>(
    alloc: Global,
    view: &View<'_, C>,
    level: Level,
    serial: u64,
    object: Changed,
) -> Result<Step, NoMemory>
    requires sees { Sees C.shows view.now }
    requires fits { Fits view.now.schema.now (plain_object object) }
    requires sized { IsSized view.now.schema.now object }
    ensures { IfOk result (λ step. (v : Sees C.shows view.now) → IsStep view.now.schema.now level (seen_with v.catalog (changes_in view.now.overlay.now)) (Create serial (plain_object object)) step) }
{
    let draft = draft_of(alloc, view, level, serial, &object)?;
    let pid = Pid {
        home: object.home.0,
        serial,
    };
    Ok(draft.step(serial, object, Answer::Found(pid)))
}

#[inline(always)]
fn draft_of<C: Committed>(
    alloc: Global,
    view: &View<'_, C>,
    level: Level,
    serial: u64,
    object: &Changed,
) -> Result<Draft, NoMemory>
    requires sees { Sees C.shows view.now }
    requires fits { Fits view.now.schema.now (plain_object object.now) }
    requires sized { IsSized view.now.schema.now object.now }
    ensures { IfOk result (λ draft. (v : Sees C.shows view.now) → IsDraft view.now.schema.now (seen_with v.catalog (changes_in view.now.overlay.now)) serial (plain_object object.now) (needs view.now.schema.now level (seen_with v.catalog (changes_in view.now.overlay.now)) (Create serial (plain_object object.now))) (stored_unless view.now.schema.now (seen_with v.catalog (changes_in view.now.overlay.now)) serial (plain_object object.now) (flat_map references object.now.record)) draft) }
{
    let references = all_references_of(alloc, &object.record)?;
    draft_new(alloc, view, level, serial, object, &references)
}
