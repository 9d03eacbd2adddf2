// Objects that become others.
ghost use Rattle.std.specs.Prelude.{◌≡◌, ◌<◌, Some, IfOk, OnOk, length, set as set_at};
ghost use Rattle.std.specs.FinMap as map;
ghost use Rattle.type_layout.specs.Views.{plain_value};
ghost use Rattle.type_layout.specs.Sound.{IsSoundSchema};
ghost use Rattle.pss_machine.specs.Operations.{Set, Done};
ghost use Rattle.pss_machine.specs.Alone.{with_member, object_of as object_in};
ghost use Rattle.pss_machine.specs.Needs.{targets};
ghost use Rattle.owner_view.specs.Overlay.{changes_in};
ghost use Rattle.owner_view.specs.Keyed.{all_keyed, keys_of};
ghost use Rattle.owner_view.specs.Seen.{Fits, FitsMember, IsOfHome, IsShown, home_seen, plain_object};
ghost use Rattle.owner_view.specs.Sized.{IsSized};
ghost use Rattle.owner_view.specs.Views.{seen_with};
ghost use Rattle.owner_view.specs.Stored.{Sees, IsSeenAs, IsSeenAt};
ghost use Rattle.owner_view.specs.Steps.{ComesTo, IsStep, set_needs, stored_unless, with_reads};
ghost use Rattle.pss_catalog.specs.Catalog.{references as references_in};

use crate::committed::Committed;
use crate::draft::draft_set;
use crate::gone::step_of_gone;
use crate::object::Changed;
use crate::references::references_of;
use crate::seen::{Seen, home_of, record_of};
use crate::sized::sized;
use crate::step::Step;
use crate::view::{Found, View, object_of};
use pss_base::{NoMemory, Pid};
use pss_machine::{Answer, Level};
use std::alloc::Global;
use type_layout::{Record, Schema, Value};

/// A member of an object, by its number, and the value that it is to have.
#[derive(Clone, Copy, Drop)]
pub struct Setting<'a> {
    pub pid: Pid,
    pub member: usize,
    pub value: &'a Value,
}

/// Gives a member of an object a value.
pub fn set<C: Committed>(
    alloc: Global,
    view: &View<'_, C>,
    level: Level,
    setting: &Setting<'_>,
) -> Result<Step, NoMemory>
    requires sees { Sees C.shows view.now }
    requires fits { FitsMember view.now.schema.now setting.now.pid setting.now.member (plain_value setting.now.value.now) }
    ensures { IfOk result (λ step. (v : Sees C.shows view.now) → IsStep view.now.schema.now level (seen_with v.catalog (changes_in view.now.overlay.now)) (Set setting.now.pid setting.now.member (plain_value setting.now.value.now)) step) }
{
    let references = references_of(alloc, setting.value)?;
    match object_of(view, setting.pid) {
        Some(seen) => set_seen(alloc, view, level, setting, seen, &references),
        None => step_of_gone(alloc, level, setting.pid, &references),
    }
}

fn set_seen<C: Committed>(
    alloc: Global,
    view: &View<'_, C>,
    level: Level,
    setting: &Setting<'_>,
    seen: Seen<'_>,
    references: &[Pid],
) -> Result<Step, NoMemory>
    requires sees { Sees C.shows view.now }
    requires fits { FitsMember view.now.schema.now setting.now.pid setting.now.member (plain_value setting.now.value.now) }
    requires seen { (v : Sees C.shows view.now) → IsSeenAs view.now.schema.now (object_in (seen_with v.catalog (changes_in view.now.overlay.now)) setting.now.pid) (Some seen) }
    requires references { references.now ≡ references_in (plain_value setting.now.value.now) }
    ensures { IfOk result (λ step. (v : Sees C.shows view.now) → IsStep view.now.schema.now level (seen_with v.catalog (changes_in view.now.overlay.now)) (Set setting.now.pid setting.now.member (plain_value setting.now.value.now)) step) }
{
    let object = changed(alloc, view.schema, seen, setting)?;
    let found = Found {
        serial: setting.pid.serial,
        seen,
    };
    set_to(alloc, view, level, &found, object, references)
}

fn set_to<C: Committed>(
    alloc: Global,
    view: &View<'_, C>,
    level: Level,
    found: &Found<'_>,
    object: Changed,
    references: &[Pid],
) -> Result<Step, NoMemory>
    requires sees { Sees C.shows view.now }
    requires fits { Fits view.now.schema.now (plain_object object) }
    requires sized { IsSized view.now.schema.now object }
    requires found { (v : Sees C.shows view.now) → IsSeenAt view.now.schema.now (seen_with v.catalog (changes_in view.now.overlay.now)) found.now.serial (Some found.now.seen) }
    requires home { (v : Sees C.shows view.now) → IsOfHome (map.get (seen_with v.catalog (changes_in view.now.overlay.now)) found.now.serial) object.home }
    ensures { IfOk result (λ step. (v : Sees C.shows view.now) → ComesTo view.now.schema.now (seen_with v.catalog (changes_in view.now.overlay.now)) (with_reads level (set_needs found.now.serial (keys_of view.now.schema.now (map.get (seen_with v.catalog (changes_in view.now.overlay.now)) found.now.serial)) (all_keyed view.now.schema.now (plain_object object))) (targets references.now)) (stored_unless view.now.schema.now (seen_with v.catalog (changes_in view.now.overlay.now)) found.now.serial (plain_object object) references.now Done) step) }
{
    let draft = draft_set(alloc, view, level, found, &object, references)?;
    Ok(draft.step(found.serial, object, Answer::Done))
}

// The object with the member's new value.
fn changed(
    alloc: Global,
    schema: &Schema,
    seen: Seen<'_>,
    setting: &Setting<'_>,
) -> Result<Changed, NoMemory>
    requires sound { IsSoundSchema schema.now }
    requires shown { IsShown schema.now seen }
    requires home { (home_seen seen).0 ≡ setting.now.pid.home }
    requires fits { FitsMember schema.now setting.now.pid setting.now.member (plain_value setting.now.value.now) }
    ensures object { IfOk result (λ made. (s : IsShown schema.now seen.entry) → plain_object made ≡ with_member s.object setting.now.member (plain_value setting.now.value.now)) }
    ensures sized { IfOk result (λ made. IsSized schema.now made) }
{
    let mut values = record_of(alloc, schema, seen)?;
    put_value(alloc, &mut values, setting.member, setting.value)?;
    Ok(sized(schema, home_of(seen), values))
}

fn put_value(
    alloc: Global,
    values: &mut Record,
    member: usize,
    value: &Value,
) -> Result<(), NoMemory>
    requires { member < length values.old }
    ensures { OnOk result (values.new ≡ set_at values.old member (plain_value value.now)) }
{
    let copy = value.copy(alloc)?;
    let _ = values.replace(member, copy);
    Ok(())
}
