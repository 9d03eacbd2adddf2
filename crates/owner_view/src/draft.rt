// An object that would come to be or become another, before it is known whether it may.
ghost use Rattle.std.specs.Prelude.{◌≡◌, List, Some, length, IfOk};
ghost use Rattle.pss_base.specs.declared.pid.Pid.{Pid as Referred};
ghost use Rattle.type_layout.specs.declared.schema.Schema.{Schema as PlainSchema};
ghost use Rattle.pss_catalog.specs.Catalog.{Catalog};
ghost use Rattle.pss_machine.specs.declared.lock.Need.{Need};
ghost use Rattle.pss_machine.specs.Operations.{plain_answer};
ghost use Rattle.std.specs.FinMap as map;
ghost use Rattle.pss_machine.specs.Needs.{targets};
ghost use Rattle.owner_view.specs.Overlay.{changes_in};
ghost use Rattle.owner_view.specs.Keyed.{all_keyed, keys_of};
ghost use Rattle.type_layout.specs.Sound.{IsSoundSchema};
ghost use Rattle.owner_view.specs.Seen.{Fits, IsOfHome, plain_object};
ghost use Rattle.owner_view.specs.Sized.{IsSized};
ghost use Rattle.owner_view.specs.Views.{seen_with};
ghost use Rattle.owner_view.specs.Stored.{Sees, IsSeenAt};
ghost use Rattle.owner_view.specs.Steps.{IsDraft, ComesTo, stored_unless, whole_needs, set_needs, with_reads};

use crate::committed::Committed;
use crate::keyed::keyed_of;
use crate::needs::{need_reads, need_set, need_whole};
use crate::object::Changed;
use crate::refusal::{Refusal, refusal_of};
use crate::seen::Seen;
use crate::states::Slot;
use crate::step::{NewState, Pairs, Step};
use crate::view::{Found, View, object_at};
use pss_base::{Bytes, NoMemory, Pid};
use pss_machine::{Answer, Level, Needs};
use std::alloc::Global;
use type_layout::{KeyNo, Schema};

/// What an object that would stand at a serial needs, why it may not where it may not, and its keys.
#[derive(Drop)]
pub struct Draft {
    pub needs: Needs,
    pub refusal: Option<Refusal>,
    pub pairs: Pairs,
}

/// An object that would come to be, with the objects that it refers to.
#[inline(always)]
pub fn draft_new<C: Committed>(
    alloc: Global,
    view: &View<'_, C>,
    level: Level,
    serial: u64,
    object: &Changed,
    references: &[Pid],
) -> Result<Draft, NoMemory>
    requires sees { Sees C.shows view.now }
    requires fits { Fits view.now.schema.now (plain_object object.now) }
    requires sized { IsSized view.now.schema.now object.now }
    ensures { IfOk result (λ draft. (v : Sees C.shows view.now) → IsDraft view.now.schema.now (seen_with v.catalog (changes_in view.now.overlay.now)) serial (plain_object object.now) (with_reads level (whole_needs serial object.now.home (all_keyed view.now.schema.now (plain_object object.now))) (targets references.now)) (stored_unless view.now.schema.now (seen_with v.catalog (changes_in view.now.overlay.now)) serial (plain_object object.now) references.now) draft) }
{
    let had = keys_at(alloc, view, serial)?;
    let pairs = with_keys_of(alloc, view.schema, had, object)?;
    let needs = needs_of_new(alloc, level, serial, object, &pairs.has, references)?;
    Ok(Draft {
        needs,
        refusal: refusal_of(view, serial, object, references, &pairs.has),
        pairs,
    })
}

#[inline(always)]
fn needs_of_new(
    alloc: Global,
    level: Level,
    serial: u64,
    object: &Changed,
    has: &[(KeyNo, Bytes)],
    references: &[Pid],
) -> Result<Needs, NoMemory>
    ensures { IfOk result (λ needs. needs ≡ with_reads level (whole_needs serial object.now.home has.now) (targets references.now)) }
{
    let mut needs = Needs::new(alloc);
    need_whole(&mut needs, serial, object.home, has)?;
    need_reads(&mut needs, level, references)?;
    Ok(needs)
}

/// An object that the view has and that would become another, with the objects to which its new value refers.
pub fn draft_set<C: Committed>(
    alloc: Global,
    view: &View<'_, C>,
    level: Level,
    found: &Found<'_>,
    object: &Changed,
    references: &[Pid],
) -> Result<Draft, NoMemory>
    requires sees { Sees C.shows view.now }
    requires fits { Fits view.now.schema.now (plain_object object.now) }
    requires sized { IsSized view.now.schema.now object.now }
    requires found { (v : Sees C.shows view.now) → IsSeenAt view.now.schema.now (seen_with v.catalog (changes_in view.now.overlay.now)) found.now.serial (Some found.now.seen) }
    requires home { (v : Sees C.shows view.now) → IsOfHome (map.get (seen_with v.catalog (changes_in view.now.overlay.now)) found.now.serial) object.now.home }
    ensures { IfOk result (λ draft. (v : Sees C.shows view.now) → IsDraft view.now.schema.now (seen_with v.catalog (changes_in view.now.overlay.now)) found.now.serial (plain_object object.now) (with_reads level (set_needs found.now.serial (keys_of view.now.schema.now (map.get (seen_with v.catalog (changes_in view.now.overlay.now)) found.now.serial)) (all_keyed view.now.schema.now (plain_object object.now))) (targets references.now)) (stored_unless view.now.schema.now (seen_with v.catalog (changes_in view.now.overlay.now)) found.now.serial (plain_object object.now) references.now) draft) }
{
    let had = keys_of_found(alloc, view, found)?;
    let pairs = with_keys_of(alloc, view.schema, had, object)?;
    let needs = needs_of_set(alloc, level, found.serial, &pairs, references)?;
    Ok(Draft {
        needs,
        refusal: refusal_of(view, found.serial, object, references, &pairs.has),
        pairs,
    })
}

fn needs_of_set(
    alloc: Global,
    level: Level,
    serial: u64,
    pairs: &Pairs,
    references: &[Pid],
) -> Result<Needs, NoMemory>
    requires { length pairs.now.had.items ≡ length pairs.now.has.items }
    ensures { IfOk result (λ needs. needs ≡ with_reads level (set_needs serial pairs.now.had.items pairs.now.has.items) (targets references.now)) }
{
    let mut needs = Needs::new(alloc);
    need_set(&mut needs, serial, &pairs.had, &pairs.has)?;
    need_reads(&mut needs, level, references)?;
    Ok(needs)
}

// The keys that an object had, and those of the one that it would become.
#[inline(always)]
fn with_keys_of(
    alloc: Global,
    schema: &Schema,
    had: Vec<(KeyNo, Bytes)>,
    object: &Changed,
) -> Result<Pairs, NoMemory>
    requires sound { IsSoundSchema schema.now }
    requires fits { Fits schema.now (plain_object object.now) }
    ensures had { IfOk result (λ pairs. pairs.had.items ≡ had.items) }
    ensures has { IfOk result (λ pairs. pairs.has.items ≡ all_keyed schema.now (plain_object object.now)) }
{
    let has = keys_of_changed(alloc, schema, object)?;
    Ok(Pairs { had, has })
}

// The keys of the object that the view has at a serial, none where it has none.
#[inline(always)]
fn keys_at<C: Committed>(
    alloc: Global,
    view: &View<'_, C>,
    serial: u64,
) -> Result<Vec<(KeyNo, Bytes)>, NoMemory>
    requires { Sees C.shows view.now }
    ensures { IfOk result (λ pairs. (v : Sees C.shows view.now) → pairs.items ≡ keys_of view.now.schema.now (map.get (seen_with v.catalog (changes_in view.now.overlay.now)) serial)) }
{
    match object_at(view, serial) {
        Some(seen) => keys_of_found(alloc, view, &Found { serial, seen }),
        None => Ok(Vec::new(alloc)),
    }
}

/// The keys of an object that the view has.
pub fn keys_of_found<C: Committed>(
    alloc: Global,
    view: &View<'_, C>,
    found: &Found<'_>,
) -> Result<Vec<(KeyNo, Bytes)>, NoMemory>
    requires sees { Sees C.shows view.now }
    requires found { (v : Sees C.shows view.now) → IsSeenAt view.now.schema.now (seen_with v.catalog (changes_in view.now.overlay.now)) found.now.serial (Some found.now.seen) }
    ensures { IfOk result (λ pairs. (v : Sees C.shows view.now) → pairs.items ≡ keys_of view.now.schema.now (map.get (seen_with v.catalog (changes_in view.now.overlay.now)) found.now.serial)) }
{
    keyed_of(alloc, view.schema, found.seen)
}

/// The keys of an object as an owner changed it.
#[inline(always)]
pub fn keys_of_changed(
    alloc: Global,
    schema: &Schema,
    object: &Changed,
) -> Result<Vec<(KeyNo, Bytes)>, NoMemory>
    requires sound { IsSoundSchema schema.now }
    requires fits { Fits schema.now (plain_object object.now) }
    ensures { IfOk result (λ pairs. pairs.items ≡ all_keyed schema.now (plain_object object.now)) }
{
    keyed_of(alloc, schema, Seen::Own(object))
}

impl Draft {
    /// The step that puts the object, unless it is refused.
    #[inline(always)]
    pub fn step(self, serial: u64, object: Changed, done: Answer) -> Step
        ensures { (S : PlainSchema) (V : Catalog) (needed : List Need) (references : List Referred) → Fits S (plain_object object) → IsSized S object → IsDraft S V serial (plain_object object) needed (stored_unless S V serial (plain_object object) references) self → ComesTo S V needed (stored_unless S V serial (plain_object object) references (plain_answer done)) result }
    {
        let Draft {
            needs,
            refusal,
            pairs,
        } = self;
        match refusal {
            Some(refusal) => Step {
                needs,
                answer: refusal.answer(),
                put: None,
            },
            None => Step {
                needs,
                answer: done,
                put: Some(NewState {
                    serial,
                    slot: Slot::There(object),
                    pairs,
                }),
            },
        }
    }
}
