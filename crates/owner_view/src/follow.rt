// The object that a member refers to.
ghost use Rattle.std.specs.Prelude.{◌≡◌, ◌<◌, ◌∷◌, [], IfOk, length, if◌then◌else◌};
ghost use Rattle.type_layout.specs.Schemas.{members_at};
ghost use Rattle.type_layout.specs.Types.{Ref};
ghost use Rattle.type_layout.specs.Views.{plain_value};
ghost use Rattle.pss_catalog.specs.Catalog.{references as references_in, has as has_in};
ghost use Rattle.pss_machine.specs.Operations.{Follow, Ask, Found, Gone, plain_answer};
ghost use Rattle.pss_machine.specs.Alone.{answers, followed};
ghost use Rattle.pss_machine.specs.Needs.{object_need, targets};
ghost use Rattle.owner_view.specs.Overlay.{changes_in};
ghost use Rattle.owner_view.specs.Views.{seen_with};
ghost use Rattle.owner_view.specs.Stored.{Sees};
ghost use Rattle.owner_view.specs.Steps.{ComesTo, IsNowhere, IsStep, with_reads};

use crate::ask::{answered, needs_to_read};
use crate::committed::Committed;
use crate::needs::need_reads;
use crate::references::references_of;
use crate::seen::member_of;
use crate::step::Step;
use crate::view::{View, has, object_of};
use pss_base::{NoMemory, Pid};
use pss_machine::{Answer, Level, Mode, Needs};
use std::alloc::Global;
use type_layout::Value;

/// Follows a member of an object.
pub fn follow<C: Committed>(
    alloc: Global,
    view: &View<'_, C>,
    level: Level,
    pid: Pid,
    member: usize,
) -> Result<Step, NoMemory>
    requires sees { Sees C.shows view.now }
    requires there { member < length (members_at view.now.schema.now (record { 0 = pid.home })) }
    ensures { IfOk result (λ step. (v : Sees C.shows view.now) → IsStep view.now.schema.now level (seen_with v.catalog (changes_in view.now.overlay.now)) (Ask (Follow pid member)) step) }
{
    match object_of(view, pid) {
        Some(seen) => {
            let value = member_of(alloc, view.schema, seen, member)?;
            follow_value(alloc, view, level, pid, &value)
        }
        None => nowhere(alloc, level, pid),
    }
}

// The step of an object that is not there.
fn nowhere(alloc: Global, level: Level, pid: Pid) -> Result<Step, NoMemory>
    ensures { IfOk result (λ step. IsNowhere level pid step) }
{
    let needs = needs_to_read(alloc, level, &[pid])?;
    Ok(answered(needs, Answer::Gone(pid)))
}

// The step of an object whose member has this value.
fn follow_value<C: Committed>(
    alloc: Global,
    view: &View<'_, C>,
    level: Level,
    pid: Pid,
    value: &Value,
) -> Result<Step, NoMemory>
    requires { Sees C.shows view.now }
    ensures { IfOk result (λ step. (v : Sees C.shows view.now) → ComesTo view.now.schema.now (seen_with v.catalog (changes_in view.now.overlay.now)) (with_reads level [] (object_need Mode.S pid.serial ∷ targets (references_in (plain_value value.now)))) (answers (followed (seen_with v.catalog (changes_in view.now.overlay.now)) pid (plain_value value.now))) step) }
{
    let references = references_of(alloc, value)?;
    let needs = needs_to_follow(alloc, level, pid, &references)?;
    Ok(answered(needs, leads(view, pid, value)))
}

fn needs_to_follow(
    alloc: Global,
    level: Level,
    pid: Pid,
    references: &[Pid],
) -> Result<Needs, NoMemory>
    ensures { IfOk result (λ needs. needs ≡ with_reads level [] (object_need Mode.S pid.serial ∷ targets references.now)) }
{
    let mut needs = needs_to_read(alloc, level, &[pid])?;
    need_reads(&mut needs, level, references)?;
    Ok(needs)
}

// Where a value leads. One that is no reference leads to nothing that is there.
fn leads<C: Committed>(view: &View<'_, C>, pid: Pid, value: &Value) -> Answer
    requires { Sees C.shows view.now }
    ensures { (v : Sees C.shows view.now) → plain_answer result ≡ followed (seen_with v.catalog (changes_in view.now.overlay.now)) pid (plain_value value.now) }
{
    match value {
        Value::Ref(Some(target)) => target_leads(view, *target),
        Value::Ref(None) => Answer::Nil,
        Value::Int(_) => Answer::Gone(pid),
        Value::Char(_) => Answer::Gone(pid),
        Value::Bool(_) => Answer::Gone(pid),
        Value::Enum(_) => Answer::Gone(pid),
        Value::Str(_) => Answer::Gone(pid),
        Value::List(_) => Answer::Gone(pid),
        Value::Struct(_) => Answer::Gone(pid),
    }
}

fn target_leads<C: Committed>(view: &View<'_, C>, target: Pid) -> Answer
    requires { Sees C.shows view.now }
    ensures { (v : Sees C.shows view.now) → plain_answer result ≡ (if has_in (seen_with v.catalog (changes_in view.now.overlay.now)) target then Found target else Gone target) }
{
    if has(view, target) {
        Answer::Found(target)
    } else {
        Answer::Gone(target)
    }
}
