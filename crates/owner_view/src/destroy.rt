// Objects that go.
ghost use Rattle.std.specs.Prelude.{◌≡◌, Some, IfOk};
ghost use Rattle.pss_machine.specs.Operations.{Destroy};
ghost use Rattle.owner_view.specs.Overlay.{changes_in};
ghost use Rattle.owner_view.specs.Seen.{home_seen};
ghost use Rattle.owner_view.specs.Views.{seen_with};
ghost use Rattle.owner_view.specs.Stored.{Sees, IsSeenAt};
ghost use Rattle.owner_view.specs.Steps.{IsStep, IsRemoval, whole_needs};

use crate::committed::Committed;
use crate::draft::keys_of_found;
use crate::gone::step_of_gone;
use crate::needs::need_whole;
use crate::seen::home_of;
use crate::states::Slot;
use crate::step::{NewState, Pairs, Step};
use crate::view::{Found, View, object_of};
use pss_base::{Bytes, NoMemory, Pid};
use pss_machine::{Answer, Level, Needs};
use std::alloc::Global;
use type_layout::{HomeNo, KeyNo};

/// Removes an object.
pub fn destroy<C: Committed>(
    alloc: Global,
    view: &View<'_, C>,
    level: Level,
    pid: Pid,
) -> Result<Step, NoMemory>
    requires { Sees C.shows view.now }
    ensures { IfOk result (λ step. (v : Sees C.shows view.now) → IsStep view.now.schema.now level (seen_with v.catalog (changes_in view.now.overlay.now)) (Destroy pid) step) }
{
    match object_of(view, pid) {
        Some(seen) => {
            let found = Found {
                serial: pid.serial,
                seen,
            };
            removal(alloc, view, &found)
        }
        None => step_of_gone(alloc, level, pid, &[]),
    }
}

// The step that removes an object that the view has.
fn removal<C: Committed>(
    alloc: Global,
    view: &View<'_, C>,
    found: &Found<'_>,
) -> Result<Step, NoMemory>
    requires sees { Sees C.shows view.now }
    requires found { (v : Sees C.shows view.now) → IsSeenAt view.now.schema.now (seen_with v.catalog (changes_in view.now.overlay.now)) found.now.serial (Some found.now.seen) }
    ensures { IfOk result (λ step. (v : Sees C.shows view.now) → IsRemoval view.now.schema.now (seen_with v.catalog (changes_in view.now.overlay.now)) found.now.serial (home_seen found.now.seen) step) }
{
    let serial = found.serial;
    let had = keys_of_found(alloc, view, found)?;
    let needs = needs_of_removal(alloc, serial, home_of(found.seen), &had)?;
    Ok(Step {
        needs,
        answer: Answer::Done,
        put: Some(NewState {
            serial,
            slot: Slot::Gone,
            pairs: Pairs {
                had,
                has: Vec::new(alloc),
            },
        }),
    })
}

fn needs_of_removal(
    alloc: Global,
    serial: u64,
    home: HomeNo,
    had: &[(KeyNo, Bytes)],
) -> Result<Needs, NoMemory>
    ensures { IfOk result (λ needs. needs ≡ whole_needs serial home had.now) }
{
    let mut needs = Needs::new(alloc);
    need_whole(&mut needs, serial, home, had)?;
    Ok(needs)
}
