// Operations, whichever they are.
ghost use Rattle.std.specs.Prelude.{IfOk};
ghost use Rattle.pss_machine.specs.Operations.{plain_op};
ghost use Rattle.owner_view.specs.Fitting.{FitsOp};
ghost use Rattle.owner_view.specs.Overlay.{changes_in};
ghost use Rattle.owner_view.specs.Views.{seen_with};
ghost use Rattle.owner_view.specs.Stored.{Sees};
ghost use Rattle.owner_view.specs.Steps.{IsStep};

use crate::ask::{exists, find_key, find_pid, find_short, get};
use crate::committed::Committed;
use crate::create::create;
use crate::destroy::destroy;
use crate::extent::{count, list};
use crate::follow::follow;
use crate::set::{Setting, set};
use crate::sized::sized;
use crate::step::Step;
use crate::view::View;
use pss_base::NoMemory;
use pss_machine::{Level, Op};
use std::alloc::Global;

/// What an operation comes to on what an owner sees.
#[inline(always)]
pub fn step_of<C: Committed>(
    alloc: Global,
    view: &View<'_, C>,
    level: Level,
    op: &Op,
) -> Result<Step, NoMemory>
    requires sees { Sees C.shows view.now }
    requires fits { FitsOp view.now.schema.now (plain_op op.now) }
    ensures { IfOk result (λ step. (v : Sees C.shows view.now) → IsStep view.now.schema.now level (seen_with v.catalog (changes_in view.now.overlay.now)) (plain_op op.now) step) }
{
    match op {
        Op::Create {
            serial,
            home,
            value,
        } => {
            let object = sized(view.schema, *home, value.copy(alloc)?);
            create(alloc, view, level, *serial, object)
        }
        Op::FindKey { home, key, bytes } => find_key(alloc, view, level, *home, *key, bytes),
        Op::FindPid { pid } => find_pid(alloc, view, level, *pid),
        Op::FindShort { home, serial } => find_short(alloc, view, level, *home, *serial),
        Op::Exists { pid } => exists(alloc, view, level, *pid),
        Op::Get { pid, member } => get(alloc, view, level, *pid, *member as usize),
        Op::Set { pid, member, value } => set(
            alloc,
            view,
            level,
            &Setting {
                pid: *pid,
                member: *member as usize,
                value,
            },
        ),
        Op::Destroy { pid } => destroy(alloc, view, level, *pid),
        Op::Follow { pid, member } => follow(alloc, view, level, *pid, *member as usize),
        Op::Count { home } => count(alloc, view, level, *home),
        Op::List { home } => list(alloc, view, level, *home),
    }
}
