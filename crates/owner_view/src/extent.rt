// How many objects homes have, and which are the first.
ghost use Rattle.std.specs.Prelude.{◌≡◌, [], map, IfOk};
ghost use Rattle.pss_machine.specs.declared.lock.Mode.TheVariants.{S as Read};
ghost use Rattle.pss_machine.specs.Homes.{below};
ghost use Rattle.pss_machine.specs.Needs.{extent_need};
ghost use Rattle.pss_machine.specs.Operations.{Ask, Count, ListOf};
ghost use Rattle.owner_view.specs.Overlay.{changes_in};
ghost use Rattle.owner_view.specs.Views.{seen_with};
ghost use Rattle.owner_view.specs.Stored.{Sees};
ghost use Rattle.owner_view.specs.Steps.{IsStep, with_reads};

use crate::ask::answered;
use crate::below::homes_below;
use crate::committed::Committed;
use crate::first::first_in;
use crate::needs::need_extents;
use crate::number::number_in;
use crate::step::Step;
use crate::view::View;
use pss_base::NoMemory;
use pss_machine::{Answer, Level, Needs};
use std::alloc::Global;
use type_layout::HomeNo;

/// How many objects a home and those derived from it have.
pub fn count<C: Committed>(
    alloc: Global,
    view: &View<'_, C>,
    level: Level,
    home: HomeNo,
) -> Result<Step, NoMemory>
    requires { Sees C.shows view.now }
    ensures { IfOk result (λ step. (v : Sees C.shows view.now) → IsStep view.now.schema.now level (seen_with v.catalog (changes_in view.now.overlay.now)) (Ask (Count home)) step) }
{
    let number = number_in(view, home);
    let needs = needs_of_extents(alloc, view, level, home)?;
    Ok(answered(needs, Answer::Count(number)))
}

/// How many these are, and the first of them by serial.
pub fn list<C: Committed>(
    alloc: Global,
    view: &View<'_, C>,
    level: Level,
    home: HomeNo,
) -> Result<Step, NoMemory>
    requires { Sees C.shows view.now }
    ensures { IfOk result (λ step. (v : Sees C.shows view.now) → IsStep view.now.schema.now level (seen_with v.catalog (changes_in view.now.overlay.now)) (Ask (ListOf home)) step) }
{
    let number = number_in(view, home);
    let needs = needs_of_extents(alloc, view, level, home)?;
    match first_in(alloc, view, home) {
        Ok(first) => Ok(answered(needs, Answer::List(number, first))),
        Err(NoMemory) => Err(NoMemory),
    }
}

fn needs_of_extents<C: Committed>(
    alloc: Global,
    view: &View<'_, C>,
    level: Level,
    home: HomeNo,
) -> Result<Needs, NoMemory>
    requires { Sees C.shows view.now }
    ensures { IfOk result (λ needs. needs ≡ with_reads level [] (map (extent_need Read) (below view.now.schema.now home))) }
{
    match level {
        Level::Serializable => needs_below(alloc, view, home),
        Level::ReadCommitted => Ok(Needs::new(alloc)),
        Level::Basic => Ok(Needs::new(alloc)),
    }
}

// What is needed to read the extents of a home and of those derived from it.
fn needs_below<C: Committed>(
    alloc: Global,
    view: &View<'_, C>,
    home: HomeNo,
) -> Result<Needs, NoMemory>
    requires { Sees C.shows view.now }
    ensures { IfOk result (λ needs. needs ≡ map (extent_need Read) (below view.now.schema.now home)) }
{
    let homes = homes_below(alloc, view.committed.families(), home)?;
    needs_of(alloc, &homes)
}

fn needs_of(alloc: Global, homes: &[HomeNo]) -> Result<Needs, NoMemory>
    ensures { IfOk result (λ needs. needs ≡ map (extent_need Read) homes.now) }
{
    let mut needs = Needs::new(alloc);
    need_extents(&mut needs, homes)?;
    Ok(needs)
}
