// What crashes leave of a run.
ghost use Rattle.std.specs.Prelude.{◌≤◌, length};
ghost use Rattle.type_layout.specs.Sound.{IsSoundSchema};

use crate::runs::{RunStop, run};
use crate::steps::Step;
use crate::telling::{append_fault, append_mounted};
use case_lines::{append_moments, station_of};
use pss_base::{Bytes, NoMemory};
use pss_disk::MemStation;
use pss_recovery::Store;
use std::alloc::Global;
use type_layout::Schema;

/// A store, its schema, and the steps of a run; and from which call of the disk on it is looked at.
#[derive(Clone, Copy)]
pub struct Plan<'a> {
    pub schema: &'a Schema,
    pub store: &'a [u8],
    pub steps: &'a [Step],
    pub from: u32,
}

/// What a store stands for, or why it is refused.
pub fn append_store(
    alloc: Global,
    out: &mut Bytes,
    schema: &Schema,
    station: &mut MemStation,
) -> Result<(), NoMemory>
    requires { IsSoundSchema schema.now }
{
    match Store::mount(alloc, station, schema) {
        Ok(mounted) => append_mounted(alloc, out, schema, &mounted),
        Err(fault) => append_fault(alloc, out, fault),
    }
}

fn told_of(alloc: Global, schema: &Schema, store: &[u8]) -> Result<Bytes, NoMemory>
    requires { IsSoundSchema schema.now }
{
    let mut told = Bytes::new(alloc);
    let mut station = station_of(alloc, store, None)?;
    append_store(alloc, &mut told, schema, &mut station)?;
    Ok(told)
}

// What the store stands for behind so many steps.
fn told_behind(alloc: Global, plan: Plan, steps: usize) -> Result<Bytes, NoMemory>
    requires sound { IsSoundSchema plan.schema.now }
    requires within { steps ≤ length plan.steps.now }
{
    let mut station = station_of(alloc, plan.store, None)?;
    let _ = run(alloc, &mut station, plan.schema, &plan.steps[..steps]);
    told_of(alloc, plan.schema, station.bytes())
}

// The same behind each of the steps, and in front of the first.
fn all_told(alloc: Global, plan: Plan) -> Result<Vec<Bytes>, NoMemory>
    requires sound { IsSoundSchema plan.schema.now }
{
    let mut told = Vec::new(alloc);
    for steps in 0..=plan.steps.len() {
        told.push(told_behind(alloc, plan, steps)?)?;
    }
    Ok(told)
}

/// A schema, and what a store stood for behind so many steps, from none on.
#[derive(Clone, Copy)]
struct Told<'a> {
    schema: &'a Schema,
    behind: &'a [Bytes],
}

// The number of the last step behind which the store stood for the same.
fn letter_in(alloc: Global, image: &[u8], told: Told) -> Result<u8, NoMemory>
    requires { IsSoundSchema told.schema.now }
{
    let found = told_of(alloc, told.schema, image)?;
    let mut letter = b'?';
    for (digit, known) in (b'0'..=b'9').zip(told.behind) {
        if known.as_slice() == found.as_slice() {
            letter = digit;
        }
    }
    Ok(letter)
}

/// How a run ended.
pub fn append_end(
    alloc: Global,
    out: &mut Bytes,
    ended: Result<(), RunStop>,
) -> Result<(), NoMemory> {
    match ended {
        Ok(()) => out.extend(b"ok"),
        Err(RunStop::Mount(fault)) => {
            out.extend(b"mount: ")?;
            append_fault(alloc, out, fault)
        }
        Err(RunStop::NotNext(step)) => {
            out.extend(format!(in alloc; "step {step}: not next")?.as_bytes())
        }
        Err(RunStop::DiskFault(step)) => {
            out.extend(format!(in alloc; "step {step}: DiskFault")?.as_bytes())
        }
        Err(RunStop::NoMemory) => Err(NoMemory),
    }
}

// A run whose call of this number fails, where there is one. It answers how many calls there were.
fn append_run(
    alloc: Global,
    out: &mut Bytes,
    plan: Plan,
    told: &[Bytes],
    failing: Option<u32>,
) -> Result<u32, NoMemory>
    requires sound { IsSoundSchema plan.schema.now }
{
    let mut station = station_of(alloc, plan.store, failing)?;
    let ended = run(alloc, &mut station, plan.schema, plan.steps);
    append_end(alloc, out, ended)?;
    let told = Told {
        schema: plan.schema,
        behind: told,
    };
    append_moments(out, &station, plan.from, |image| {
        letter_in(alloc, image, told)
    })?;
    Ok(station.calls())
}

/// `crashes`: how runs of a plan end, and what crashes leave of them.
pub fn append_crashes(alloc: Global, out: &mut Bytes, plan: Plan) -> Result<(), NoMemory>
    requires sound { IsSoundSchema plan.schema.now }
{
    let told = all_told(alloc, plan)?;
    let calls = append_run(alloc, out, plan, &told, None)?;
    for call in plan.from..calls {
        append_run(alloc, out, plan, &told, Some(call))?;
    }
    Ok(())
}
