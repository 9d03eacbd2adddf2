// A store is mounted, and steps are made.
ghost use Rattle.std.specs.Prelude.{◌≡◌, IfOk, OnOk, Some};
ghost use Rattle.pss_disk.specs.Moments.{IsSettled};
ghost use Rattle.pss_disk.specs.Tape.{now_of, state_of};
ghost use Rattle.type_layout.specs.Sound.{IsSoundSchema};
ghost use Rattle.pss_recovery.specs.Mounted.{MayFollow};

use crate::steps::{Step, copy_of, may_follow};
use pss_base::{DiskFault, NoMemory, StoreStop};
use pss_disk::MemStation;
use pss_recovery::{Body, MountFault, Store};
use std::alloc::Global;
use type_layout::Schema;

/// Why a run did not come to its end. Steps are counted from 1.
#[derive(Clone, Copy, Drop)]
pub enum RunStop {
    Mount(MountFault),
    /// The body of this step may not come next.
    NotNext(usize),
    /// A call of the disk failed in this step.
    DiskFault(usize),
    NoMemory,
}

// Why a step was not made.
#[derive(Clone, Copy, Drop)]
enum StepStop {
    NotNext,
    DiskFault,
    NoMemory,
}

impl StepStop {
    // Why the run did not come to its end whose step it is.
    fn of_step(self, number: usize) -> RunStop {
        match self {
            StepStop::NotNext => RunStop::NotNext(number),
            StepStop::DiskFault => RunStop::DiskFault(number),
            StepStop::NoMemory => RunStop::NoMemory,
        }
    }
}

fn of_store(stop: StoreStop) -> StepStop {
    match stop {
        StoreStop::DiskFault => StepStop::DiskFault,
        StoreStop::NoMemory => StepStop::NoMemory,
    }
}

// Commits a body that may come next. It answers the next serial.
fn commit(station: &mut MemStation, store: &mut Store, body: Body) -> Result<u64, StepStop>
    requires body { MayFollow store.old.next body }
    requires settled { IsSettled (Some (state_of station.old).content) (now_of station.old) }
    ensures next { IfOk result (λ next. store.new.next ≡ next) }
    ensures settled { OnOk result (IsSettled (Some (state_of station.new).content) (now_of station.new)) }
{
    let prepared = match store.prepare(station, body) {
        Ok(prepared) => prepared,
        Err(stop) => return Err(of_store(stop)),
    };
    let next = prepared.body.next;
    match store.commit(station, prepared) {
        Ok(()) => Ok(next),
        Err(DiskFault) => Err(StepStop::DiskFault),
    }
}

// Commits a copy of a body where it may come next.
fn commit_copy(
    alloc: Global,
    station: &mut MemStation,
    store: &mut Store,
    next: u64,
    body: &Body,
) -> Result<u64, StepStop>
    requires next { store.old.next ≡ next }
    requires settled { IsSettled (Some (state_of station.old).content) (now_of station.old) }
    ensures next { IfOk result (λ behind. store.new.next ≡ behind) }
    ensures settled { OnOk result (IsSettled (Some (state_of station.new).content) (now_of station.new)) }
{
    if !may_follow(next, body) {
        return Err(StepStop::NotNext);
    }
    match copy_of(alloc, body) {
        Ok(copy) => commit(station, store, copy),
        Err(NoMemory) => Err(StepStop::NoMemory),
    }
}

// Makes a checkpoint. It answers the next serial, which stays.
fn checkpoint(station: &mut MemStation, store: &mut Store, next: u64) -> Result<u64, StepStop>
    requires next { store.old.next ≡ next }
    requires settled { IsSettled (Some (state_of station.old).content) (now_of station.old) }
    ensures next { IfOk result (λ behind. store.new.next ≡ behind) }
    ensures settled { OnOk result (IsSettled (Some (state_of station.new).content) (now_of station.new)) }
{
    match store.checkpoint(station) {
        Ok(()) => Ok(next),
        Err(stop) => Err(of_store(stop)),
    }
}

// Makes a step. It answers the next serial behind it.
fn make(
    alloc: Global,
    station: &mut MemStation,
    store: &mut Store,
    next: u64,
    step: &Step,
) -> Result<u64, StepStop>
    requires next { store.old.next ≡ next }
    requires settled { IsSettled (Some (state_of station.old).content) (now_of station.old) }
    ensures next { IfOk result (λ behind. store.new.next ≡ behind) }
    ensures settled { OnOk result (IsSettled (Some (state_of station.new).content) (now_of station.new)) }
{
    match step {
        Step::Commit(body) => commit_copy(alloc, station, store, next, body),
        Step::Checkpoint => checkpoint(station, store, next),
    }
}

// Makes steps, one behind the other.
fn make_all(
    alloc: Global,
    station: &mut MemStation,
    store: &mut Store,
    next: u64,
    steps: &[Step],
) -> Result<(), RunStop>
    requires next { store.old.next ≡ next }
    requires settled { IsSettled (Some (state_of station.old).content) (now_of station.old) }
{
    let mut next = next;
    for (index, step) in steps.iter().enumerate() {
        next = match make(alloc, station, store, next, step) {
            Ok(behind) => behind,
            Err(stop) => return Err(stop.of_step(index + 1)),
        };
    }
    Ok(())
}

/// Mounts the store of a station, and makes steps.
pub fn run(
    alloc: Global,
    station: &mut MemStation,
    schema: &Schema,
    steps: &[Step],
) -> Result<(), RunStop>
    requires sound { IsSoundSchema schema.now }
    requires settled { IsSettled (Some (state_of station.old).content) (now_of station.old) }
{
    match Store::mount(alloc, station, schema) {
        Ok(mut mounted) => make_all(alloc, station, &mut mounted.store, mounted.next, steps),
        Err(fault) => Err(RunStop::Mount(fault)),
    }
}
