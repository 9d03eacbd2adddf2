// What a crash leaves of a checkpoint.
ghost use Rattle.std.specs.Prelude.{Some};
ghost use Rattle.pss_disk.specs.Moments.{IsSettled};
ghost use Rattle.pss_disk.specs.Tape.{now_of, state_of};

use crate::checkpoints::{Changes, Ended, make};
use crate::roots::append_store;
use case_lines::{append_moments, station_of};
use pss_base::{Bytes, NoMemory};
use pss_disk::MemStation;
use std::alloc::Global;

/// How a store is told before a checkpoint and after it.
#[derive(Clone, Copy)]
struct Told<'a> {
    before: &'a [u8],
    after: &'a [u8],
}

/// The root and the objects of a store.
pub fn told_of(alloc: Global, store: &[u8]) -> Result<Bytes, NoMemory> {
    let mut told = Bytes::new(alloc);
    let mut station = station_of(alloc, store, None)?;
    append_store(alloc, &mut told, &mut station)?;
    Ok(told)
}

// What an image has: the store of before, the next one, or neither.
fn letter_in(alloc: Global, image: &[u8], told: Told) -> Result<u8, NoMemory> {
    let found = told_of(alloc, image)?;
    if found.as_slice() == told.before {
        Ok(b'-')
    } else if found.as_slice() == told.after {
        Ok(b'+')
    } else {
        Ok(b'?')
    }
}

/// The word for the end of a checkpoint.
pub fn word_of(ended: Ended) -> &'static [u8] {
    match ended {
        Ended::Made => b"ok",
        Ended::DiskFault => b"DiskFault",
        Ended::NotRead => b"not read",
    }
}

fn append_run(
    alloc: Global,
    out: &mut Bytes,
    station: &mut MemStation,
    changes: Changes,
    told: Told,
) -> Result<(), NoMemory>
    requires { IsSettled (Some (state_of station.old).content) (now_of station.old) }
{
    let ended = make(alloc, station, changes)?;
    out.extend(word_of(ended))?;
    append_moments(out, station, 0, |image| letter_in(alloc, image, told))
}

fn append_runs(
    alloc: Global,
    out: &mut Bytes,
    store: &[u8],
    changes: Changes,
    told: Told,
    calls: u32,
) -> Result<(), NoMemory> {
    let mut station = station_of(alloc, store, None)?;
    append_run(alloc, out, &mut station, changes, told)?;
    for call in 0..calls {
        let mut station = station_of(alloc, store, Some(call))?;
        append_run(alloc, out, &mut station, changes, told)?;
    }
    Ok(())
}

/// The answers of a checkpoint of copies of a store, and what crashes leave of each.
pub fn append_crashes(
    alloc: Global,
    out: &mut Bytes,
    store: &[u8],
    changes: Changes,
) -> Result<(), NoMemory> {
    let mut station = station_of(alloc, store, None)?;
    let _ = make(alloc, &mut station, changes)?;
    let before = told_of(alloc, store)?;
    let after = told_of(alloc, station.bytes())?;
    let told = Told {
        before: before.as_slice(),
        after: after.as_slice(),
    };
    append_runs(alloc, out, store, changes, told, station.calls())
}
