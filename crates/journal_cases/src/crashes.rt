// What a crash leaves of an append.
ghost use Rattle.std.specs.Prelude.{Some};
ghost use Rattle.pss_disk.specs.Moments.{IsSettled};
ghost use Rattle.pss_disk.specs.Tape.{now_of, state_of};

use crate::journals::append_to;
use case_lines::{append_moments, station_of};
use pss_base::{Bytes, NoMemory};
use pss_disk::MemStation;
use redo_journal::{Replay, ReplayFault, replay};
use std::alloc::Global;

/// A body and where it is appended.
#[derive(Clone, Copy)]
pub struct Append<'a> {
    pub epoch: u64,
    pub end: u32,
    pub body: &'a [u8],
}

fn same_bodies(some: &[Bytes], others: &[Bytes]) -> bool {
    some.len() == others.len()
        && some
            .iter()
            .zip(others)
            .all(|(one, other)| one.as_slice() == other.as_slice())
}

// Whether the bodies are those of before and the new one.
fn has_new(bodies: &[Bytes], before: &[Bytes], body: &[u8]) -> bool {
    match bodies {
        [front @ .., last] => same_bodies(front, before) && last.as_slice() == body,
        [] => false,
    }
}

fn letter_of(found: &Replay, before: &[Bytes], append: &Append) -> u8 {
    let bodies = found.bodies.as_slice();
    let behind = u64::from(append.end) + 13 + append.body.len() as u64;
    if found.end == append.end && same_bodies(bodies, before) {
        return b'-';
    }
    if u64::from(found.end) == behind && has_new(bodies, before, append.body) {
        return b'+';
    }
    b'?'
}

// What a replay finds in an image.
fn letter_in(
    alloc: Global,
    image: &[u8],
    before: &[Bytes],
    append: &Append,
) -> Result<u8, NoMemory> {
    let mut station = station_of(alloc, image, None)?;
    match replay(alloc, &mut station, append.epoch) {
        Ok(found) => Ok(letter_of(&found, before, append)),
        Err(ReplayFault::NoMemory) => Err(NoMemory),
        Err(_) => Ok(b'?'),
    }
}

fn append_run(
    alloc: Global,
    out: &mut Bytes,
    station: &mut MemStation,
    before: &[Bytes],
    append: &Append,
) -> Result<(), NoMemory>
    requires { IsSettled (Some (state_of station.old).content) (now_of station.old) }
{
    match append_to(station, append.epoch, append.end, append.body) {
        Some(true) => out.extend(b"ok")?,
        Some(false) => out.extend(b"DiskFault")?,
        None => out.extend(b"does not fit")?,
    }
    append_moments(out, station, 0, |image| {
        letter_in(alloc, image, before, append)
    })
}

fn append_runs(
    alloc: Global,
    out: &mut Bytes,
    store: &[u8],
    before: &[Bytes],
    append: &Append,
) -> Result<(), NoMemory> {
    let mut station = station_of(alloc, store, None)?;
    append_run(alloc, out, &mut station, before, append)?;
    for call in 0..6u32 {
        let mut station = station_of(alloc, store, Some(call))?;
        append_run(alloc, out, &mut station, before, append)?;
    }
    Ok(())
}

/// The answers of appends to copies of a store, and what crashes leave of each.
pub fn append_crashes(
    alloc: Global,
    out: &mut Bytes,
    store: &[u8],
    append: &Append,
) -> Result<(), NoMemory> {
    let mut station = station_of(alloc, store, None)?;
    match replay(alloc, &mut station, append.epoch) {
        Ok(found) => append_runs(alloc, out, store, found.bodies.as_slice(), append),
        Err(_) => out.extend(b"damaged\n"),
    }
}
