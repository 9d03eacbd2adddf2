// Checkpoints of a store in memory.
ghost use Rattle.std.specs.Prelude.{◌≡◌, IsTrue, IfOk, Some};
ghost use Rattle.page_format.specs.Objects.{IsRightPut};
ghost use Rattle.page_format.specs.Roots.{IsWithinLimits};
ghost use Rattle.pss_disk.specs.Moments.{IsSettled};
ghost use Rattle.pss_disk.specs.Tape.{now_of, state_of};

use page_store::{Fetched, Pages, Root, read_root};
use pss_base::{NoMemory, Put, StoreStop};
use pss_disk::MemStation;
use std::alloc::Global;

/// What a checkpoint is made with.
#[derive(Clone, Copy)]
pub struct Changes<'a> {
    pub puts: &'a [Put],
    pub next: u64,
}

/// How a checkpoint ended.
#[derive(Clone, Copy, PartialEq, Eq)]
pub enum Ended {
    Made,
    DiskFault,
    /// The root or its pages were not read.
    NotRead,
}

// Whether a change may be noted.
fn may_be_noted(put: &Put) -> bool
    ensures { IsTrue result → IsRightPut put.now }
{
    match &put.bytes {
        Some(bytes) => {
            let len = bytes.as_slice().len();
            0 < len && len <= 8000
        }
        None => true,
    }
}

fn copy_of(put: &Put) -> Result<Put, NoMemory>
    ensures { IfOk result (λ copy. copy ≡ put.now) }
{
    let (home, serial) = (put.home, put.serial);
    match &put.bytes {
        Some(bytes) => {
            let bytes = Some(bytes.copy()?);
            Ok(Put {
                home,
                serial,
                bytes,
            })
        }
        None => Ok(Put {
            home,
            serial,
            bytes: None,
        }),
    }
}

fn note(pages: &mut Pages, put: &Put) -> Result<(), NoMemory> {
    if !may_be_noted(put) {
        return Ok(());
    }
    let copy = copy_of(put)?;
    pages.note_reserve(1)?;
    pages.note_reserved(copy);
    Ok(())
}

fn note_all(pages: &mut Pages, puts: &[Put]) -> Result<(), NoMemory> {
    for put in puts {
        note(pages, put)?;
    }
    Ok(())
}

fn checkpoint(
    station: &mut MemStation,
    pages: &mut Pages,
    changes: Changes,
) -> Result<Ended, NoMemory>
    requires { IsSettled (Some (state_of station.old).content) (now_of station.old) }
{
    note_all(pages, changes.puts)?;
    match pages.checkpoint(station, changes.next.max(1)) {
        Ok(()) => Ok(Ended::Made),
        Err(StoreStop::DiskFault) => Ok(Ended::DiskFault),
        Err(StoreStop::NoMemory) => Err(NoMemory),
    }
}

fn checkpoint_of(
    alloc: Global,
    station: &mut MemStation,
    root: &Root,
    changes: Changes,
) -> Result<Ended, NoMemory>
    requires root { IsWithinLimits root.now }
    requires settled { IsSettled (Some (state_of station.old).content) (now_of station.old) }
{
    match Pages::fetch(alloc, station, root) {
        Ok(Fetched { mut pages, rows: _ }) => checkpoint(station, &mut pages, changes),
        Err(_) => Ok(Ended::NotRead),
    }
}

/// Makes a checkpoint of the store of a station, none of whose calls came yet.
pub fn make(alloc: Global, station: &mut MemStation, changes: Changes) -> Result<Ended, NoMemory>
    requires { IsSettled (Some (state_of station.old).content) (now_of station.old) }
{
    match read_root(alloc, station) {
        Ok(root) => checkpoint_of(alloc, station, &root, changes),
        Err(_) => Ok(Ended::NotRead),
    }
}
