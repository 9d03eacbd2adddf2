// The root and the pages of a store in memory.
ghost use Rattle.page_format.specs.Roots.{IsWithinLimits};

use case_lines::append_octets;
use page_store::{PageFault, Pages, Root, RootFault, read_root};
use pss_base::{Bytes, NoMemory, Put};
use pss_disk::MemStation;
use std::alloc::Global;

fn append_root_fault(alloc: Global, out: &mut Bytes, fault: RootFault) -> Result<(), NoMemory> {
    match fault {
        RootFault::NotAStore => out.extend(b"NotAStore"),
        RootFault::Damaged(at, kind) => {
            out.extend(format!(in alloc; "Damaged {at} {kind:?}")?.as_bytes())
        }
        RootFault::DiskFault => out.extend(b"DiskFault"),
        RootFault::NoMemory => Err(NoMemory),
    }
}

fn append_page_fault(alloc: Global, out: &mut Bytes, fault: PageFault) -> Result<(), NoMemory> {
    match fault {
        PageFault::Damaged(at, kind) => {
            out.extend(format!(in alloc; "Damaged {at} {kind:?}")?.as_bytes())
        }
        PageFault::DiskFault => out.extend(b"DiskFault"),
        PageFault::NoMemory => Err(NoMemory),
    }
}

fn append_fields(alloc: Global, out: &mut Bytes, root: &Root) -> Result<(), NoMemory> {
    let (area, epoch, next) = (root.area, root.epoch, root.next);
    out.extend(format!(in alloc; "{area} {epoch} {next} ")?.as_bytes())?;
    append_octets(out, root.shape.as_slice())?;
    for slot in root.slots.as_slice() {
        out.extend(format!(in alloc; " {slot}")?.as_bytes())?;
    }
    Ok(())
}

/// The current root of a store.
pub fn append_root(
    alloc: Global,
    out: &mut Bytes,
    station: &mut MemStation,
) -> Result<(), NoMemory> {
    match read_root(alloc, station) {
        Ok(root) => append_fields(alloc, out, &root),
        Err(fault) => append_root_fault(alloc, out, fault),
    }
}

fn append_row(alloc: Global, out: &mut Bytes, put: &Put) -> Result<(), NoMemory> {
    let (home, serial) = (put.home, put.serial);
    out.extend(format!(in alloc; " {serial}:{home}:")?.as_bytes())?;
    match &put.bytes {
        Some(bytes) => append_octets(out, bytes.as_slice()),
        None => out.extend(b"-"),
    }
}

fn append_rows(alloc: Global, out: &mut Bytes, calls: u32, rows: &[Put]) -> Result<(), NoMemory> {
    out.extend(format!(in alloc; "{calls}")?.as_bytes())?;
    for row in rows {
        append_row(alloc, out, row)?;
    }
    Ok(())
}

fn append_fetched(
    alloc: Global,
    out: &mut Bytes,
    station: &mut MemStation,
    root: &Root,
) -> Result<(), NoMemory>
    requires { IsWithinLimits root.now }
{
    match Pages::fetch(alloc, station, root) {
        Ok(fetched) => append_rows(alloc, out, station.calls(), fetched.rows.as_slice()),
        Err(fault) => append_page_fault(alloc, out, fault),
    }
}

// The root and the objects, without the number of calls.
fn append_both(
    alloc: Global,
    out: &mut Bytes,
    station: &mut MemStation,
    root: &Root,
) -> Result<(), NoMemory>
    requires { IsWithinLimits root.now }
{
    append_fields(alloc, out, root)?;
    match Pages::fetch(alloc, station, root) {
        Ok(fetched) => append_rows(alloc, out, 0, fetched.rows.as_slice()),
        Err(fault) => append_page_fault(alloc, out, fault),
    }
}

/// The current root of a store and the objects in its pages.
pub fn append_store(
    alloc: Global,
    out: &mut Bytes,
    station: &mut MemStation,
) -> Result<(), NoMemory> {
    match read_root(alloc, station) {
        Ok(root) => append_both(alloc, out, station, &root),
        Err(fault) => append_root_fault(alloc, out, fault),
    }
}

/// The objects in the pages of the current root of a store.
pub fn append_pages(
    alloc: Global,
    out: &mut Bytes,
    station: &mut MemStation,
) -> Result<(), NoMemory> {
    match read_root(alloc, station) {
        Ok(root) => append_fetched(alloc, out, station, &root),
        Err(fault) => append_root_fault(alloc, out, fault),
    }
}
