// What a store stands for, as text.
use case_lines::append_octets;
use pss_base::{Bytes, NoMemory};
use pss_recovery::{MountFault, Mounted};
use std::alloc::Global;
use storage_home::Homes;
use type_layout::{HomeNo, Schema};

/// Why a store is not mounted.
pub fn append_fault(alloc: Global, out: &mut Bytes, fault: MountFault) -> Result<(), NoMemory> {
    match fault {
        MountFault::NotAStore => out.extend(b"NotAStore"),
        MountFault::ShapeDiffers(home) => {
            out.extend(format!(in alloc; "ShapeDiffers {}", home.0)?.as_bytes())
        }
        MountFault::Damaged(at, kind) => {
            out.extend(format!(in alloc; "Damaged {at} {kind:?}")?.as_bytes())
        }
        MountFault::DiskFault => out.extend(b"DiskFault"),
        MountFault::NoMemory => Err(NoMemory),
    }
}

// Puts the serials of the objects of a home behind others. An extent has the objects of the home's heirs too, which these tell of.
fn add_serials(serials: &mut Vec<u64>, homes: &Homes, home: HomeNo) -> Result<(), NoMemory> {
    let pids = homes.first(home, u32::MAX)?;
    for pid in pids.as_slice() {
        if pid.home == home.0 {
            serials.push(pid.serial)?;
        }
    }
    Ok(())
}

// The serials of all objects, rising.
fn serials_of(alloc: Global, schema: &Schema, homes: &Homes) -> Result<Vec<u64>, NoMemory> {
    let mut serials = Vec::new(alloc);
    for (home, _) in (1..=u32::MAX).zip(schema.homes.as_slice()) {
        add_serials(&mut serials, homes, HomeNo(home))?;
    }
    serials.sort()?;
    Ok(serials)
}

fn append_object(
    alloc: Global,
    out: &mut Bytes,
    homes: &Homes,
    serial: u64,
) -> Result<(), NoMemory> {
    match homes.get(serial) {
        Some((home, record)) => {
            out.extend(format!(in alloc; " {serial}:{}:", home.0)?.as_bytes())?;
            append_octets(out, record)
        }
        None => out.extend(b" ?"),
    }
}

/// The next serial and the objects of a store that was mounted, by serial.
pub fn append_mounted(
    alloc: Global,
    out: &mut Bytes,
    schema: &Schema,
    mounted: &Mounted,
) -> Result<(), NoMemory> {
    out.extend(format!(in alloc; "ok {}", mounted.next)?.as_bytes())?;
    for serial in serials_of(alloc, schema, &mounted.homes)? {
        append_object(alloc, out, &mounted.homes, serial)?;
    }
    Ok(())
}
