// A store in memory: its journal is replayed, and bodies are appended.
ghost use Rattle.std.specs.Prelude.{Some};
ghost use Rattle.pss_disk.specs.Moments.{IsSettled};
ghost use Rattle.pss_disk.specs.Tape.{now_of, state_of};

use case_lines::{append_octets, station_of, sum_of};
use pss_base::{Bytes, NoMemory};
use pss_disk::MemStation;
use redo_journal::{Journal, Replay, ReplayFault, replay};
use std::alloc::Global;

/// Bodies of more octets are told by their number and a sum.
const MOST_SHOWN: usize = 200;

/// Appends a body of a length that fits to the journal of a fresh station.
pub fn append_to(station: &mut MemStation, epoch: u64, end: u32, body: &[u8]) -> Option<bool>
    requires { IsSettled (Some (state_of station.old).content) (now_of station.old) }
{
    let mut journal = Journal::start(end, epoch);
    let Ok(len) = u32::try_from(body.len()) else {
        return None;
    };
    if !journal.fits(len) {
        return None;
    }
    Some(journal.append(station, body).is_ok())
}

fn append_body(alloc: Global, out: &mut Bytes, body: &[u8]) -> Result<(), NoMemory> {
    if body.len() <= MOST_SHOWN {
        return append_octets(out, body);
    }
    let (len, sum) = (body.len(), sum_of(body));
    out.extend(format!(in alloc; "{len}:{sum}")?.as_bytes())
}

fn append_replay(
    alloc: Global,
    out: &mut Bytes,
    calls: u32,
    found: &Replay,
) -> Result<(), NoMemory> {
    let end = found.end;
    out.extend(format!(in alloc; "{end} {calls}")?.as_bytes())?;
    for body in found.bodies.as_slice() {
        out.extend(b" ")?;
        append_body(alloc, out, body.as_slice())?;
    }
    Ok(())
}

fn append_fault(alloc: Global, out: &mut Bytes, fault: ReplayFault) -> Result<(), NoMemory> {
    match fault {
        ReplayFault::Damaged(at) => out.extend(format!(in alloc; "Damaged {at}")?.as_bytes()),
        ReplayFault::DiskFault => out.extend(b"DiskFault"),
        ReplayFault::NoMemory => Err(NoMemory),
    }
}

/// What the journal of an epoch holds, where the call of a number fails, if there is one.
pub fn append_found(
    alloc: Global,
    out: &mut Bytes,
    store: &[u8],
    epoch: u64,
    failing: Option<u32>,
) -> Result<(), NoMemory> {
    let mut station = station_of(alloc, store, failing)?;
    match replay(alloc, &mut station, epoch) {
        Ok(found) => append_replay(alloc, out, station.calls(), &found),
        Err(fault) => append_fault(alloc, out, fault),
    }
}
