// Each call fails in turn.
use crate::calling::{Ended, Failing, NONE, Texts, call};
use crate::crashes::{Served, bounds_at, letter_in, readings_of};
use case_lines::append_moment;
use pss_base::{Bytes, NoMemory};
use std::alloc::Global;

/// At most so many reads of a source fail in turn.
const MOST_READS: u32 = 64;

// How many bytes of whole lines there are.
fn whole_lines(spoken: &[u8]) -> usize {
    let mut whole = 0;
    for (at, byte) in spoken.iter().enumerate() {
        if *byte == b'\n' {
            whole = at.saturating_add(1);
        }
    }
    whole
}

// The moments round the last call of a station.
fn append_moments(
    alloc: Global,
    out: &mut Bytes,
    ended: &Ended,
    served: Served,
) -> Result<(), NoMemory> {
    let spoken = ended.station.spoken();
    let calls = ended.station.calls();
    let before = bounds_at(served, whole_lines(spoken));
    append_moment(out, &ended.station, calls.saturating_sub(1), |image| {
        letter_in(alloc, image, served, before)
    })?;
    let behind = bounds_at(served, spoken.len());
    append_moment(out, &ended.station, calls, |image| {
        letter_in(alloc, image, served, behind)
    })?;
    out.extend(b"\n")
}

fn append_failing(
    alloc: Global,
    out: &mut Bytes,
    store: &[u8],
    served: Served,
    number: u32,
) -> Result<(), NoMemory> {
    let failing = [number];
    let failing = Failing {
        station: &failing,
        ..NONE
    };
    let ended = call(alloc, b"run", store, served.texts, failing)?;
    let status = ended.status.code();
    out.extend(format!(in alloc; "{number} {status}")?.as_bytes())?;
    append_moments(alloc, out, &ended, served)
}

/// The answers where each call of the station fails in turn.
pub fn append_calls(
    alloc: Global,
    out: &mut Bytes,
    store: &[u8],
    texts: Texts,
) -> Result<(), NoMemory> {
    let whole = call(alloc, b"run", store, texts, NONE)?;
    let readings = readings_of(alloc, store, texts)?;
    let served = Served {
        texts,
        replies: whole.station.spoken(),
        readings: &readings,
    };
    for number in 0..whole.station.calls() {
        append_failing(alloc, out, store, served, number)?;
    }
    Ok(())
}

// The status where a read fails. It is 0 where there is no such read.
fn append_read(
    alloc: Global,
    out: &mut Bytes,
    store: &[u8],
    texts: Texts,
    failing: Failing,
) -> Result<u8, NoMemory> {
    let ended = call(alloc, b"run", store, texts, failing)?;
    let status = ended.status.code();
    out.extend(format!(in alloc; " {status}")?.as_bytes())?;
    Ok(status)
}

/// The statuses where each read of the schema's text fails in turn, up to one that does not come.
pub fn append_schema_reads(
    alloc: Global,
    out: &mut Bytes,
    store: &[u8],
    texts: Texts,
) -> Result<(), NoMemory> {
    out.extend(b"text")?;
    for number in 0..MOST_READS {
        let failing = [number];
        let failing = Failing {
            schema: &failing,
            ..NONE
        };
        if append_read(alloc, out, store, texts, failing)? == 0 {
            break;
        }
    }
    out.extend(b"\n")
}

/// The statuses where each read of the script fails in turn, up to one that does not come.
pub fn append_script_reads(
    alloc: Global,
    out: &mut Bytes,
    store: &[u8],
    texts: Texts,
) -> Result<(), NoMemory> {
    out.extend(b"script")?;
    for number in 0..MOST_READS {
        let failing = [number];
        let failing = Failing {
            script: &failing,
            ..NONE
        };
        if append_read(alloc, out, store, texts, failing)? == 0 {
            break;
        }
    }
    out.extend(b"\n")
}
