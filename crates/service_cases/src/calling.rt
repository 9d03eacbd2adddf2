// A call of the service over sources and a station in memory.
use pss_base::{Bytes, MemSource, NoMemory};
use pss_daemon::{Status, pssd};
use pss_disk::MemStation;
use std::alloc::Global;

/// A read of a source gives at most so many bytes.
const PIECE: usize = 40;

/// The text of a schema and a script.
#[derive(Clone, Copy)]
pub struct Texts<'a> {
    pub schema: &'a [u8],
    pub script: &'a [u8],
}

/// The numbers of the calls that fail: reads of the schema's text and of the script, and calls of the station.
#[derive(Clone, Copy)]
pub struct Failing<'a> {
    pub schema: &'a [u32],
    pub script: &'a [u32],
    pub station: &'a [u32],
}

/// No call fails.
pub const NONE: Failing<'static> = Failing {
    schema: &[],
    script: &[],
    station: &[],
};

/// How a call ended, and the station after it.
#[derive(Drop)]
pub struct Ended {
    pub status: Status,
    pub station: MemStation,
}

fn words_of(alloc: Global, command: &[u8]) -> Result<Vec<Bytes>, NoMemory> {
    let mut words = Vec::new(alloc);
    for text in [command, b"text", b"store"] {
        words.push(Bytes::from_slice(alloc, text)?)?;
    }
    Ok(words)
}

fn call_over(
    alloc: Global,
    words: &[Bytes],
    schema: &mut MemSource,
    script: &mut MemSource,
    store: &[u8],
    failing: &[u32],
) -> Result<Ended, NoMemory> {
    let mut station = MemStation::new(alloc, store, failing)?;
    let status = pssd(alloc, words, schema, script, &mut station);
    Ok(Ended { status, station })
}

fn call_by(
    alloc: Global,
    words: &[Bytes],
    store: &[u8],
    texts: Texts,
    failing: Failing,
) -> Result<Ended, NoMemory> {
    let mut schema = MemSource::new(alloc, texts.schema, PIECE, failing.schema)?;
    let mut script = MemSource::new(alloc, texts.script, PIECE, failing.script)?;
    call_over(
        alloc,
        words,
        &mut schema,
        &mut script,
        store,
        failing.station,
    )
}

/// Calls the service over a copy of a store.
pub fn call(
    alloc: Global,
    command: &[u8],
    store: &[u8],
    texts: Texts,
    failing: Failing,
) -> Result<Ended, NoMemory> {
    let words = words_of(alloc, command)?;
    call_by(alloc, &words, store, texts, failing)
}
