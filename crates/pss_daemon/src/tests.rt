// Calls over sources and a station in memory, for what the built program cannot show: a read or a call of speech that
// fails in mid-stream.
use crate::{Status, pssd};
use pss_base::{Bytes, MemSource, NoMemory};
use pss_disk::MemStation;
use std::alloc::Global;
use std::test::Fail;

const CELLS: &str = "storagetype Cell{state long v;};storagehome Cells of Cell{};";

// Its last line has no line feed.
const UNENDED: &str = "open s1 basic rw\ncreate s1 Cells 7";

// What is spoken of CELLS where it is checked.
const CHECKED: &str = "storagetype Cell {
  state long v;
};
storagehome Cells of Cell {
};
--
home 1 0 Cells
member v long
";

// Half of its bytes.
const HALF_CHECKED: &str = "storagetype Cell {
  state long v;
};
storagehome ";

fn words_of(alloc: Global, texts: &[&str]) -> Result<Vec<Bytes>, NoMemory> {
    let mut words = Vec::new(alloc);
    for text in texts {
        words.push(Bytes::from_slice(alloc, text.as_bytes())?)?;
    }
    Ok(words)
}

const RUN: &[&str] = &["run", "cells.psdl", "cells.store"];

const CHECK: &[&str] = &["check", "cells.psdl"];

// The words; the reads of the schema, the reads of the script and the calls of speech that fail; how the call ends, and what it speaks.
const BROKEN: [(&[&str], &[u32], &[u32], &[u32], Status, &str); 10] = [
    (RUN, &[0], &[], &[], Status::ReadFault, ""),
    (RUN, &[1], &[], &[], Status::ReadFault, ""),
    (RUN, &[], &[0], &[], Status::ReadFault, ""),
    // The lines whose line feed was read are answered, the last one not.
    (RUN, &[], &[1], &[], Status::ReadFault, "OK\n"),
    // A call of speech that fails speaks half of its bytes. Calls are counted behind those that mount the store.
    (RUN, &[], &[], &[0], Status::SpeakFault, "O"),
    (
        RUN,
        &[],
        &[],
        &[1],
        Status::SpeakFault,
        "OK\nOK i1 000000010",
    ),
    (CHECK, &[0], &[], &[], Status::ReadFault, ""),
    (CHECK, &[], &[0], &[0], Status::SpeakFault, HALF_CHECKED),
    // The script is not read.
    (CHECK, &[], &[0], &[], Status::Ok, CHECKED),
    (
        &["go"],
        &[],
        &[],
        &[0],
        Status::SpeakFault,
        "usage: pssd check SCHEMA | init SCHEMA ",
    ),
];

// The store that a call makes for CELLS.
fn made_store(alloc: Global) -> Result<MemStation, NoMemory> {
    let words = words_of(alloc, &["init", "cells.psdl", "cells.store"])?;
    let mut texts = MemSource::new(alloc, CELLS.as_bytes(), 1000, &[])?;
    let mut lines = MemSource::new(alloc, b"", 1000, &[])?;
    let mut station = MemStation::new(alloc, b"", &[])?;
    pssd(alloc, &words, &mut texts, &mut lines, &mut station);
    Ok(station)
}

// How many calls of the station come before the first reply: those that mount the store.
fn calls_to_mount(alloc: Global, store: &[u8]) -> Result<u32, NoMemory> {
    let words = words_of(alloc, RUN)?;
    let mut texts = MemSource::new(alloc, CELLS.as_bytes(), 1000, &[])?;
    let mut lines = MemSource::new(alloc, b"", 1000, &[])?;
    let mut station = MemStation::new(alloc, store, &[])?;
    pssd(alloc, &words, &mut texts, &mut lines, &mut station);
    Ok(station.calls())
}

// The numbers of calls that fail, behind so many.
fn behind(alloc: Global, calls: u32, fail: &[u32]) -> Result<Vec<u32>, NoMemory> {
    let mut numbers = Vec::new(alloc);
    for number in fail {
        numbers.push(number.saturating_add(calls))?;
    }
    Ok(numbers)
}

#[test]
fn the_first_failure_ends_the_call(rt: HostRuntime) -> Result<(), Fail> {
    let alloc = rt.alloc();
    let store = made_store(alloc)?;
    let mounting = calls_to_mount(alloc, store.bytes())?;
    for (words, schema, script, fail, status, spoken) in BROKEN {
        let calls = if words.len() == 3 { mounting } else { 0 };
        let failing = behind(alloc, calls, fail)?;
        let words = words_of(alloc, words)?;
        let mut texts = MemSource::new(alloc, CELLS.as_bytes(), 1000, schema)?;
        let mut lines = MemSource::new(alloc, UNENDED.as_bytes(), 1000, script)?;
        let mut station = MemStation::new(alloc, store.bytes(), &failing)?;
        let ended = pssd(alloc, &words, &mut texts, &mut lines, &mut station);
        assert_eq!(rt; ended, status, "{schema:?} {script:?} {fail:?}");
        assert_eq!(rt;
            station.spoken(),
            spoken.as_bytes(),
            "{schema:?} {script:?} {fail:?}"
        );
    }
    Ok(())
}
