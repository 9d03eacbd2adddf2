//! The program: it sees to the standard streams, makes the service's words, opens the schema's file and the store's, and takes
//! standard input as script and standard output as speech. All else is the service's.
#![tactic(auto)]

mod files;
mod streams;

use crate::files::{open_schema, open_store};
use crate::streams::fill_streams;
use pss_base::{Bytes, NoMemory, StdSource};
use pss_daemon::{Status, pssd};
use pss_disk::RealStation;
use std::alloc::Global;
use std::env::FillError;
use std::process::ExitCode;
use std::rt::Env;

/// The first room for a word. It is doubled where the word is longer.
const FIRST_ROOM: usize = 4096;

/// How often the room is doubled, to more than a system passes.
const DOUBLINGS: u32 = 20;

// The word of a number, where there is one.
fn word(rt: &impl Env, alloc: Global, number: usize) -> Result<Option<Bytes>, NoMemory> {
    for doubling in 0..DOUBLINGS {
        let mut room = vec![in alloc; 0u8; FIRST_ROOM << doubling]?;
        match rt.arg(number, &mut room) {
            Ok(len) => {
                return Ok(Some(Bytes::from_slice(alloc, &room[..len])?));
            }
            Err(FillError::NotPresent) => return Ok(None),
            Err(FillError::TooLong) => {}
        }
    }
    Err(NoMemory)
}

// The words behind the program's name.
fn words(rt: &impl Env, alloc: Global) -> Result<Vec<Bytes>, NoMemory> {
    let mut words = Vec::new(alloc);
    for number in 1..usize::MAX {
        match word(rt, alloc, number)? {
            Some(word) => words.push(word)?,
            None => return Ok(words),
        }
    }
    Ok(words)
}

fn run(rt: &HostRuntime) -> Result<Status, NoMemory> {
    let Ok(has_input) = fill_streams(rt) else {
        return Ok(Status::SpeakFault);
    };
    let alloc = rt.alloc();
    let words = words(rt, alloc)?;
    let mut schema = StdSource::new(open_schema(rt, &words));
    let mut script = StdSource::new(has_input.then_some(rt.stdin()));
    let mut station = RealStation::new(open_store(rt, &words), rt.stdout());
    Ok(pssd(alloc, &words, &mut schema, &mut script, &mut station))
}

fn main(rt: HostRuntime) -> ExitCode {
    match run(&rt) {
        Ok(status) => ExitCode::from(status.code()),
        Err(NoMemory) => ExitCode::from(Status::NoMemory.code()),
    }
}
