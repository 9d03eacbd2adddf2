// The answers to the lines of commands.
use crate::checkpoints::{Changes, make};
use crate::crashes::{append_crashes, word_of};
use crate::roots::{append_pages, append_root};
use case_lines::{
    Cases, append_sum, begin_store, number_of, put_octets, put_of, set_octets, short_number_of,
    split_word, station_of,
};
use pss_base::{Bytes, NoMemory, Put, Puts};
use std::alloc::Global;

fn tell_root(alloc: Global, out: &mut Bytes, store: &[u8], failing: &[u8]) -> Result<(), NoMemory> {
    let mut station = station_of(alloc, store, short_number_of(failing))?;
    append_root(alloc, out, &mut station)?;
    out.extend(b"\n")
}

fn tell_pages(
    alloc: Global,
    out: &mut Bytes,
    store: &[u8],
    failing: &[u8],
) -> Result<(), NoMemory> {
    let mut station = station_of(alloc, store, short_number_of(failing))?;
    append_pages(alloc, out, &mut station)?;
    out.extend(b"\n")
}

// Tells a change to a record of so many octets, each the least octet of the serial.
fn fill(alloc: Global, puts: &mut Puts, rest: &[u8]) -> Result<(), NoMemory> {
    let (serial, rest) = split_word(rest);
    let (home, count) = split_word(rest);
    let serial = number_of(serial).unwrap_or(0);
    let mut bytes = Bytes::new(alloc);
    for _ in 0..number_of(count).unwrap_or(0).min(8001) {
        bytes.push((serial % 256) as u8)?;
    }
    puts.push(Put {
        home: short_number_of(home).unwrap_or(0),
        serial,
        bytes: Some(bytes),
    })
}

fn tell_checkpoint(
    alloc: Global,
    out: &mut Bytes,
    state: &mut Stores,
    rest: &[u8],
) -> Result<(), NoMemory> {
    let mut station = station_of(alloc, &state.store, None)?;
    let changes = Changes {
        puts: state.puts.as_slice(),
        next: number_of(rest).unwrap_or(1),
    };
    let ended = make(alloc, &mut station, changes)?;
    let calls = station.calls();
    out.extend(word_of(ended))?;
    out.extend(format!(in alloc; " {calls}\n")?.as_bytes())?;
    set_octets(&mut state.store, station.bytes())?;
    state.puts = Puts::new(alloc);
    Ok(())
}

fn tell_crashes(
    alloc: Global,
    out: &mut Bytes,
    state: &Stores,
    rest: &[u8],
) -> Result<(), NoMemory> {
    let changes = Changes {
        puts: state.puts.as_slice(),
        next: number_of(rest).unwrap_or(1),
    };
    append_crashes(alloc, out, &state.store, changes)
}

/// A store, and the changes that were told for its next checkpoint.
#[derive(Drop)]
pub struct Stores {
    store: Vec<u8>,
    puts: Puts,
}

impl Stores {
    pub fn new(alloc: Global) -> Stores {
        Stores {
            store: Vec::new(alloc),
            puts: Puts::new(alloc),
        }
    }
}

impl Cases for Stores {
    fn answer(&mut self, alloc: Global, out: &mut Bytes, line: &[u8]) -> Result<(), NoMemory> {
        let (word, rest) = split_word(line);
        match word {
            b"store" => begin_store(&mut self.store, rest),
            b"octets" => put_octets(alloc, &mut self.store, rest),
            b"root" => tell_root(alloc, out, &self.store, rest),
            b"pages" => tell_pages(alloc, out, &self.store, rest),
            b"change" => self.puts.push(put_of(alloc, rest)?),
            b"fill" => fill(alloc, &mut self.puts, rest),
            b"checkpoint" => tell_checkpoint(alloc, out, self, rest),
            b"crashes" => tell_crashes(alloc, out, self, rest),
            b"sum" => append_sum(alloc, out, &self.store, rest),
            _ => out.extend(b"no command\n"),
        }
    }
}
