// The answers to the lines of commands.
use crate::crashes::{Append, append_crashes};
use crate::journals::{append_found, append_to};
use case_lines::{
    Cases, append_octets, begin_store, number_of, octets_of, part_of, put_octets, set_octets,
    short_number_of, split_word, station_of,
};
use pss_base::{Bytes, NoMemory};
use std::alloc::Global;

fn show(out: &mut Bytes, store: &[u8], rest: &[u8]) -> Result<(), NoMemory> {
    append_octets(out, part_of(store, rest))?;
    out.extend(b"\n")
}

fn tell(alloc: Global, out: &mut Bytes, store: &[u8], rest: &[u8]) -> Result<(), NoMemory> {
    let (epoch, failing) = split_word(rest);
    let epoch = number_of(epoch).unwrap_or(0);
    append_found(alloc, out, store, epoch, short_number_of(failing))?;
    out.extend(b"\n")
}

// The epoch and the end of an append, and the digits of its body.
fn append_of(rest: &[u8]) -> Option<(u64, u32, &[u8])> {
    let (epoch, rest) = split_word(rest);
    let (end, digits) = split_word(rest);
    let end = number_of(end)?.min(u32::MAX as u64);
    Some((number_of(epoch)?, end as u32, digits))
}

fn append(
    alloc: Global,
    out: &mut Bytes,
    store: &mut Vec<u8>,
    rest: &[u8],
) -> Result<(), NoMemory> {
    let Some((epoch, end, digits)) = append_of(rest) else {
        return out.extend(b"no append\n");
    };
    let body = octets_of(alloc, digits)?;
    let mut station = station_of(alloc, store, None)?;
    match append_to(&mut station, epoch, end, body.as_slice()) {
        Some(true) => {
            set_octets(store, station.bytes())?;
            out.extend(b"ok\n")
        }
        Some(false) => out.extend(b"DiskFault\n"),
        None => out.extend(b"does not fit\n"),
    }
}

fn crashes(alloc: Global, out: &mut Bytes, store: &[u8], rest: &[u8]) -> Result<(), NoMemory> {
    let Some((epoch, end, digits)) = append_of(rest) else {
        return out.extend(b"no append\n");
    };
    let body = octets_of(alloc, digits)?;
    let append = Append {
        epoch,
        end,
        body: body.as_slice(),
    };
    append_crashes(alloc, out, store, &append)
}

/// A store, with a journal that is read and added to.
#[derive(Drop)]
pub struct Journals {
    store: Vec<u8>,
}

impl Journals {
    pub fn new(alloc: Global) -> Journals {
        Journals {
            store: Vec::new(alloc),
        }
    }
}

impl Cases for Journals {
    fn answer(&mut self, alloc: Global, out: &mut Bytes, line: &[u8]) -> Result<(), NoMemory> {
        let (word, rest) = split_word(line);
        match word {
            b"store" => begin_store(&mut self.store, rest),
            b"octets" => put_octets(alloc, &mut self.store, rest),
            b"replay" => tell(alloc, out, &self.store, rest),
            b"append" => append(alloc, out, &mut self.store, rest),
            b"show" => show(out, &self.store, rest),
            b"crashes" => crashes(alloc, out, &self.store, rest),
            _ => out.extend(b"no command\n"),
        }
    }
}
