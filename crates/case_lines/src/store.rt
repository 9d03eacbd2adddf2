// A store that is told by lines: its octets, and changes of its objects.
use crate::words::{number_of, octets_of, short_number_of, split_word};
use pss_base::{Bytes, NoMemory, Put};
use std::alloc::Global;

/// A store has at most so many octets.
pub const MOST_OCTETS: u64 = 83886080;

/// What is kept are these octets from now on.
pub fn set_octets(kept: &mut Vec<u8>, octets: &[u8]) -> Result<(), NoMemory> {
    kept.clear();
    kept.extend_from_slice(octets)?;
    Ok(())
}

/// `store LENGTH`: the store is one of so many zero octets.
pub fn begin_store(store: &mut Vec<u8>, rest: &[u8]) -> Result<(), NoMemory> {
    store.clear();
    if let Some(len) = number_of(rest) {
        store.resize(len.min(MOST_OCTETS) as usize, 0)?;
    }
    Ok(())
}

/// Puts octets at a place, as far as the store reaches.
pub fn put_at(store: &mut Vec<u8>, at: u64, octets: &[u8]) {
    for (octet, place) in octets.iter().zip(at..MOST_OCTETS) {
        if let Some(here) = store.get_mut(place as usize) {
            *here = *octet;
        }
    }
}

/// `octets AT OCTETS`: puts octets into the store.
pub fn put_octets(alloc: Global, store: &mut Vec<u8>, rest: &[u8]) -> Result<(), NoMemory> {
    let (at, digits) = split_word(rest);
    let octets = octets_of(alloc, digits)?;
    if let Some(at) = number_of(at) {
        put_at(store, at, octets.as_slice());
    }
    Ok(())
}

/// `AT COUNT`: so many octets of a store from a place on, as far as it reaches.
pub fn part_of<'a>(store: &'a [u8], rest: &[u8]) -> &'a [u8] {
    let (at, count) = split_word(rest);
    let len = store.len() as u64;
    let from = number_of(at).unwrap_or(0).min(len);
    let to = from + number_of(count).unwrap_or(0).min(len - from);
    &store[from as usize..to as usize]
}

/// A number that changes with each octet and its place.
pub fn sum_of(octets: &[u8]) -> u32 {
    let mut sum: u32 = 0;
    for octet in octets {
        sum = sum.wrapping_mul(31).wrapping_add(u32::from(*octet));
    }
    sum
}

/// `sum AT COUNT`: the sum of octets of a store.
pub fn append_sum(
    alloc: Global,
    out: &mut Bytes,
    store: &[u8],
    rest: &[u8],
) -> Result<(), NoMemory> {
    let sum = sum_of(part_of(store, rest));
    out.extend(format!(in alloc; "{sum}\n")?.as_bytes())
}

/// `change SERIAL HOME OCTETS`: what an object is changed to, a removal where there are no octets.
pub fn put_of(alloc: Global, rest: &[u8]) -> Result<Put, NoMemory> {
    let (serial, rest) = split_word(rest);
    let (home, digits) = split_word(rest);
    let bytes = octets_of(alloc, digits)?;
    let bytes = if bytes.as_slice().is_empty() {
        None
    } else {
        Some(bytes)
    };
    Ok(Put {
        home: short_number_of(home).unwrap_or(0),
        serial: number_of(serial).unwrap_or(0),
        bytes,
    })
}
