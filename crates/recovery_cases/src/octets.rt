// Lines that alter a store at many places.
use case_lines::{MOST_OCTETS, number_of, octets_of, put_at, short_number_of, split_word};
use pss_base::NoMemory;
use std::alloc::Global;

// Where octets are put again and again.
#[derive(Clone, Copy)]
struct Places {
    count: u64,
    at: u64,
    step: u64,
}

// The places that a line begins with, and what is behind them.
fn places_of(rest: &[u8]) -> Option<(Places, &[u8])> {
    let (count, rest) = split_word(rest);
    let (at, rest) = split_word(rest);
    let (step, rest) = split_word(rest);
    let places = Places {
        count: number_of(count)?.min(MOST_OCTETS),
        at: number_of(at)?.min(MOST_OCTETS),
        step: number_of(step)?.min(MOST_OCTETS),
    };
    Some((places, rest))
}

/// `copies COUNT AT STEP OCTETS`: the same octets at many places.
pub fn put_copies(alloc: Global, store: &mut Vec<u8>, rest: &[u8]) -> Result<(), NoMemory> {
    let Some((places, digits)) = places_of(rest) else {
        return Ok(());
    };
    let octets = octets_of(alloc, digits)?;
    let mut at = places.at;
    for _ in 0..places.count {
        put_at(store, at, octets.as_slice());
        at = at.saturating_add(places.step);
    }
    Ok(())
}

/// `numbers COUNT AT STEP FIRST BY`: numbers at many places, each greater than the one before.
pub fn put_numbers(store: &mut Vec<u8>, rest: &[u8]) {
    let Some((places, rest)) = places_of(rest) else {
        return;
    };
    let (first, by) = split_word(rest);
    let (Some(first), Some(by)) = (short_number_of(first), short_number_of(by)) else {
        return;
    };
    let (mut at, mut number) = (places.at, first);
    for _ in 0..places.count {
        put_at(store, at, &number.to_be_bytes());
        at = at.saturating_add(places.step);
        number = number.wrapping_add(by);
    }
}
