// What a crash leaves.
use crate::calling::{NONE, Texts, call};
use pss_base::{Bytes, NoMemory};
use std::alloc::Global;

// Its replies tell which objects there are, the values of the first three, and the next serial.
const READING: &[u8] =
    b"open s1 basic rw\nlist s1 Cells\npid s1 000000010000000000000001\nget s1 i1 v\npid s1 000000010000000000000002\nget s1 i2 v\npid s1 000000010000000000000003\nget s1 i3 v\ncreate s1 Cells 0\n";

/// The least and the greatest number of flushes that a crash may leave, as digits.
#[derive(Clone, Copy)]
pub struct Bounds {
    least: u8,
    most: u8,
}

/// A script and its replies, and what is read of the store after each number of its flushes.
#[derive(Clone, Copy)]
pub struct Served<'a> {
    pub texts: Texts<'a>,
    pub replies: &'a [u8],
    pub readings: &'a [Bytes],
}

// What is read of a store.
fn reading_of(alloc: Global, store: &[u8], schema: &[u8]) -> Result<Bytes, NoMemory> {
    let texts = Texts {
        schema,
        script: READING,
    };
    let ended = call(alloc, b"run", store, texts, NONE)?;
    let mut reading = Bytes::new(alloc);
    reading.extend(ended.station.spoken())?;
    Ok(reading)
}

// What is read of a store after a script.
fn reading_after(alloc: Global, store: &[u8], texts: Texts) -> Result<Bytes, NoMemory> {
    let ended = call(alloc, b"run", store, texts, NONE)?;
    reading_of(alloc, ended.station.bytes(), texts.schema)
}

/// What is read of a store after each number of the flushes of a script, none first.
pub fn readings_of(alloc: Global, store: &[u8], texts: Texts) -> Result<Vec<Bytes>, NoMemory> {
    let mut readings = Vec::new(alloc);
    readings.push(reading_of(alloc, store, texts.schema)?)?;
    let mut end = 0usize;
    for line in texts.script.split(|byte| *byte == b'\n') {
        end = end.saturating_add(line.len()).saturating_add(1);
        if line.starts_with(b"flush") {
            let script = texts.script.get(..end).unwrap_or(texts.script);
            readings.push(reading_after(alloc, store, Texts { script, ..texts })?)?;
        }
    }
    Ok(readings)
}

/// What a crash may leave where so many bytes of the replies were spoken: what the flushes stored whose reply was begun, and what the one
/// stores that comes next where all before it was spoken.
pub fn bounds_at(served: Served, spoken: usize) -> Bounds {
    let mut at = 0usize;
    let mut bounds = Bounds {
        least: b'0',
        most: b'0',
    };
    let replies = served.replies.split(|byte| *byte == b'\n');
    for (line, reply) in served
        .texts
        .script
        .split(|byte| *byte == b'\n')
        .zip(replies)
    {
        if line.starts_with(b"flush") {
            if spoken > at {
                bounds.least = bounds.least.saturating_add(1);
            }
            if spoken >= at {
                bounds.most = bounds.most.saturating_add(1);
            }
        }
        at = at.saturating_add(reply.len()).saturating_add(1);
    }
    bounds
}

// The number of flushes, where it may be so many, after which a store reads so.
fn digit_of(reading: &Bytes, readings: &[Bytes], bounds: Bounds) -> u8 {
    for (digit, other) in (b'0'..=b'9').zip(readings) {
        if bounds.least <= digit && digit <= bounds.most && other == reading {
            return digit;
        }
    }
    b'?'
}

/// After how many flushes a store is as an image, where it may be so many.
pub fn letter_in(
    alloc: Global,
    image: &[u8],
    served: Served,
    bounds: Bounds,
) -> Result<u8, NoMemory> {
    let reading = reading_of(alloc, image, served.texts.schema)?;
    Ok(digit_of(&reading, served.readings, bounds))
}
