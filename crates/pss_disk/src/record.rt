// The record of a station in memory: calls, content and speech, each as a list that grows or stays.
ghost use Rattle.std.specs.Prelude.{◌≡◌, ◌++◌, ◌∷◌, [], ◌+◌, ◌-◌, ◌<◌, ◌≤◌, ◌^◌, drop, length, replicate, take, OnOk, OnErr};
ghost use Rattle.pss_base.specs.Feed.{is_listed};
ghost use Rattle.pss_disk.specs.Octets.{octets_in, range_of, write};
ghost use Rattle.pss_disk.specs.Tape.{half};

use crate::call::Call;
use pss_base::{Bytes, NoMemory};
use std::alloc::Global;

// How many calls are recorded at the most.
const MOST_CALLS: usize = 4294967295;

// Whether a call's number stands in a list.
pub fn is_in(numbers: &[u32], number: usize) -> bool
    ensures { result ≡ is_listed number numbers.now }
{
    numbers.iter().any(|n| *n as usize == number)
}

// The first half of the bytes.
pub fn half(bytes: &[u8]) -> &[u8]
    ensures { result.now ≡ half bytes.now }
{
    &bytes[..bytes.len() / 2]
}

// Copies octets over those from a place on.
pub fn put(octets: &mut [u8], at: usize, bytes: &[u8])
    requires { at + length bytes.now ≤ length octets.old }
    ensures { octets.new ≡ take at octets.old ++ bytes.now ++ drop (at + length bytes.now) octets.old }
{
    octets[at..at + bytes.len()].copy_from_slice(bytes);
}

// Fills so many octets from a place on.
pub fn fill(octets: &mut [u8], at: usize, count: usize, octet: u8)
    requires { at + count ≤ length octets.old }
    ensures { octets.new ≡ take at octets.old ++ replicate count octet ++ drop (at + count) octets.old }
{
    octets[at..at + count].fill(octet);
}

// Copies the octets from a place on into a buffer. Past the end they are zero.
pub fn give(content: &[u8], at: usize, buf: &mut [u8])
    ensures { buf.new ≡ octets_in (range_of at buf.new) content.now }
{
    let from = at.min(content.len());
    let count = buf.len().min(content.len() - from);
    put(buf, 0, &content[from..from + count]);
    let rest = buf.len() - count;
    fill(buf, count, rest, 0);
}

// Adds a call.
pub fn add(calls: &mut Vec<Call>, call: Call) -> Result<(), NoMemory>
    requires { length calls.old.items < 2 ^ 32 }
    ensures ok { OnOk result (calls.new.items ≡ calls.old.items ++ call ∷ []) }
    ensures bound { length calls.new.items < 2 ^ 32 }
    ensures err { OnErr result (calls.new.items ≡ calls.old.items) }
{
    if calls.len() >= MOST_CALLS {
        return Err(NoMemory);
    }
    calls.push(call)?;
    Ok(())
}

// Adds speech and its call, or neither.
pub fn add_speech(
    alloc: Global,
    calls: &mut Vec<Call>,
    said: &mut Vec<u8>,
    bytes: &[u8],
) -> Result<(), NoMemory>
    requires { length calls.old.items < 2 ^ 32 }
    ensures ok { OnOk result ((calls.new.items ≡ calls.old.items ++ Call.Spoke bytes.now ∷ []) × (said.new.items ≡ said.old.items ++ bytes.now)) }
    ensures bound { length calls.new.items < 2 ^ 32 }
    ensures err { OnErr result ((calls.new.items ≡ calls.old.items) × (said.new.items ≡ said.old.items)) }
{
    let copy = Bytes::from_slice(alloc, bytes)?;
    let len = said.len();
    said.extend_from_slice(bytes)?;
    match add(calls, Call::Spoke(copy)) {
        Ok(()) => Ok(()),
        Err(refused) => {
            said.truncate(len);
            Err(refused)
        }
    }
}

// Makes octets at least so many, by one octet at their end.
pub fn lengthen(octets: &mut Vec<u8>, len: usize, octet: u8) -> Result<(), NoMemory>
    ensures ok { OnOk result (octets.new.items ≡ octets.old.items ++ replicate (len - length octets.old.items) octet) }
    ensures err { OnErr result (octets.new.items ≡ octets.old.items) }
{
    if octets.len() < len {
        octets.resize(len, octet)?;
    }
    Ok(())
}

// Writes octets into a content, and makes it longer where they pass its end.
pub fn write_into(content: &mut Vec<u8>, at: u32, bytes: &[u8]) -> Result<(), NoMemory>
    ensures ok { OnOk result (content.new.items ≡ write at bytes.now content.old.items) }
    ensures err { OnErr result (content.new.items ≡ content.old.items) }
{
    if bytes.is_empty() {
        return Ok(());
    }
    let at = at as usize;
    lengthen(content, at + bytes.len(), 0)?;
    put(content, at, bytes);
    Ok(())
}

// Adds a call and writes what came of it, or neither.
pub fn add_write(
    calls: &mut Vec<Call>,
    content: &mut Vec<u8>,
    call: Call,
    at: u32,
    came: &[u8],
) -> Result<(), NoMemory>
    requires { length calls.old.items < 2 ^ 32 }
    ensures ok { OnOk result ((calls.new.items ≡ calls.old.items ++ call ∷ []) × (content.new.items ≡ write at came.now content.old.items)) }
    ensures bound { length calls.new.items < 2 ^ 32 }
    ensures err { OnErr result ((calls.new.items ≡ calls.old.items) × (content.new.items ≡ content.old.items)) }
{
    add(calls, call)?;
    match write_into(content, at, came) {
        Ok(()) => Ok(()),
        Err(refused) => {
            let _ = calls.pop();
            Err(refused)
        }
    }
}
