// A source of known bytes, for tests of what happens when a read fails or brings little.
ghost use Rattle.std.specs.Prelude.{◌≡◌, ◌≤◌, ◌<◌, ◌++◌, [], Some, IfOk, is_err, length, take, drop, min};
ghost use Rattle.std.specs.Io.{ReadsAtMost};
ghost use Rattle.std.specs.Io.KnownBytes.{ReadConsumes};
ghost use Rattle.pss_base.specs.Causes.{HasCause};
ghost use Rattle.pss_base.specs.Feed.{is_listed, given, after_read};

use crate::{Failed, NoMemory, Source};
use std::alloc::Global;
use std::marker::Model;

/// Known bytes that come in pieces. Calls of given numbers fail.
#[derive(Drop)]
pub struct MemSource {
    bytes: Vec<u8>,
    at: usize,
    piece: usize,
    fail: Vec<u32>,
    calls: u64,
    faults: u64,
}

impl Model for MemSource {
    ghost use Rattle.std.specs.Prelude.{◌≤◌, drop, length};
    ghost use Rattle.pss_base.specs.Feed.{Feed};

    ghost Value = { Feed };

    ghost view = { λ s. record { left = drop s.at s.bytes.items; piece = s.piece; failing = s.fail.items; calls = s.calls; faults = s.faults } };

    ghost invariant = { λ s. (s.at ≤ length s.bytes.items) × (1 ≤ s.piece) };
}

impl MemSource {
    /// A source of these bytes. A read gives as many of them as its buffer, the number `piece` and the rest allow.
    /// The reads whose numbers, from 0, stand in `fail` answer `Failed`.
    pub fn new(
        alloc: Global,
        bytes: &[u8],
        piece: usize,
        fail: &[u32],
    ) -> Result<MemSource, NoMemory>
        requires { 1 ≤ piece }
        ensures { IfOk result (λ source. source ≡ record { left = bytes.now; piece = piece; failing = fail.now; calls = 0; faults = 0 }) }
    {
        Ok(MemSource {
            bytes: bytes.to_vec(alloc)?,
            at: 0,
            piece,
            fail: fail.to_vec(alloc)?,
            calls: 0,
            faults: 0,
        })
    }
}

// Whether a number stands in a list.
fn is_in(numbers: &[u32], number: u64) -> bool
    ensures { result ≡ is_listed number numbers.now }
{
    numbers.iter().any(|n| u64::from(*n) == number)
}

// Copies a piece to the front of a buffer.
fn give(buf: &mut [u8], rest: &[u8], piece: usize) -> usize
    requires { 1 ≤ piece }
    ensures count { result ≡ min (min (length buf.new) (length rest.now)) piece }
    ensures bytes { rest.now ≡ take result buf.new ++ drop result rest.now }
    ensures end { result ≡ 0 → 0 < length buf.new → rest.now ≡ [] }
{
    let count = buf.len().min(rest.len()).min(piece);
    buf[..count].copy_from_slice(&rest[..count]);
    count
}

impl Source for MemSource {
    ghost left = { λ s. Some s.left };

    ghost faults = { λ s. s.faults };

    fn read(&mut self, buf: &mut [u8]) -> Result<usize, Failed>
        ensures bound { ReadsAtMost result buf.new }
        ensures bytes { ReadConsumes (Some self.old.left) (Some self.new.left) result buf.new }
        ensures cause { HasCause self.old.faults self.new.faults result }
        // It fails exactly where the call is listed, and else gives as much as it may.
        ensures failed { is_err result ≡ is_listed self.old.calls self.old.failing }
        ensures count { IfOk result (λ count. count ≡ given self.old (length buf.new)) }
        ensures after { self.new ≡ after_read self.old (length buf.new) }
    {
        let call = self.calls;
        self.calls = call.saturating_add(1);
        if is_in(&self.fail, call) {
            self.faults = self.faults.saturating_add(1);
            return Err(Failed);
        }
        let count = give(buf, &self.bytes[self.at..], self.piece);
        self.at += count;
        Ok(count)
    }
}
