// The bytes that a reader has read in a large piece and not taken yet.
ghost use Rattle.std.specs.Prelude.{◌≡◌, ◌≢◌, ◌≤◌, [], OnOk, OnErr, length, drop};
ghost use Rattle.std.specs.Io.KnownBytes.{prepend_known, Keeps, IsAtEnd};
ghost use Rattle.pss_base.specs.Causes.{HasCause};

use crate::{Failed, Source};
use std::marker::Model;

/// How many bytes are read at once.
const CHUNK: usize = 32768;

/// Bytes that were read and not taken yet.
#[derive(Drop)]
pub struct Ahead {
    chunk: [u8; CHUNK],
    from: usize,
    to: usize,
}

impl Model for Ahead {
    ghost use Rattle.std.specs.Prelude.{List, ℕ, drop, take, ◌≤◌};

    ghost Value = { List ℕ };

    ghost view = { λ a. drop a.from (take a.to a.chunk) };

    ghost invariant = { λ a. (a.from ≤ a.to) × (a.to ≤ 32768) };
}

impl Ahead {
    pub fn new() -> Ahead
        ensures { result ≡ [] }
    {
        Ahead {
            chunk: [0; CHUNK],
            from: 0,
            to: 0,
        }
    }

    fn fill<C: Source>(&mut self, source: &mut C) -> Result<(), Failed>
        requires { self.old ≡ [] }
        ensures ok { OnOk result (Keeps (C.left source.old) (prepend_known self.new (C.left source.new))) }
        ensures end { OnOk result (self.new ≡ [] → IsAtEnd (C.left source.new)) }
        ensures err { OnErr result ((self.new ≡ []) × Keeps (C.left source.old) (C.left source.new)) }
        ensures cause { HasCause (C.faults source.old) (C.faults source.new) result }
    {
        self.from = 0;
        self.to = 0;
        self.to = source.read(&mut self.chunk)?;
        Ok(())
    }

    /// Reads a piece where no byte is ahead. None is ahead afterwards only at the end of the source, or where the
    /// read failed.
    pub fn refill<C: Source>(&mut self, source: &mut C) -> Result<(), Failed>
        ensures kept { Keeps (prepend_known self.old (C.left source.old)) (prepend_known self.new (C.left source.new)) }
        ensures end { OnOk result (self.new ≡ [] → IsAtEnd (prepend_known self.new (C.left source.new))) }
        ensures err { OnErr result (self.new ≡ []) }
        ensures unread { self.old ≢ [] → (self.new ≡ self.old) × (source.new ≡ source.old) }
        ensures cause { HasCause (C.faults source.old) (C.faults source.new) result }
    {
        if self.from == self.to {
            self.fill(source)?;
        }
        Ok(())
    }

    /// The bytes.
    pub fn as_slice(&self) -> &[u8]
        ensures { result.now ≡ self.now }
    {
        &self.chunk[self.from..self.to]
    }

    /// Takes so many bytes off the front.
    pub fn skip(&mut self, count: usize)
        requires { count ≤ length self.old }
        ensures { self.new ≡ drop count self.old }
    {
        self.from += count;
    }
}
