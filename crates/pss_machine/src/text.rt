// Pieces of lines.
ghost use Rattle.std.specs.Prelude.{◌≡◌, IfOk};

use pss_base::{Bytes, NoMemory};
use std::alloc::Global;
use std::marker::Model;

/// A piece of a line, which the line lends.
#[derive(Drop)]
pub struct Text<'a> {
    bytes: &'a [u8],
}

impl<'a> Model for Text<'a> {
    ghost use Rattle.std.specs.Prelude.{List, ℕ};

    ghost Value = { List ℕ };

    ghost view = { λ t. t.bytes.now };
}

impl<'a> Text<'a> {
    /// The piece that has these bytes.
    pub fn new(bytes: &'a [u8]) -> Text<'a>
        ensures { result ≡ bytes.now }
    {
        Text { bytes }
    }

    /// Its bytes, for as long as the line is there.
    pub fn as_slice(&self) -> &'a [u8]
        ensures { result.now ≡ self.now }
    {
        self.bytes
    }

    /// A copy of its bytes, which outlives the line.
    pub fn to_bytes(&self, alloc: Global) -> Result<Bytes, NoMemory>
        ensures { IfOk result (λ copy. copy ≡ self.now) }
    {
        Ok(Bytes::from_slice(alloc, self.bytes)?)
    }
}
