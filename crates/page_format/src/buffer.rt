// A buffer that is filled from its front on.
ghost use Rattle.std.specs.Prelude.{◌≡◌, ◌++◌, ◌+◌, ◌≤◌, [], IfOk, length, replicate};

use crate::reading::room;
use pss_base::NoMemory;
use std::alloc::Global;
use std::marker::Model;

/// Octets that are put one behind the other into room that is taken once. Its size is how many there is room for.
#[derive(Drop)]
pub struct Buffer {
    octets: Vec<u8>,
    len: usize,
}

impl Model for Buffer {
    ghost use Rattle.std.specs.Prelude.{◌≤◌, length, take};
    ghost use Rattle.page_format.specs.inner.Buffers.{Filled};

    ghost Value = { Filled };

    ghost view = { λ b. record { size = length b.octets.items; octets = take b.len b.octets.items } };

    ghost invariant = { λ b. b.len ≤ length b.octets.items };
}

impl Buffer {
    /// No octets, and room for so many. `NoMemory`: there was none.
    pub fn of_size(alloc: Global, size: usize) -> Result<Buffer, NoMemory>
        ensures { IfOk result (λ buffer. buffer ≡ record { size = size; octets = [] }) }
    {
        Ok(Buffer {
            octets: room(alloc, size)?,
            len: 0,
        })
    }

    /// Takes all octets away.
    pub fn clear(&mut self)
        ensures { self.new ≡ record { size = self.old.size; octets = [] } }
    {
        self.len = 0;
    }

    /// Puts octets behind those that are there.
    #[inline(always)]
    pub fn put(&mut self, octets: &[u8])
        requires { length self.old.octets + length octets.now ≤ self.old.size }
        ensures { self.new ≡ record { size = self.old.size; octets = self.old.octets ++ octets.now } }
    {
        self.octets[self.len..self.len + octets.len()].copy_from_slice(octets);
        self.len += octets.len();
    }

    /// Puts so many zero octets behind those that are there.
    pub fn put_zeros(&mut self, count: usize)
        requires { length self.old.octets + count ≤ self.old.size }
        ensures { self.new ≡ record { size = self.old.size; octets = self.old.octets ++ replicate count 0 } }
    {
        self.octets[self.len..self.len + count].fill(0);
        self.len += count;
    }

    /// The octets that are there.
    pub fn as_slice(&self) -> &[u8]
        ensures { result.now ≡ self.now.octets }
    {
        &self.octets[..self.len]
    }
}
