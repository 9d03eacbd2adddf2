// A gate and what stands behind it up to the body.
ghost use Rattle.std.specs.Prelude.{◌≡◌, ◌^◌, ◌<◌, ◌⊎◌, ◌↔◌, IsTrue, false, length, slice_index, slice_range};
ghost use Rattle.std.specs.Int.{from_be_bytes, to_be_bytes, w32, w64};
ghost use Rattle.redo_journal.specs.Journal.{Fits, behind, header, journal_start};

use crate::layout::{BODY, EPOCH, JOURNAL_END, JOURNAL_START, LENGTH, OPEN};
use pss_disk::read_number4;

/// A gate and what stands behind it, by an epoch.
#[derive(Clone, Copy)]
pub struct Header {
    pub is_open: bool,
    pub has_epoch: bool,
    /// The length of the body.
    pub len: u32,
}

impl Header {
    /// Whether the journal ends at this gate.
    pub fn ends(&self, gate: u32) -> bool
        ensures { IsTrue result ↔ ((self.now.is_open ≡ false) ⊎ ((gate ≡ journal_start) × (self.now.has_epoch ≡ false))) }
    {
        !self.is_open || (gate == JOURNAL_START && !self.has_epoch)
    }

    /// Whether no record of the epoch that fits is behind this gate.
    pub fn is_wrong(&self, gate: u32) -> bool
        ensures { IsTrue result ↔ ((self.now.has_epoch ≡ false) ⊎ (Fits gate self.now.len → ⊥)) }
    {
        !self.has_epoch || !fits_behind(gate, self.len)
    }
}

/// The gate behind a record with this body, where a `u64` has it.
pub fn gate_after(gate: u64, body: &[u8]) -> u64
    ensures { behind gate (length body.now) < 2 ^ 64 → result ≡ behind gate (length body.now) }
{
    gate.saturating_add(BODY as u64 + body.len() as u64)
}

/// Whether a record with a body of so many octets fits behind a gate.
pub fn fits_behind(gate: u32, len: u32) -> bool
    ensures { IsTrue result ↔ Fits gate len }
{
    u64::from(gate) + BODY as u64 + u64::from(len) < u64::from(JOURNAL_END)
}

/// Reads the octets of a gate and behind it, up to the body.
pub fn read_header(octets: &[u8], epoch: u64) -> Header
    requires { length octets.now ≡ 13 }
    ensures open_ { IsTrue result.is_open ↔ (slice_index octets.now 0 ≡ 165) }
    ensures epoch { IsTrue result.has_epoch ↔ (slice_range octets.now 1 9 ≡ to_be_bytes w64 epoch) }
    ensures len { from_be_bytes w32 (slice_range octets.now 9 13) ≡ result.len }
    ensures spelled { to_be_bytes w32 result.len ≡ slice_range octets.now 9 13 }
{
    Header {
        is_open: octets[0] == OPEN,
        has_epoch: octets[EPOCH..LENGTH] == epoch.to_be_bytes()[..],
        len: read_number4(octets, LENGTH),
    }
}

/// The octets between a gate and a body.
#[tactic(auto, unfolding(crate::specs::Journal::header))]
pub fn write_header(epoch: u64, len: u32) -> [u8; BODY - 1]
    ensures { result ≡ header epoch len }
{
    let mut octets = [0; BODY - 1];
    octets[..LENGTH - EPOCH].copy_from_slice(&epoch.to_be_bytes());
    octets[LENGTH - EPOCH..].copy_from_slice(&len.to_be_bytes());
    octets
}
