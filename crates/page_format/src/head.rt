// The head of a root area.
ghost use Rattle.std.specs.Prelude.{◌≡◌, ◌↔◌, ◌≤◌, IsTrue, length, IfOk, IfSome};
ghost use Rattle.pss_base.specs.Causes.{HasCause};
ghost use Rattle.pss_disk.specs.Reading.{OnlyReads};
ghost use Rattle.page_format.specs.Roots.{IsRoot};
ghost use Rattle.page_format.specs.inner.Heads.{IsHead};

use crate::layout::{AREA, EPOCH, NEXT, PAGE_COUNT, ROOT_MAGIC, SHAPE, SHAPE_LENGTH};
use pss_base::DiskFault;
use pss_disk::{Station, read_number4, read_number8};
use redo_journal::OPEN;

/// What stands in a root area in front of the shape.
#[derive(Clone, Copy)]
pub struct Head {
    /// The gate is open, and the magic is right.
    pub is_root: bool,
    pub epoch: u64,
    pub next: u64,
    pub shape_length: u32,
    pub page_count: u32,
}

// Whether a root begins with these octets.
fn is_root(octets: &[u8]) -> bool
    requires { length octets.now ≡ 32 }
    ensures { IsTrue result ↔ IsRoot octets.now 0 }
{
    octets[0] == OPEN && octets[1..EPOCH] == ROOT_MAGIC[..]
}

// The head in the first octets of a root area.
fn head_of(octets: &[u8]) -> Head
    requires { length octets.now ≡ 32 }
    ensures { IsHead 0 result octets.now }
{
    Head {
        is_root: is_root(octets),
        epoch: read_number8(octets, EPOCH),
        next: read_number8(octets, NEXT),
        shape_length: read_number4(octets, SHAPE_LENGTH),
        page_count: read_number4(octets, PAGE_COUNT),
    }
}

/// Reads the head of a root area.
pub fn read_head<W: Station>(w: &mut W, area: u8) -> Result<Head, DiskFault>
    requires { area ≤ 1 }
    ensures head { IfOk result (λ head. IfSome (W.content w.old) (IsHead area head)) }
    ensures reads { OnlyReads W.now W.content W.history W.speak_faults w.old w.new }
    ensures cause { HasCause (W.disk_faults w.old) (W.disk_faults w.new) result }
{
    let mut octets = [0; SHAPE];
    match w.read_at(area as u64 * AREA, &mut octets) {
        Ok(()) => Ok(head_of(&octets)),
        Err(_) => Err(DiskFault),
    }
}
