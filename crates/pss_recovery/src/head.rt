// What stands in front of the record of a change.
ghost use Rattle.std.specs.Prelude.{◌≡◌, ◌≤◌, length, take, MatchOption};
ghost use Rattle.pss_recovery.specs.Bodies.{change_head};
ghost use Rattle.pss_recovery.specs.inner.Changes.{AreNumbers, Begins, BeginsNone};

use crate::layout::{LENGTH, RECORD, SERIAL};
use pss_disk::{read_number4, read_number8};

/// A change but for its record.
#[derive(Clone, Copy)]
pub struct ChangeHead {
    pub home: u32,
    pub serial: u64,
    /// The length of the record, 0 where the object is removed.
    pub len: u32,
}

// The head in front of the octets.
#[tactic(auto, unfolding(crate::specs::Bodies::change_head))]
fn head_of(octets: &[u8]) -> ChangeHead
    requires { 16 ≤ length octets.now }
    ensures numbers { AreNumbers result }
    ensures spelled { take 16 octets.now ≡ change_head result.home result.serial result.len }
{
    ChangeHead {
        home: read_number4(octets, 0),
        serial: read_number8(octets, SERIAL),
        len: read_number4(octets, LENGTH),
    }
}

/// The head of the change that the octets begin with, where they begin with one.
pub fn read_head(octets: &[u8]) -> Option<ChangeHead>
    ensures { MatchOption result (BeginsNone octets.now) (λ head. Begins head octets.now) }
{
    if octets.len() < RECORD {
        return None;
    }
    let head = head_of(octets);
    if octets.len() - RECORD < head.len as usize {
        return None;
    }
    Some(head)
}
