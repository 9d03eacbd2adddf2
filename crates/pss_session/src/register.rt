// What is stored of sessions.
ghost use Rattle.std.specs.Prelude.{◌≡◌};

use crate::names::Names;
use crate::rows::Rows;
use pss_base::{Bytes, SessionNo};
use pss_machine::{Access, Association, Kind};

/// A session.
#[derive(Drop)]
pub struct SessionRecord {
    pub name: Bytes,
    pub kind: Kind,
    pub access: Access,
    pub association: Association,
}

/// What a session is, and how it is associated.
#[derive(Clone, Copy, Drop)]
pub struct Standing {
    pub kind: Kind,
    pub access: Access,
    pub association: Association,
}

/// A session that was found by its name.
#[derive(Clone, Copy, Drop)]
pub struct Found {
    pub number: SessionNo,
    pub standing: Standing,
}

impl SessionRecord {
    /// What the session is, and how it is associated.
    #[inline(always)]
    pub fn standing(&self) -> Standing
        ensures { (result.kind ≡ self.now.kind) × (result.access ≡ self.now.access) × (result.association ≡ self.now.association) }
    {
        Standing {
            kind: self.kind,
            access: self.access,
            association: self.association,
        }
    }
}

/// The sessions by number, in the order in which they were opened, their numbers by name, and the last number that was
/// given.
#[derive(Drop)]
pub struct Register {
    pub rows: Rows,
    pub names: Names,
    pub last: u32,
}
