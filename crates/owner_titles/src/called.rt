// An owner as it is called.

use pss_base::Bytes;
use pss_machine::Level;

/// An owner as it is called, and what is counted of it.
#[derive(Drop)]
pub struct Called {
    /// The transaction's name, or that of the basic session.
    pub name: Bytes,
    pub level: Level,
    /// A session's part of the transaction failed, so it is to be rolled back.
    pub failed: bool,
    /// How many data commands it has done since it came, or since its last flush.
    pub commands: u32,
}
