// How much there may be at once.
ghost use Rattle.std.specs.Prelude.{◌≡◌};
ghost use Rattle.pss_machine.specs.Limits.{standard};

use pss_base::{GREATEST_TOTAL, MOST_CHANGES};

/// How much there may be at once.
#[derive(Clone, Copy, Debug, PartialEq, Eq, Drop)]
pub struct Limits {
    /// The sum over the committed objects of 16 and the octets of their records.
    pub total: u64,
    /// Sessions.
    pub sessions: u32,
    /// Transactions.
    pub transactions: u32,
    /// Objects that one owner has changed.
    pub changes: u32,
    /// Entries of one session.
    pub entries: u32,
}

impl Limits {
    /// 67,108,864 octets, 64 sessions, 64 transactions, 256 changes, 65,535 entries.
    pub fn standard() -> Limits
        ensures { result ≡ standard }
    {
        Limits {
            total: GREATEST_TOTAL,
            sessions: 64,
            transactions: 64,
            changes: MOST_CHANGES,
            entries: 65_535,
        }
    }
}
