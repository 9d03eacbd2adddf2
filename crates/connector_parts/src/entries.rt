// The entries that commands name.
ghost use Rattle.std.specs.Prelude.{◌≡◌, ◌≤◌, ◌^◌, MatchOption};
ghost use Rattle.std.specs.Option.{option_map};
ghost use Rattle.pss_machine.specs.Copies.{entry_numbered};
ghost use Rattle.pss_machine.specs.Kept.{Kept, copies_of};
ghost use Rattle.connector_parts.specs.Stands.{IsAt};

use crate::parts::Parts;
use pss_base::{Pid, SessionNo};

/// The number of an entry, as far as entries may have it. None: no entry has so high a number.
#[inline(always)]
pub fn entry_number(entry: u64) -> Option<u32>
    ensures { MatchOption result (2 ^ 32 ≤ entry) (λ n. n ≡ entry) }
{
    match u32::try_from(entry) {
        Ok(number) => Some(number),
        Err(_) => None,
    }
}

impl Parts {
    /// The object of a session's entry. None exactly where the session has no such entry.
    #[inline(always)]
    pub fn pid_of(&self, session: SessionNo, entry: u64) -> Option<Pid>
        ensures { (k : Kept) → IsAt self.now k → result ≡ option_map (λ e. e.pid) (entry_numbered (copies_of k session) entry) }
    {
        let number = entry_number(entry)?;
        let copies = self.attended.copies();
        copies.copies_hold();
        copies.pid_of(session, number)
    }
}
