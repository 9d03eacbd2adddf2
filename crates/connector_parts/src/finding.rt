// The session of a name.
ghost use Rattle.std.specs.Prelude.{◌≡◌, None, MatchOption};
ghost use Rattle.pss_machine.specs.Kept.{Kept};
ghost use Rattle.pss_machine.specs.Sessions.{session_named};
ghost use Rattle.connector_parts.specs.Stands.{Stands};
ghost use Rattle.connector_parts.specs.Found.{IsFound};

use crate::parts::Parts;
use pss_session::Found;

impl Parts {
    /// The session of a name. None exactly where no session has it.
    #[inline(always)]
    pub fn session(&self, name: &[u8]) -> Option<Found>
        ensures { (k : Kept) → Stands self.now k → MatchOption result (session_named k.sessions name.now ≡ None) (IsFound k name.now) }
    {
        self.attended.sessions().find_standing(name)
    }
}
