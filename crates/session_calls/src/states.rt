// The transactions that sessions are associated with.
ghost use Rattle.std.specs.Prelude.{◌≡◌};
ghost use Rattle.session_calls.specs.Starts.{held_by};

use pss_base::OwnerNo;
use pss_machine::Association;

/// The transaction that keeps a session from starting with this one.
pub fn held_by(association: Association, owner: OwnerNo) -> Option<OwnerNo>
    ensures { result ≡ held_by owner association }
{
    match association {
        Association::NoTransaction => None,
        Association::Active(other) => Some(other),
        Association::Suspended(other) => {
            if other.0 == owner.0 {
                None
            } else {
                Some(other)
            }
        }
        Association::Ending(other) => Some(other),
    }
}
