// Sessions that data commands are done in.
ghost use Rattle.std.specs.Prelude.{◌≡◌, None, IfSome, MatchOption, MatchResult};
ghost use Rattle.pss_machine.specs.Kept.{Kept};
ghost use Rattle.pss_machine.specs.Sessions.{Session, acts_for as machine_acts_for};
ghost use Rattle.connector_parts.specs.Stands.{IsAt};
ghost use Rattle.data_calls.specs.Acting.{ActsFor, IsNamed, IsIdle};

use connector_parts::Parts;
use pss_base::{OwnerNo, SessionNo};
use pss_machine::{Access, Kind, Reply};
use pss_session::Found;

/// A session in which a data command is done, and the owner that it acts for.
#[derive(Clone, Copy, Drop)]
pub struct Acting {
    pub session: SessionNo,
    pub access: Access,
    pub owner: OwnerNo,
    pub basic: bool,
}

// The session as it acts for an owner. None: it acts for nobody.
#[inline(always)]
fn acting_for(found: Found) -> Option<Acting>
    ensures { (session : Session) → session.kind ≡ found.standing.kind → session.association ≡ found.standing.association → MatchOption result (machine_acts_for session ≡ None) (ActsFor session found) }
{
    match found.standing.kind {
        Kind::Basic(owner) => Some(Acting {
            session: found.number,
            access: found.standing.access,
            owner,
            basic: true,
        }),
        Kind::Transactional => {
            let owner = found.standing.association.active()?;
            Some(Acting {
                session: found.number,
                access: found.standing.access,
                owner,
                basic: false,
            })
        }
    }
}

/// The session of a name as it acts for an owner. Else the reply to every data command in it: no session has the name, or
/// it acts for nobody.
#[inline(always)]
pub fn acts_in(parts: &Parts, name: &[u8]) -> Result<Acting, Reply>
    ensures { (k : Kept) → IsAt parts.now k → MatchResult result (IsNamed k name.now) (IsIdle parts.now k name.now) }
{
    let Some(found) = parts.session(name) else {
        return Err(Reply::NoSession);
    };
    match acting_for(found) {
        Some(acting) => Ok(acting),
        None => Err(Reply::NoTx),
    }
}

/// The session of a name as it acts for an owner. None: no session has the name, or it acts for nobody.
#[inline(always)]
pub fn acting_in(parts: &Parts, name: &[u8]) -> Option<Acting>
    ensures { (k : Kept) → IsAt parts.now k → IfSome result (IsNamed k name.now) }
{
    match acts_in(parts, name) {
        Ok(acting) => Some(acting),
        Err(_) => None,
    }
}
