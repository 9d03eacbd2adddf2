// Sessions are closed, and transactions rolled back.
ghost use Rattle.std.specs.Prelude.{◌≡◌, Some, IfOk};
ghost use Rattle.std.specs.FinMap.{get};
ghost use Rattle.pss_machine.specs.declared.command.Command.TheVariants as command;
ghost use Rattle.pss_machine.specs.Sessions.{Session};
ghost use Rattle.pss_machine.specs.Kept.{Kept};
ghost use Rattle.pss_machine.specs.Moving.{moved};
ghost use Rattle.connector_parts.specs.Stands.{Stands, AnyAt, IsAt, StayAs, Comes};
ghost use Rattle.session_calls.specs.Closings.{MayClose, closes};

use crate::associating::associated;
use connector_parts::Parts;
use pss_base::{NoMemory, SessionNo, Steps};
use pss_machine::{Kind, Reply, Text};
use std::sync::ledger::Ledger;

// The session goes, and with a basic one its owner.
fn close_session<L: Ledger>(parts: &mut Parts, session: SessionNo, kind: Kind, steps: &mut Steps<L>)
    requires { MayClose parts.old session kind }
    ensures closed { (k : Kept) (x : Session) → IsAt parts.old k → get k.sessions session.0 ≡ Some x → kind ≡ x.kind → Stands parts.new (moved k (closes session kind)) }
    ensures rest { StayAs parts.old parts.new }
{
    parts.attended.close(session, steps);
    match kind {
        Kind::Basic(owner) => {
            parts.attended.entries_stay();
            parts.accounts.leave(owner, steps);
        }
        Kind::Transactional => {}
    }
}

/// `close S`: `OK`, `NOSESSION` or `ASSOC`.
pub fn close<L: Ledger>(
    parts: &mut Parts,
    name: &Text<'_>,
    steps: &mut Steps<L>,
) -> Result<Reply, NoMemory>
    requires { AnyAt parts.old }
    ensures { IfOk result (λ reply. (k : Kept) → IsAt parts.old k → Comes parts.old k (command.Close name.now) reply parts.new) }
{
    let Some(found) = parts.session(name.as_slice()) else {
        return Ok(Reply::NoSession);
    };
    match found.standing.association.transaction() {
        Some(owner) => associated(parts, owner),
        None => {
            close_session(parts, found.number, found.standing.kind, steps);
            Ok(Reply::Done)
        }
    }
}

/// `rollback T`: `OK` or `NOTRANSACTION`.
pub fn rollback<L: Ledger>(parts: &mut Parts, transaction: &Text<'_>, steps: &mut Steps<L>) -> Reply
    requires { AnyAt parts.old }
    ensures { (k : Kept) → IsAt parts.old k → Comes parts.old k (command.Rollback transaction.now) result parts.new }
{
    match parts.accounts.titles().find(transaction.as_slice()) {
        Some(owner) => {
            parts.finish(owner, steps);
            Reply::Done
        }
        None => Reply::NoTransaction,
    }
}
