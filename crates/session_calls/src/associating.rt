// Sessions are associated with transactions.
ghost use Rattle.std.specs.Prelude.{◌≡◌, IfOk};
ghost use Rattle.pss_machine.specs.declared.command.Command.TheVariants as command;
ghost use Rattle.pss_machine.specs.declared.reply.Reply.TheVariants as reply;
ghost use Rattle.pss_machine.specs.Kept.{Kept, name_of};
ghost use Rattle.pss_machine.specs.Moving.{ended};
ghost use Rattle.connector_parts.specs.Stands.{Stands, AnyAt, IsAt, StayAs, Comes};
ghost use Rattle.session_calls.specs.Endings.{MayEnd};

use crate::states::held_by;
use connector_parts::Parts;
use pss_base::{NoMemory, OwnerNo, SessionNo, Steps};
use pss_machine::{Kind, Reply, Text};
use std::sync::ledger::Ledger;

/// The reply that a session is associated with a transaction.
pub fn associated(parts: &Parts, owner: OwnerNo) -> Result<Reply, NoMemory>
    ensures { IfOk result (λ told. (k : Kept) → Stands parts.now k → told ≡ reply.Assoc (name_of k owner)) }
{
    Ok(Reply::Assoc(parts.name_of(owner)?))
}

/// `start S T`: `OK`, `NOSESSION`, `NOTRANSACTION`, `KIND` or `ASSOC`.
pub fn start(parts: &mut Parts, name: &Text<'_>, transaction: &Text<'_>) -> Result<Reply, NoMemory>
    requires { AnyAt parts.old }
    ensures { IfOk result (λ reply. (k : Kept) → IsAt parts.old k → Comes parts.old k (command.Start name.now transaction.now) reply parts.new) }
{
    let Some(found) = parts.session(name.as_slice()) else {
        return Ok(Reply::NoSession);
    };
    let Some(owner) = parts.accounts.titles().find(transaction.as_slice()) else {
        return Ok(Reply::NoTransaction);
    };
    match found.standing.kind {
        Kind::Basic(_) => Ok(Reply::Kind),
        Kind::Transactional => match held_by(found.standing.association, owner) {
            Some(other) => associated(parts, other),
            None => {
                parts.attended.start(found.number, owner);
                Ok(Reply::Done)
            }
        },
    }
}

/// `suspend S`: `OK`, `NOSESSION`, `KIND` or `NOTX`.
pub fn suspend(parts: &mut Parts, name: &Text<'_>) -> Reply
    requires { AnyAt parts.old }
    ensures { (k : Kept) → IsAt parts.old k → Comes parts.old k (command.Suspend name.now) result parts.new }
{
    let Some(found) = parts.session(name.as_slice()) else {
        return Reply::NoSession;
    };
    match found.standing.kind {
        Kind::Basic(_) => Reply::Kind,
        Kind::Transactional => match found.standing.association.active() {
            Some(_) => {
                parts.attended.suspend(found.number);
                Reply::Done
            }
            None => Reply::NoTx,
        },
    }
}

// The session's part of the transaction is done. Where it failed, the transaction is marked.
fn end_part<L: Ledger>(
    parts: &mut Parts,
    session: SessionNo,
    owner: OwnerNo,
    failed: bool,
    steps: &mut Steps<L>,
)
    requires { MayEnd parts.old session owner }
    ensures ended { (k : Kept) → IsAt parts.old k → Stands parts.new (ended k session owner failed) }
    ensures rest { StayAs parts.old parts.new }
{
    parts.attended.end(session, steps);
    parts.accounts.mark(owner, failed);
}

/// `end S ok|fail`: `OK`, `NOSESSION`, `KIND` or `NOTX`.
pub fn end<L: Ledger>(parts: &mut Parts, name: &Text<'_>, ok: bool, steps: &mut Steps<L>) -> Reply
    requires { AnyAt parts.old }
    ensures { (k : Kept) → IsAt parts.old k → Comes parts.old k (command.End name.now ok) result parts.new }
{
    let Some(found) = parts.session(name.as_slice()) else {
        return Reply::NoSession;
    };
    match found.standing.kind {
        Kind::Basic(_) => Reply::Kind,
        Kind::Transactional => match found.standing.association.open() {
            Some(owner) => {
                end_part(parts, found.number, owner, !ok, steps);
                Reply::Done
            }
            None => Reply::NoTx,
        },
    }
}
