// Entries leave their bodies, session by session.
ghost use Rattle.std.specs.Prelude.{◌≡◌, ◌+◌, ◌*◌, ◌≤◌, ◌==◌, length};
ghost use Rattle.incarnations.specs.Meaning.{Leaves, loosened, both, of_session};
ghost use Rattle.pss_session.specs.Meaning.{on_unchanged};
ghost use Rattle.pss_session.specs.inner.Rows.{session_of};
ghost use Rattle.pss_session.specs.inner.Walks.{numbered, some_row};
ghost use Rattle.pss_session.specs.Meaning.{is_in, belongs_to};

use crate::register::SessionRecord;
use crate::rows::Rows;
use incarnations::Incarnations;
use pss_base::{OwnerNo, Pid, SessionNo, Steps};
use pss_machine::{Kind, View};
use std::sync::ledger::Ledger;

impl SessionRecord {
    // It is the owner itself, or in its transaction.
    fn belongs_to(&self, owner: OwnerNo) -> bool
        ensures { result ≡ belongs_to owner (session_of self.now) }
    {
        match self.kind {
            Kind::Basic(itself) => itself == owner,
            Kind::Transactional => self.is_in(owner),
        }
    }
}

// The entries of a session leave their bodies, where it is in the transaction.
fn detach_one<L: Ledger>(
    copies: &mut Incarnations,
    number: u32,
    session: &SessionRecord,
    owner: OwnerNo,
    steps: &mut Steps<L>,
)
    ensures lasts { copies.new.lasts ≡ copies.old.lasts }
    ensures left { Leaves (loosened (numbered number (is_in owner (session_of session.now)))) copies.old copies.new }
{
    copies.copies_hold();
    if session.is_in(owner) {
        copies.detach_session(SessionNo(number), steps);
    }
}

/// The entries of all sessions in the transaction leave their bodies.
pub fn detach_all<L: Ledger>(
    rows: &Rows,
    copies: &mut Incarnations,
    owner: OwnerNo,
    steps: &mut Steps<L>,
)
    ensures lasts { copies.new.lasts ≡ copies.old.lasts }
    ensures left { Leaves (loosened (some_row (λ r. is_in owner (session_of r)) rows.now.entries)) copies.old copies.new }
{
    copies.copies_hold();
    for at in 0..rows.len() {
        if let Some((number, session)) = rows.get_index(at) {
            detach_one(copies, *number, session, owner, steps);
        }
    }
}

// The entry of a session for an object leaves the committed body and the session's own copy.
fn detach_unchanged<L: Ledger>(
    copies: &mut Incarnations,
    number: u32,
    pid: Pid,
    steps: &mut Steps<L>,
)
    ensures lasts { copies.new.lasts ≡ copies.old.lasts }
    ensures left { Leaves (loosened (both (of_session (record { 0 = number })) (on_unchanged pid))) copies.old copies.new }
    ensures steps { steps.new ≤ steps.old + 4 }
{
    let session = SessionNo(number);
    copies.detach_entry(session, pid, View::Committed, steps);
    copies.detach_entry(session, pid, View::Kept(session), steps);
}

// The same, where the session belongs to the owner.
fn detach_pid_one<L: Ledger>(
    copies: &mut Incarnations,
    number: u32,
    session: &SessionRecord,
    owner: OwnerNo,
    pid: Pid,
    steps: &mut Steps<L>,
)
    ensures lasts { copies.new.lasts ≡ copies.old.lasts }
    ensures left { Leaves (loosened (both (numbered number (belongs_to owner (session_of session.now))) (on_unchanged pid))) copies.old copies.new }
    ensures steps { steps.new ≤ steps.old + 4 }
{
    copies.copies_hold();
    if session.belongs_to(owner) {
        detach_unchanged(copies, number, pid, steps);
    }
}

/// The entries for an object, in all sessions that belong to the owner, leave the committed body and the sessions' own
/// copies.
pub fn detach_pid<L: Ledger>(
    rows: &Rows,
    copies: &mut Incarnations,
    owner: OwnerNo,
    pid: Pid,
    steps: &mut Steps<L>,
)
    ensures lasts { copies.new.lasts ≡ copies.old.lasts }
    ensures left { Leaves (loosened (both (some_row (λ r. belongs_to owner (session_of r)) rows.now.entries) (on_unchanged pid))) copies.old copies.new }
    ensures steps { steps.new ≤ steps.old + 4 * length rows.now.entries }
{
    copies.copies_hold();
    for at in 0..rows.len() {
        if let Some((number, session)) = rows.get_index(at) {
            detach_pid_one(copies, *number, session, owner, pid, steps);
        }
    }
}
