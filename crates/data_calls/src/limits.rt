// What commands may not have more of.
ghost use Rattle.std.specs.Prelude.{◌≡◌, ◌==◌, ◌&&◌, ◌-◌, ◌^◌, nat_le, length, false, Some, IsSome, Ok, Err, MatchResult};
ghost use Rattle.std.specs.FinMap.{get, len};
ghost use Rattle.pss_machine.specs.Operations.{plain_op};
ghost use Rattle.pss_machine.specs.Owners.{Owner};
ghost use Rattle.pss_machine.specs.Kept.{Kept, copies_of};
ghost use Rattle.pss_machine.specs.Stepping.{changes_further as machine_changes_further, is_create};
ghost use Rattle.owner_accounts.specs.Accounts.{AreAccounts};
ghost use Rattle.owner_accounts.specs.Steps.{HasSerial};
ghost use Rattle.pss_asking.specs.Telling.{plain_asked};
ghost use Rattle.connector_parts.specs.Stands.{IsAt};
ghost use Rattle.data_calls.specs.Asking.{Asks, limited_as, changed_in};

use crate::acting::Acting;
use connector_parts::Parts;
use pss_asking::Asked;
use pss_base::{OwnerNo, SessionNo};
use pss_machine::{Op, Reply};

// The serial of the object that an operation changes, where it changes one.
fn changed_by(op: &Op) -> Option<u64>
    ensures { result ≡ changed_in (plain_op op.now) }
{
    match op {
        Op::Create { serial, .. } => Some(*serial),
        Op::Set { pid, .. } => Some(pid.serial),
        Op::Destroy { pid } => Some(pid.serial),
        _ => None,
    }
}

// It would change an object that its owner has not changed.
fn changes_further(parts: &Parts, owner: OwnerNo, op: &Op) -> bool
    ensures { (k : Kept) (o : Owner) → AreAccounts parts.now.schema parts.now.accounts k → get k.owners owner.0 ≡ Some o → result ≡ machine_changes_further o (plain_op op.now) }
{
    match changed_by(op) {
        Some(serial) => !parts.accounts.changed(owner, serial),
        None => false,
    }
}

// The owner has changed as many objects as it may.
fn has_most(parts: &Parts, owner: OwnerNo) -> bool
    ensures { (k : Kept) (o : Owner) → AreAccounts parts.now.schema parts.now.accounts k → get k.owners owner.0 ≡ Some o → result ≡ nat_le parts.now.limits.changes (len o.changes) }
{
    parts.accounts.changed_count(owner) >= parts.limits.changes
}

// It would change one object more than an owner may.
fn is_many(parts: &Parts, owner: OwnerNo, op: &Op) -> bool
    ensures { (k : Kept) (o : Owner) → AreAccounts parts.now.schema parts.now.accounts k → get k.owners owner.0 ≡ Some o → result ≡ (machine_changes_further o (plain_op op.now) && nat_le parts.now.limits.changes (len o.changes)) }
{
    changes_further(parts, owner, op) && has_most(parts, owner)
}

// It would make an object, and no serial is left.
fn is_last(parts: &Parts, op: &Op) -> bool
    ensures is { (k : Kept) → AreAccounts parts.now.schema parts.now.accounts k → result ≡ (is_create (plain_op op.now) && k.next == 2 ^ 64 - 1) }
    ensures left { (k : Kept) → AreAccounts parts.now.schema parts.now.accounts k → result ≡ false → HasSerial k.next (plain_op op.now) }
{
    match op {
        Op::Create { .. } => parts.accounts.next() == u64::MAX,
        _ => false,
    }
}

// The session has as many entries as it may.
fn is_full(parts: &Parts, session: SessionNo) -> bool
    ensures { (k : Kept) → IsAt parts.now k → IsSome (get k.copies session.0) → result ≡ nat_le parts.now.limits.entries (length (copies_of k session).entries) }
{
    parts.attended.entries_of(session) >= parts.limits.entries
}

// It would obtain an object, by one entry more than the session may have.
fn is_beyond(parts: &Parts, session: SessionNo, obtains: bool) -> bool
    ensures { (k : Kept) → IsAt parts.now k → IsSome (get k.copies session.0) → result ≡ (obtains && nat_le parts.now.limits.entries (length (copies_of k session).entries)) }
{
    obtains && is_full(parts, session)
}

/// What is asked is within the limits. Else the reply that says of what there would be too many.
pub fn limited(parts: &Parts, acting: Acting, asked: &Asked) -> Result<(), Reply>
    ensures { (a : Asks parts.now acting (Ok (plain_asked asked.now))) → MatchResult result (λ _. (limited_as a (plain_asked asked.now) ≡ Ok (plain_asked asked.now)) × HasSerial a.kept.next (plain_op asked.now.op)) (λ reply. limited_as a (plain_asked asked.now) ≡ Err reply) }
{
    if is_many(parts, acting.owner, &asked.op) {
        return Err(Reply::Many);
    }
    if is_last(parts, &asked.op) {
        return Err(Reply::Serials);
    }
    if is_beyond(parts, acting.session, asked.obtains) {
        return Err(Reply::Entries);
    }
    Ok(())
}
