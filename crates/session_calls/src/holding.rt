// Entries are counted, and let go.
ghost use Rattle.pss_machine.specs.declared.command.Command.TheVariants as command;
ghost use Rattle.pss_machine.specs.Kept.{Kept};
ghost use Rattle.connector_parts.specs.Stands.{AnyAt, IsAt, Comes};

use connector_parts::{Parts, entry_number};
use pss_base::Steps;
use pss_machine::{Kind, Reply, Text};
use std::sync::ledger::Ledger;

/// `dup S I`: the entry's count, `NOSESSION` or `NOENTRY`.
pub fn dup(parts: &mut Parts, name: &Text<'_>, entry: u64) -> Reply
    requires { AnyAt parts.old }
    ensures { (k : Kept) → IsAt parts.old k → Comes parts.old k (command.Dup name.now entry) result parts.new }
{
    let Some(found) = parts.session(name.as_slice()) else {
        return Reply::NoSession;
    };
    let Some(number) = entry_number(entry) else {
        return Reply::NoEntry;
    };
    parts.attended.copies().copies_hold();
    match parts.attended.dup(found.number, number) {
        Some(count) => Reply::Count(u64::from(count)),
        None => Reply::NoEntry,
    }
}

/// `release S I`: the entry's count, at 0 of which it goes, `NOSESSION` or `NOENTRY`.
pub fn release<L: Ledger>(
    parts: &mut Parts,
    name: &Text<'_>,
    entry: u64,
    steps: &mut Steps<L>,
) -> Reply
    requires { AnyAt parts.old }
    ensures { (k : Kept) → IsAt parts.old k → Comes parts.old k (command.Release name.now entry) result parts.new }
{
    let Some(found) = parts.session(name.as_slice()) else {
        return Reply::NoSession;
    };
    let Some(number) = entry_number(entry) else {
        return Reply::NoEntry;
    };
    match parts.attended.release(found.number, number, steps) {
        Some(count) => Reply::Count(u64::from(count)),
        None => Reply::NoEntry,
    }
}

/// `freeall S`: `OK` or `NOSESSION`.
pub fn free_all<L: Ledger>(parts: &mut Parts, name: &Text<'_>, steps: &mut Steps<L>) -> Reply
    requires { AnyAt parts.old }
    ensures { (k : Kept) → IsAt parts.old k → Comes parts.old k (command.FreeAll name.now) result parts.new }
{
    match parts.session(name.as_slice()) {
        Some(found) => {
            parts.attended.free_all(found.number, steps);
            Reply::Done
        }
        None => Reply::NoSession,
    }
}

/// `refresh S`: `OK`, `NOSESSION` or `KIND`.
pub fn refresh<L: Ledger>(parts: &mut Parts, name: &Text<'_>, steps: &mut Steps<L>) -> Reply
    requires { AnyAt parts.old }
    ensures { (k : Kept) → IsAt parts.old k → Comes parts.old k (command.Refresh name.now) result parts.new }
{
    let Some(found) = parts.session(name.as_slice()) else {
        return Reply::NoSession;
    };
    match found.standing.kind {
        Kind::Basic(_) => {
            parts.attended.refresh(found.number, steps);
            Reply::Done
        }
        Kind::Transactional => Reply::Kind,
    }
}
