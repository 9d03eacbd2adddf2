// What is told of sessions, entries, homes and commits.
ghost use Rattle.std.specs.Prelude.{◌≡◌, [], IfOk};
ghost use Rattle.type_layout.specs.Schemas.{given, home_at as home_in};
ghost use Rattle.pss_machine.specs.declared.command.Command.TheVariants as command;
ghost use Rattle.pss_machine.specs.Kept.{Kept};
ghost use Rattle.connector_parts.specs.Stands.{IsAt, Comes};

use connector_parts::Parts;
use pss_base::{Bytes, NoMemory};
use pss_machine::{Kind, Reply, Text};
use type_layout::{HomeNo, home_at};

/// `status S`: the state, `NOSESSION` or `KIND`.
pub fn status(parts: &Parts, name: &Text<'_>) -> Reply
    ensures { (k : Kept) → IsAt parts.now k → Comes parts.now k (command.Status name.now) result parts.now }
{
    let Some(found) = parts.session(name.as_slice()) else {
        return Reply::NoSession;
    };
    match found.standing.kind {
        Kind::Basic(_) => Reply::Kind,
        Kind::Transactional => Reply::State(found.standing.association.state()),
    }
}

/// `pidof S I`: the object of the entry, `NOSESSION` or `NOENTRY`.
pub fn pid_of(parts: &Parts, name: &Text<'_>, entry: u64) -> Reply
    ensures { (k : Kept) → IsAt parts.now k → Comes parts.now k (command.PidOf name.now entry) result parts.now }
{
    let Some(found) = parts.session(name.as_slice()) else {
        return Reply::NoSession;
    };
    match parts.pid_of(found.number, entry) {
        Some(pid) => Reply::PidAndShort(pid),
        None => Reply::NoEntry,
    }
}

// The name of a home, which is empty where there is no such home.
fn home_name(parts: &Parts, home: HomeNo) -> Result<Bytes, NoMemory>
    ensures { IfOk result (λ name. name ≡ given (home_in parts.now.schema home) [] (λ home. home.name)) }
{
    match home_at(parts.schema.schema(), home) {
        Some(home) => home.name.copy(),
        None => Ok(Bytes::new(parts.alloc)),
    }
}

/// `home S HOME`: the home that the word names, `NOSESSION` or `NOHOME`.
pub fn home(parts: &Parts, name: &Text<'_>, word: &Text<'_>) -> Result<Reply, NoMemory>
    ensures { IfOk result (λ reply. (k : Kept) → IsAt parts.now k → Comes parts.now k (command.Home name.now word.now) reply parts.now) }
{
    let Some(_) = parts.session(name.as_slice()) else {
        return Ok(Reply::NoSession);
    };
    let Some(home) = parts.schema.home(word.as_slice()) else {
        return Ok(Reply::NoHome);
    };
    let name = home_name(parts, home)?;
    Ok(Reply::HomeFound { home, name })
}

/// `history`: how many commits there were, and the texts of the last 64.
pub fn history(parts: &Parts) -> Result<Reply, NoMemory>
    ensures { IfOk result (λ reply. (k : Kept) → IsAt parts.now k → Comes parts.now k command.History reply parts.now) }
{
    let history = parts.accounts.history();
    Ok(Reply::History {
        commits: history.commits(),
        members: history.recent()?,
    })
}

/// `stat`: how many there are of everything.
pub fn stat(parts: &Parts) -> Reply
    ensures { (k : Kept) → IsAt parts.now k → Comes parts.now k command.Stat result parts.now }
{
    Reply::Stat {
        sessions: u64::from(parts.attended.sessions().count()),
        transactions: u64::from(parts.accounts.titles().transactions()),
        entries: parts.attended.entries(),
        attached: parts.attended.attached(),
        bodies: parts.attended.bodies(),
        locks: parts.accounts.locks(),
        commits: parts.accounts.history().commits(),
        objects: parts.accounts.objects(),
    }
}
