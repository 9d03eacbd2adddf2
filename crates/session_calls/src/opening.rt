// Sessions are opened, and transactions begun.
ghost use Rattle.std.specs.Prelude.{◌≡◌, IfOk, OnOk};
ghost use Rattle.pss_machine.specs.declared.command.Command.TheVariants as command;
ghost use Rattle.pss_machine.specs.Kept.{Kept, is_in_use};
ghost use Rattle.pss_machine.specs.Deciding.{access_of, level_of};
ghost use Rattle.pss_machine.specs.Effects.{OpensBasic, OpensTransactional};
ghost use Rattle.pss_machine.specs.Moving.{moved};
ghost use Rattle.connector_parts.specs.Stands.{Stands, AnyAt, IsAt, StayAs, Comes};
ghost use Rattle.session_calls.specs.Openings.{MayOpen};

use connector_parts::Parts;
use pss_base::NoMemory;
use pss_machine::{Access, Kind, Level, Reply, Text};

// The access of a session that may write, or not.
fn access_of(write: bool) -> Access
    ensures { result ≡ access_of write }
{
    if write {
        Access::ReadWrite
    } else {
        Access::ReadOnly
    }
}

// The level of a transaction that is serializable, or not.
fn level_of(serializable: bool) -> Level
    ensures { result ≡ level_of serializable }
{
    if serializable {
        Level::Serializable
    } else {
        Level::ReadCommitted
    }
}

// A session or a transaction has this name.
fn is_in_use(parts: &Parts, name: &[u8]) -> bool
    ensures { (k : Kept) → Stands parts.now k → result ≡ is_in_use k name.now }
{
    if let Some(_) = parts.attended.sessions().find(name) {
        return true;
    }
    match parts.accounts.titles().find(name) {
        Some(_) => true,
        None => false,
    }
}

fn open_basic(parts: &mut Parts, name: &Text<'_>, access: Access) -> Result<(), NoMemory>
    requires { MayOpen parts.old name.now }
    ensures moved { OnOk result ((k : Kept) → IsAt parts.old k → Stands parts.new (moved k (OpensBasic name.now access))) }
    ensures rest { StayAs parts.old parts.new }
{
    let owner = parts.accounts.open(name.to_bytes(parts.alloc)?)?;
    parts
        .attended
        .open(name.to_bytes(parts.alloc)?, Kind::Basic(owner), access)?;
    Ok(())
}

fn open_transactional(parts: &mut Parts, name: &Text<'_>, access: Access) -> Result<(), NoMemory>
    requires { MayOpen parts.old name.now }
    ensures moved { OnOk result ((k : Kept) → IsAt parts.old k → Stands parts.new (moved k (OpensTransactional name.now access))) }
    ensures rest { StayAs parts.old parts.new }
{
    parts
        .attended
        .open(name.to_bytes(parts.alloc)?, Kind::Transactional, access)?;
    Ok(())
}

/// `open S basic|tx ro|rw`: `OK`, `EXISTS` or `SESSIONS`.
pub fn open(parts: &mut Parts, name: &Text<'_>, tx: bool, write: bool) -> Result<Reply, NoMemory>
    requires { AnyAt parts.old }
    ensures { IfOk result (λ reply. (k : Kept) → IsAt parts.old k → Comes parts.old k (command.OpenSession name.now tx write) reply parts.new) }
{
    if is_in_use(parts, name.as_slice()) {
        return Ok(Reply::Exists);
    }
    if parts.attended.sessions().count() >= parts.limits.sessions {
        return Ok(Reply::Sessions);
    }
    if tx {
        open_transactional(parts, name, access_of(write))?;
    } else {
        open_basic(parts, name, access_of(write))?;
    }
    Ok(Reply::Done)
}

/// `begin T SERIALIZABLE|READ_COMMITTED`: `OK`, `EXISTS` or `TRANSACTIONS`.
pub fn begin(parts: &mut Parts, name: &Text<'_>, serializable: bool) -> Result<Reply, NoMemory>
    requires { AnyAt parts.old }
    ensures { IfOk result (λ reply. (k : Kept) → IsAt parts.old k → Comes parts.old k (command.Begin name.now serializable) reply parts.new) }
{
    if is_in_use(parts, name.as_slice()) {
        return Ok(Reply::Exists);
    }
    if parts.accounts.titles().transactions() >= parts.limits.transactions {
        return Ok(Reply::Transactions);
    }
    parts
        .accounts
        .begin(name.to_bytes(parts.alloc)?, level_of(serializable))?;
    Ok(Reply::Done)
}
