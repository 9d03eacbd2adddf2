// The objects that commits change.
ghost use Rattle.std.specs.Prelude.{◌≡◌, Some, map, IfOk};
ghost use Rattle.std.specs.FinMap.{get};
ghost use Rattle.type_layout.specs.declared.schema.Schema.{Schema};
ghost use Rattle.pss_machine.specs.Owners.{Owner, net};
ghost use Rattle.pss_machine.specs.Kept.{Kept};
ghost use Rattle.owner_accounts.specs.Accounts.{AreAccounts};
ghost use Rattle.pss_copies.specs.Settling.{AreOf, HasAmong};
ghost use Rattle.commit_calls.specs.Ready.{pid_of, pids_in, own_in};

use owner_accounts::Accounts;
use pss_base::{NoMemory, OwnerNo, Pid};
use std::alloc::Global;
use std::slice;
use storage_home::Change;

/// The objects that a commit changes, where its owner changed others too, which came to nothing.
#[derive(Drop)]
pub struct FewerPids {
    /// Those that it changes, in the order of its changes.
    pub net: Vec<Pid>,
    /// Those of which the owner has a value.
    pub own: Vec<Pid>,
}

/// The objects that a commit changes, in the order of its changes, and those of which the owner has a value.
#[derive(Drop)]
pub enum Pids {
    /// The owner changed no other object than this one. It takes no memory.
    One(Pid),
    /// The owner changed no other objects than these.
    Many(Vec<Pid>),
    /// The owner changed others too.
    Fewer(Box<FewerPids>),
}

impl Pids {
    /// The objects that the commit changes.
    pub fn as_slice(&self) -> &[Pid]
        ensures { result.now ≡ pids_in self.now }
    {
        match self {
            Pids::One(pid) => slice::from_ref(pid),
            Pids::Many(pids) => pids.as_slice(),
            Pids::Fewer(pids) => pids.net.as_slice(),
        }
    }

    /// Objects among which are all of which the owner has a value.
    pub fn own(&self) -> &[Pid]
        ensures { result.now ≡ own_in self.now }
    {
        match self {
            Pids::One(pid) => slice::from_ref(pid),
            Pids::Many(pids) => pids.as_slice(),
            Pids::Fewer(pids) => pids.own.as_slice(),
        }
    }
}

fn pid_of(change: &Change) -> Pid
    ensures { result ≡ pid_of change.now }
{
    Pid {
        home: change.put.home,
        serial: change.put.serial,
    }
}

fn list_of(alloc: Global, changes: &[Change]) -> Result<Vec<Pid>, NoMemory>
    ensures { IfOk result (λ pids. pids.items ≡ map pid_of changes.now) }
{
    let mut pids = Vec::with_capacity(alloc, changes.len())?;
    for change in changes {
        pids.push(pid_of(change))?;
    }
    Ok(pids)
}

// The objects of changes, where the owner changed no others.
fn all_of(alloc: Global, changes: &[Change]) -> Result<Pids, NoMemory>
    ensures pids { IfOk result (λ pids. pids_in pids ≡ map pid_of changes.now) }
    ensures own { IfOk result (λ pids. own_in pids ≡ map pid_of changes.now) }
{
    if changes.len() == 1 {
        return Ok(Pids::One(pid_of(&changes[0])));
    }
    match list_of(alloc, changes) {
        Ok(pids) => Ok(Pids::Many(pids)),
        Err(memory) => Err(memory),
    }
}

// The objects of changes, and those of which the owner has a value.
#[inline(never)]
fn fewer_of(
    alloc: Global,
    accounts: &Accounts,
    owner: OwnerNo,
    changes: &[Change],
) -> Result<Pids, NoMemory>
    ensures pids { IfOk result (λ pids. pids_in pids ≡ map pid_of changes.now) }
    ensures own { IfOk result (λ pids. (S : Schema) (k : Kept) (o : Owner) → AreAccounts S accounts.now k → get k.owners owner.0 ≡ Some o → HasAmong o (own_in pids)) }
{
    let net = list_of(alloc, changes)?;
    let own = accounts.valued_pids(owner)?;
    let pids = Box::new(alloc, FewerPids { net, own })?;
    Ok(Pids::Fewer(pids))
}

/// The objects of an owner's net changes. Those of which it has a value are listed only where it changed others too.
pub fn pids_of(
    alloc: Global,
    accounts: &Accounts,
    owner: OwnerNo,
    changes: &[Change],
) -> Result<Pids, NoMemory>
    ensures pids { IfOk result (λ pids. pids_in pids ≡ map pid_of changes.now) }
    ensures own { IfOk result (λ pids. (S : Schema) (k : Kept) (o : Owner) → AreAccounts S accounts.now k → get k.owners owner.0 ≡ Some o → AreOf k.catalog (net k.catalog o) (map pid_of changes.now) → HasAmong o (own_in pids)) }
{
    if changes.len() == accounts.changed_count(owner) as usize {
        all_of(alloc, changes)
    } else {
        fewer_of(alloc, accounts, owner, changes)
    }
}
