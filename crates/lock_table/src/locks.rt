// The locks of all owners.
ghost use Rattle.std.specs.Prelude.{◌≡◌, ◌+◌, ◌≤◌, None, OnOk, OnErr};
ghost use Rattle.std.specs.FinMap as map;
ghost use Rattle.std.specs.FinSet as set;
ghost use Rattle.lock_table.specs.Locks.{held_by, granted, released, blocker, lock_count};
ghost use Rattle.lock_table.specs.Standing.{AreLocks};
ghost use Rattle.lock_table.specs.inner.Nodes.{held_in};
ghost use Rattle.lock_table.specs.inner.Links.{IsWhole};

use crate::asks::blocker_of;
use crate::grants::grant;
use crate::links::{Links, Lock};
use crate::releases::release;
use crate::{places, tables};
use link_pool::Pool;
use pss_base::{NoMemory, OwnerNo, Steps};
use pss_machine::Needs;
use std::alloc::Global;
use std::marker::Model;
use std::sync::ledger::Ledger;

/// Which owner has locked which resources, and in which modes. Any owner may be named; one that has no lock is like one that
/// never was.
///
/// Locks are the nodes of a pool: those on one resource stand in one row, and those of one owner in one column. Rows and
/// columns are found by hash, and there are none without a lock.
#[derive(Drop)]
pub struct LockTable {
    links: Links,
}

impl Model for LockTable {
    ghost use Rattle.lock_table.specs.Locks.{Held, held_code};

    ghost Value = { Held };

    ghost coded = { held_code };

    ghost use Rattle.lock_table.specs.inner.Nodes.{held_in};
    ghost use Rattle.lock_table.specs.inner.Links.{IsWhole};

    ghost view = { λ t. held_in t.links.pool };

    ghost invariant = { λ t. IsWhole t.links };
}

// No lock and no ring.
fn no_links(alloc: Global) -> Links
    ensures held { held_in result.pool ≡ map.empty }
    ensures whole { IsWhole result }
{
    Links {
        alloc,
        pool: Pool::new(alloc),
        places: places::none(alloc),
        columns: tables::empty(alloc),
        held: 0,
    }
}

impl LockTable {
    /// A table in which no owner has a lock. It takes no memory.
    pub fn new(alloc: Global) -> LockTable
        ensures { result ≡ map.empty }
    {
        LockTable {
            links: no_links(alloc),
        }
    }

    /// The least other owner that has a lock which clashes with one of the needs. None exactly where there is no such lock.
    ///
    /// It walks the rows of the needs' resources alone, and takes no memory.
    #[inline(always)]
    pub fn blocker(&self, owner: OwnerNo, needs: &Needs) -> Option<OwnerNo>
        ensures { result ≡ blocker self.now owner needs.now }
    {
        blocker_of(&self.links, owner, needs.as_slice())
    }

    /// Locks what an owner needs, where nobody else has a lock that clashes. What it has locked already, or needs twice, is
    /// locked once.
    ///
    /// `NoMemory`: the locks are as before.
    #[inline(always)]
    pub fn grant(&mut self, owner: OwnerNo, needs: &Needs) -> Result<(), NoMemory>
        requires { blocker self.old owner needs.now ≡ None }
        ensures ok { OnOk result (self.new ≡ granted self.old owner needs.now) }
        ensures err { OnErr result (self.new ≡ self.old) }
    {
        grant(&mut self.links, owner, needs.as_slice())?;
        Ok(())
    }

    /// Releases all locks of an owner. One step for each of them, and at most one more. It takes no memory.
    pub fn release_all<L: Ledger>(&mut self, owner: OwnerNo, steps: &mut Steps<L>)
        ensures released { self.new ≡ released self.old owner }
        ensures each { steps.old + set.len (held_by self.old owner) ≤ steps.new }
        ensures at_most { steps.new ≤ steps.old + set.len (held_by self.old owner) + 1 }
    {
        release(&mut self.links, owner, steps);
    }

    /// How many locks all owners have together.
    pub fn held(&self) -> u64
        ensures { result ≡ lock_count self.now }
    {
        self.links.held
    }

    /// The pool whose nodes are the locks, each once. Two stand in one column exactly where their owners are equal, and in
    /// one row exactly where their resources are equal. There is no row and no column without a lock.
    pub fn rings(&self) -> &Pool<Lock>
        ensures { AreLocks self.now result.now }
    {
        &self.links.pool
    }
}
