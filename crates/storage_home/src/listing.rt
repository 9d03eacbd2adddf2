// The first objects of a storage home and of those that derive from it.
ghost use Rattle.std.specs.Prelude.{◌≡◌, ℕ, List, Some, take, IfOk, OnOk};
ghost use Rattle.type_layout.specs.declared.home.HomeNo.{HomeNo as Home};
ghost use Rattle.type_layout.specs.declared.schema.Schema.{Schema};
ghost use Rattle.pss_catalog.specs.Catalog.{Catalog, pids_where};
ghost use Rattle.storage_home.specs.Kept.{Keeping, is_of};
ghost use Rattle.storage_home.specs.inner.Queues.{IsApart, AreIn, IsQueue, AnyQueue, IsListing, waiting_at, enqueued};

use crate::extents::{Extent, next_above_in, next_in};
use crate::homes::Homes;
use pss_base::{NoMemory, Pid, Pids};
use std::alloc::Global;
use std::collections::BTreeMap;
use type_layout::HomeNo;

/// The next serial of each home that has one, with the home.
type Queue = BTreeMap<u64, HomeNo>;

impl Homes {
    /// The first `n` objects, by serial, of a home and of the homes that derive from it: none where the home is not there.
    ///
    /// Each of these homes waits with its next serial; the least of them is taken, again and again. So it takes time in the
    /// answer and in the homes, times a logarithm. Serials that are reserved and have no object are passed over: a
    /// commit reserves some just before it is applied.
    ///
    /// `NoMemory`: there was no room for the list or for the homes that wait.
    pub fn first(&self, home: HomeNo, n: u32) -> Result<Pids, NoMemory>
        ensures { IfOk result (λ pids. Keeping self.now (λ S M. pids ≡ take n (pids_where (is_of S home) M))) }
    {
        let parts = &self.parts;
        first_of(parts.alloc, &parts.extents, parts.families.heirs(home), n)
    }
}

fn first_of(alloc: Global, extents: &[Extent], heirs: &[HomeNo], n: u32) -> Result<Pids, NoMemory>
    requires apart { IsApart extents.now }
    requires there { AreIn extents.now heirs.now }
    ensures { IfOk result (λ pids. (S : Schema) (M : Catalog) (home : Home) → IsListing S M home extents.now heirs.now → pids ≡ take n (pids_where (is_of S home) M)) }
{
    let mut queue = fronts(alloc, extents, heirs)?;
    listed(alloc, extents, &mut queue, n)
}

fn fronts(alloc: Global, extents: &[Extent], heirs: &[HomeNo]) -> Result<Queue, NoMemory>
    requires apart { IsApart extents.now }
    requires there { AreIn extents.now heirs.now }
    ensures { IfOk result (λ queue. IsQueue extents.now heirs.now 0 queue.entries) }
{
    let mut queue = BTreeMap::new(alloc);
    for heir in heirs {
        enqueue(&mut queue, *heir, next_in(extents, *heir, 0))?;
    }
    Ok(queue)
}

// Lets a home wait with its next serial, where it has one.
fn enqueue(queue: &mut Queue, home: HomeNo, next: Option<u64>) -> Result<(), NoMemory>
    ensures { OnOk result ((q : ℕ) → waiting_at q queue.new.entries ≡ enqueued next home q (waiting_at q queue.old.entries)) }
{
    if let Some(serial) = next {
        queue.insert(serial, home)?;
    }
    Ok(())
}

// Takes the least serial, again and again.
fn listed(alloc: Global, extents: &[Extent], queue: &mut Queue, n: u32) -> Result<Pids, NoMemory>
    requires { AnyQueue extents.now queue.old.entries }
    ensures { IfOk result (λ pids. (S : Schema) (M : Catalog) (home : Home) (heirs : List Home) → IsQueue extents.now heirs 0 queue.old.entries → IsListing S M home extents.now heirs → pids ≡ take n (pids_where (is_of S home) M)) }
{
    let mut pids = Pids::new(alloc);
    for _ in 0..n {
        let Some((serial, home)) = queue.pop_first() else {
            return Ok(pids);
        };
        pids.push(Pid {
            home: home.0,
            serial,
        })?;
        enqueue(queue, home, next_above_in(extents, home, serial))?;
    }
    Ok(pids)
}
