// Room for what a commit puts.
ghost use Rattle.std.specs.Prelude.{◌≡◌, ◌≤◌, length, OnOk};
ghost use Rattle.storage_home.specs.Indexes.{AreKeysReserved, StayReserved};
ghost use Rattle.storage_home.specs.Kept.{IsKept, IsReserved, Keeping};
ghost use Rattle.storage_home.specs.Applied.{AreNamed, AreReserved, AllStay, IsChangeReserved};
ghost use Rattle.storage_home.specs.inner.Steps.{MayReserve, IsPlaced};

use crate::change::{Change, Changes};
use crate::extents::enter_in;
use crate::homes::Homes;
use crate::indexes::reserve_all;
use crate::parts::Parts;
use crate::rows::reserve;
use pss_base::{Bytes, NoMemory};
use type_layout::{HomeNo, KeyNo};

impl Homes {
    /// Reserves the serials to which the changes give a record, each for its home, and the new keys, so that applying
    /// the changes takes no memory. Their homes are those of the schema. What is there already stays there.
    ///
    /// `NoMemory`: the objects are as before, and what was reserved stays reserved.
    pub fn reserve_for(&mut self, changes: &Changes) -> Result<(), NoMemory>
        requires { Keeping self.old (λ S M. AreNamed S changes.now) }
        ensures kept { Keeping self.old (λ S M. IsKept S M self.new) }
        ensures ok { OnOk result (AreReserved self.new changes.now) }
        ensures stay { AllStay self.old self.new }
        ensures keys_stay { StayReserved self.old.keys self.new.keys }
    {
        self.parts.reserve_changes(changes.as_slice())
    }
}

impl Parts {
    fn reserve_changes(&mut self, changes: &[Change]) -> Result<(), NoMemory>
        requires { MayReserve self.old changes.now }
        ensures kept { Keeping self.old (λ S M. IsKept S M self.new) }
        ensures ok { OnOk result (AreReserved self.new changes.now) }
        ensures stay { AllStay self.old self.new }
        ensures keys_stay { StayReserved self.old.keys self.new.keys }
    {
        for change in changes {
            self.reserve_change(change)?;
        }
        Ok(())
    }

    fn reserve_change(&mut self, change: &Change) -> Result<(), NoMemory>
        requires { IsPlaced self.old change.now }
        ensures kept { Keeping self.old (λ S M. IsKept S M self.new) }
        ensures ok { OnOk result (IsChangeReserved self.new change.now) }
        ensures stay { AllStay self.old self.new }
        ensures keys_stay { StayReserved self.old.keys self.new.keys }
    {
        self.reserve_keys(change.new_keys.as_slice())?;
        match change.put.bytes {
            Some(_) => self.reserve_serial(HomeNo(change.put.home), change.put.serial),
            None => Ok(()),
        }
    }

    #[inline(always)]
    pub(crate) fn reserve_serial(&mut self, home: HomeNo, serial: u64) -> Result<(), NoMemory>
        requires some { 1 ≤ home.0 }
        requires there { home.0 ≤ length self.old.extents.items }
        ensures kept { Keeping self.old (λ S M. IsKept S M self.new) }
        ensures ok { OnOk result (IsReserved self.new home serial) }
        ensures stay { AllStay self.old self.new }
        ensures keys { self.new.keys ≡ self.old.keys }
    {
        reserve(self.alloc, &mut self.rows, serial)?;
        enter_in(&mut self.extents, home, serial)
    }

    pub(crate) fn reserve_keys(&mut self, keys: &[(KeyNo, Bytes)]) -> Result<(), NoMemory>
        ensures kept { Keeping self.old (λ S M. IsKept S M self.new) }
        ensures ok { OnOk result (AreKeysReserved self.new.keys keys.now) }
        ensures stay { AllStay self.old self.new }
        ensures extents { self.new.extents ≡ self.old.extents }
        ensures keys_stay { StayReserved self.old.keys self.new.keys }
    {
        reserve_all(self.alloc, &mut self.keys, keys)
    }
}
