// Owners as they are called, by number.
ghost use Rattle.std.specs.Prelude.{◌≡◌, ◌-◌, ◌<◌, ◌^◌, IsSome, IsSomeAnd, OnOk, OnErr, option_copied};
ghost use Rattle.std.specs.FinMap as map;
ghost use Rattle.recent_table.specs.Maps.{IsWith};
ghost use Rattle.owner_titles.specs.Meaning.{marked, one_more, unspent};

use crate::called::Called;
use pss_base::{NoMemory, OwnerNo};
use recent_table::RecentTable;
use std::alloc::Global;
use std::marker::Model;
use table_hash::NumberHasher;

/// A finite map from the numbers of owners to how they are called.
#[derive(Drop)]
pub struct TitleTable {
    table: RecentTable<OwnerNo, Called, NumberHasher>,
}

impl Model for TitleTable {
    ghost use Rattle.std.specs.Coded.{coded_ℕ};
    ghost use Rattle.std.specs.Ordering.{nat_cmp};
    ghost use Rattle.std.specs.FinMap.{FinMap, from_entries, code};
    ghost use Rattle.owner_titles.specs.declared.called.Called.{Called};
    ghost use Rattle.owner_titles.specs.Codes.{called_code};
    ghost use Rattle.owner_titles.specs.inner.Numbered.{numbered};

    ghost Value = { FinMap nat_cmp Called };

    ghost coded = { code coded_ℕ called_code };

    ghost view = { λ t. from_entries (numbered t.table) };
}

impl TitleTable {
    pub fn new(alloc: Global) -> TitleTable
        ensures { result ≡ map.empty }
    {
        TitleTable {
            table: RecentTable::new(alloc),
        }
    }

    pub fn get(&self, owner: OwnerNo) -> Option<&Called>
        ensures { option_copied result ≡ map.get self.now owner.0 }
    {
        self.table.get(owner)
    }

    /// `NoMemory`: the table is as before.
    pub fn add(&mut self, owner: OwnerNo, called: Called) -> Result<(), NoMemory>
        ensures ok { OnOk result (self.new ≡ map.insert self.old owner.0 called) }
        ensures err { OnErr result (self.new ≡ self.old) }
    {
        self.table.insert(owner, called)?;
        Ok(())
    }

    pub fn mark(&mut self, owner: OwnerNo, failed: bool)
        requires { IsSome (map.get self.old owner.0) }
        ensures { IsWith self.old self.new owner.0 (marked failed) }
    {
        match self.table.get_mut(owner) {
            Some(called) => called.failed |= failed,
            None => unreachable!(),
        }
    }

    #[inline(always)]
    pub fn count(&mut self, owner: OwnerNo)
        requires { IsSomeAnd (map.get self.old owner.0) (λ called. called.commands < 2 ^ 32 - 1) }
        ensures { IsWith self.old self.new owner.0 one_more }
    {
        // `get` keeps the place that it finds and `get_mut` does not, so the owner is looked for first at its next command.
        let _ = self.table.get(owner);
        match self.table.get_mut(owner) {
            Some(called) => called.commands += 1,
            None => unreachable!(),
        }
    }

    pub fn unspend(&mut self, owner: OwnerNo)
        requires { IsSome (map.get self.old owner.0) }
        ensures { IsWith self.old self.new owner.0 unspent }
    {
        match self.table.get_mut(owner) {
            Some(called) => called.commands = 0,
            None => unreachable!(),
        }
    }

    pub fn remove(&mut self, owner: OwnerNo) -> Option<Called>
        ensures value { result ≡ map.get self.old owner.0 }
        ensures removed { self.new ≡ map.remove self.old owner.0 }
    {
        self.table.remove(owner)
    }
}
