// The entries by session and number.
ghost use Rattle.std.specs.Prelude.{◌≡◌, ◌<◌, ◌^◌, IsSome, OnOk, OnErr, option_copied};
ghost use Rattle.std.specs.FinMap as map;

use crate::names::{EntryRecord, Slot};
use pss_base::NoMemory;
use recent_table::RecentTable;
use std::alloc::Global;
use std::marker::Model;
use table_hash::NumberHasher;

/// A finite map from slots to records of entries.
#[derive(Drop)]
pub struct EntryTable {
    table: RecentTable<Slot, EntryRecord, NumberHasher>,
}

impl Model for EntryTable {
    ghost use Rattle.std.specs.FinMap.{FinMap, from_entries, code};
    ghost use Rattle.incarnations.specs.declared.names.EntryRecord.{EntryRecord};
    ghost use Rattle.incarnations.specs.Keys.{slot_cmp};
    ghost use Rattle.incarnations.specs.Codes.{slot_code, entry_record_code};

    ghost Value = { FinMap slot_cmp EntryRecord };

    ghost coded = { code slot_code entry_record_code };

    ghost view = { λ t. from_entries t.table };
}

impl EntryTable {
    pub fn new(alloc: Global) -> EntryTable
        ensures { result ≡ map.empty }
    {
        EntryTable {
            table: RecentTable::new(alloc),
        }
    }

    pub fn len(&self) -> usize
        ensures len { result ≡ map.len self.now }
        ensures small { result < 2 ^ 63 }
    {
        self.table.len()
    }

    /// The record of a slot, which is not copied.
    #[inline(always)]
    pub fn find(&self, slot: Slot) -> Option<&EntryRecord>
        ensures { option_copied result ≡ map.get self.now slot }
    {
        self.table.get(slot)
    }

    #[inline(always)]
    pub fn get(&self, slot: Slot) -> Option<EntryRecord>
        ensures { result ≡ map.get self.now slot }
    {
        self.find(slot).copied()
    }

    /// Puts a record at a slot that has none, where the next one is looked for first. `NoMemory`: the table is as before.
    pub fn add(&mut self, slot: Slot, put: EntryRecord) -> Result<(), NoMemory>
        ensures ok { OnOk result (self.new ≡ map.insert self.old slot put) }
        ensures err { OnErr result (self.new ≡ self.old) }
    {
        self.table.insert(slot, put)?;
        Ok(())
    }

    /// Puts another record at a slot that has one, which is hashed only where it was neither the one found last nor the next.
    pub fn set(&mut self, slot: Slot, put: EntryRecord)
        requires { IsSome (map.get self.old slot) }
        ensures { self.new ≡ map.insert self.old slot put }
    {
        self.table.set(slot, put);
    }

    /// Takes the record of a slot away, which is hashed only where it was not the one found last.
    #[inline(always)]
    pub fn remove(&mut self, slot: Slot)
        ensures { self.new ≡ map.remove self.old slot }
    {
        self.table.remove(slot);
    }
}
