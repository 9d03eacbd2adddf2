// The bodies by object and view.
ghost use Rattle.std.specs.Prelude.{◌≡◌, ◌<◌, ◌^◌, IsSome, OnOk, OnErr, option_copied};
ghost use Rattle.std.specs.Option.{option_map};
ghost use Rattle.std.specs.FinMap as map;
ghost use Rattle.recent_table.specs.Maps.{IsWith};
ghost use Rattle.incarnations.specs.Records.{with_entries, with_value};

use crate::names::{BodyName, BodyPlace, BodyRecord};
use pss_base::NoMemory;
use recent_table::RecentTable;
use std::alloc::Global;
use std::marker::Model;
use table_hash::NumberHasher;
use type_layout::Record;

/// A finite map from names of bodies to bodies.
#[derive(Drop)]
pub struct BodyTable {
    table: RecentTable<BodyName, BodyRecord, NumberHasher>,
}

impl Model for BodyTable {
    ghost use Rattle.std.specs.FinMap.{FinMap, from_entries, code};
    ghost use Rattle.incarnations.specs.declared.names.BodyRecord.{BodyRecord};
    ghost use Rattle.incarnations.specs.Keys.{body_cmp};
    ghost use Rattle.incarnations.specs.Codes.{body_name_code, body_record_code};

    ghost Value = { FinMap body_cmp BodyRecord };

    ghost coded = { code body_name_code body_record_code };

    ghost view = { λ t. from_entries t.table };
}

impl BodyTable {
    pub fn new(alloc: Global) -> BodyTable
        ensures { result ≡ map.empty }
    {
        BodyTable {
            table: RecentTable::new(alloc),
        }
    }

    pub fn len(&self) -> usize
        ensures len { result ≡ map.len self.now }
        ensures small { result < 2 ^ 63 }
    {
        self.table.len()
    }

    /// Where a body stands, where there is such a body.
    pub fn place(&self, name: BodyName) -> Option<BodyPlace>
        ensures { result ≡ option_map (λ b. b.place) (map.get self.now name) }
    {
        match self.table.get(name) {
            Some(body) => Some(body.place),
            None => None,
        }
    }

    /// The value of a body, where there is such a body.
    #[inline(always)]
    pub fn value(&self, name: BodyName) -> Option<&Record>
        ensures { option_copied result ≡ option_map (λ b. b.value) (map.get self.now name) }
    {
        match self.table.get(name) {
            Some(body) => Some(&body.value),
            None => None,
        }
    }

    /// Puts a body at a name that has none, where the next one is looked for first. `NoMemory`: the table is as before.
    pub fn add(&mut self, name: BodyName, put: BodyRecord) -> Result<(), NoMemory>
        ensures ok { OnOk result (self.new ≡ map.insert self.old name put) }
        ensures err { OnErr result (self.new ≡ self.old) }
    {
        self.table.insert(name, put)?;
        Ok(())
    }

    /// A body has this many entries now. Its name is hashed only where it was neither the one found last nor
    /// the next.
    pub fn set_entries(&mut self, name: BodyName, entries: u64)
        requires { IsSome (map.get self.old name) }
        ensures { IsWith self.old self.new name (with_entries entries) }
    {
        match self.table.get_mut(name) {
            Some(body) => body.place.entries = entries,
            None => unreachable!(),
        }
    }

    /// A body has this value now. Its name is hashed only where it was neither the one found last nor the next.
    pub fn set_value(&mut self, name: BodyName, value: Record)
        requires { IsSome (map.get self.old name) }
        ensures { IsWith self.old self.new name (with_value value) }
    {
        match self.table.get_mut(name) {
            Some(body) => body.value = value,
            None => unreachable!(),
        }
    }

    /// Takes the body of a name away, which is hashed only where it was not the one found last.
    #[inline(always)]
    pub fn remove(&mut self, name: BodyName)
        ensures { self.new ≡ map.remove self.old name }
    {
        self.table.remove(name);
    }
}
