// The numbers of entries by session and object.
ghost use Rattle.std.specs.Prelude.{◌≡◌, OnOk, OnErr};
ghost use Rattle.std.specs.FinMap as map;

use crate::names::ObjectName;
use indexmap::IndexMap;
use pss_base::NoMemory;
use std::alloc::Global;
use std::hash::BuildHasherDefault;
use std::marker::Model;
use table_hash::NumberHasher;

/// A finite map from objects in sessions to numbers of entries.
#[derive(Drop)]
pub struct ObjectTable {
    table: IndexMap<ObjectName, u32, BuildHasherDefault<NumberHasher>>,
}

impl Model for ObjectTable {
    ghost use Rattle.std.specs.FinMap.{FinMap, from_entries, code};
    ghost use Rattle.incarnations.specs.Keys.{object_cmp};
    ghost use Rattle.std.specs.Prelude.{ℕ};
    ghost use Rattle.std.specs.Coded.{coded_ℕ};
    ghost use Rattle.incarnations.specs.Codes.{object_code};

    ghost Value = { FinMap object_cmp ℕ };

    ghost coded = { code object_code coded_ℕ };

    ghost view = { λ t. from_entries t.table.entries };
}

impl ObjectTable {
    pub fn new(alloc: Global) -> ObjectTable
        ensures { result ≡ map.empty }
    {
        ObjectTable {
            table: IndexMap::with_hasher(alloc, BuildHasherDefault::new()),
        }
    }

    pub fn get(&self, object: ObjectName) -> Option<u32>
        ensures { result ≡ map.get self.now object }
    {
        self.table.get(&object).copied()
    }

    /// Puts a number at an object that has none. `NoMemory`: the table is as before.
    pub fn add(&mut self, object: ObjectName, put: u32) -> Result<(), NoMemory>
        ensures ok { OnOk result (self.new ≡ map.insert self.old object put) }
        ensures err { OnErr result (self.new ≡ self.old) }
    {
        self.table.insert(object, put)?;
        Ok(())
    }

    #[inline(always)]
    pub fn remove(&mut self, object: ObjectName)
        ensures { self.new ≡ map.remove self.old object }
    {
        let _ = self.table.swap_remove(&object);
    }
}
