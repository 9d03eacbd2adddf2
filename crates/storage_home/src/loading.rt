// The objects that a store was found with.
ghost use Rattle.std.specs.Prelude.{◌≡◌, ◌∷◌, ℕ, List, Some, false, length, IfOk, OnOk};
ghost use Rattle.std.specs.FinMap.{empty, insert};
ghost use Rattle.pss_base.specs.declared.put.Put.{Put as Row};
ghost use Rattle.type_layout.specs.Sound.{IsSoundSchema};
ghost use Rattle.pss_catalog.specs.Catalog.{Catalog};
ghost use Rattle.pss_catalog.specs.Changes.{over};
ghost use Rattle.storage_home.specs.Kept.{IsKept};
ghost use Rattle.storage_home.specs.Applied.{MayLoad};
ghost use Rattle.storage_home.specs.inner.Steps.{MayLoadAll, AnyLoadAll, MayLoadOne};
ghost use Rattle.storage_home.specs.Extents.{is_held_in};

use crate::extents::Extent;
use crate::homes::Homes;
use crate::indexes::KeyIndexes;
use crate::keys::keys_of_octets;
use crate::parts::Parts;
use crate::rows::{self, Stored};
use pss_base::{Bytes, NoMemory, Put, Puts};
use pss_catalog::Families;
use std::alloc::Global;
use std::collections::BTreeMap;
use type_layout::{Home, HomeNo, KeyNo, Schema};

impl Homes {
    /// The objects of these rows, in any order. Each row has a record of the layout of a home of the schema; no two
    /// have one serial, and no key is held twice; and the sum over them of 16 and the length of the record is at most
    /// 2^64 - 1. It takes time in the octets, once for all keys of a row's home, and in the bytes of these keys.
    ///
    /// `NoMemory`: there was no room for the homes, and the rows are gone.
    pub fn from_rows(alloc: Global, schema: &Schema, rows: Puts) -> Result<Homes, NoMemory>
        requires sound { IsSoundSchema schema.now }
        requires rows { MayLoad schema.now rows }
        ensures { IfOk result (λ homes. (m : MayLoad schema.now rows) → IsKept schema.now (over empty m.steps) homes) }
    {
        let mut parts = none(alloc, schema)?;
        parts.load_all(schema, rows.into_vec())?;
        Ok(Homes { parts })
    }
}

impl Parts {
    fn load_all(&mut self, schema: &Schema, rows: Vec<Put>) -> Result<(), NoMemory>
        requires { AnyLoadAll schema.now self.old rows.items }
        ensures { OnOk result ((F : Catalog) → MayLoadAll schema.now F self.old rows.items → IsKept schema.now F self.new) }
    {
        for row in rows {
            self.load(schema, row)?;
        }
        Ok(())
    }

    fn load(&mut self, schema: &Schema, row: Put) -> Result<(), NoMemory>
        requires { (rest : List Row) × AnyLoadAll schema.now self.old (row ∷ rest) }
        ensures { OnOk result ((rest : List Row) (F : Catalog) → MayLoadAll schema.now F self.old (row ∷ rest) → MayLoadAll schema.now F self.new rest) }
    {
        let Put {
            home,
            serial,
            bytes,
        } = row;
        match bytes {
            Some(bytes) => self.load_object(
                schema,
                serial,
                Stored {
                    home: HomeNo(home),
                    bytes,
                },
            ),
            None => Ok(()),
        }
    }

    fn load_object(&mut self, schema: &Schema, serial: u64, object: Stored) -> Result<(), NoMemory>
        requires { MayLoadOne schema.now self.old serial object }
        ensures { OnOk result ((m : MayLoadOne schema.now self.old serial object) → IsKept schema.now (insert m.catalog serial m.object) self.new) }
    {
        let keys = keys_of_octets(self.alloc, schema, object.home, object.bytes.as_slice())?;
        self.reserve_serial(object.home, serial)?;
        self.reserve_keys(keys.as_slice())?;
        self.put_object(serial, object, keys.as_slice());
        Ok(())
    }
}

// No object at all.
fn none(alloc: Global, schema: &Schema) -> Result<Parts, NoMemory>
    requires { IsSoundSchema schema.now }
    ensures { IfOk result (λ parts. IsKept schema.now empty parts) }
{
    let families = Families::new(alloc, schema)?;
    let homes = schema.homes.as_slice();
    Ok(Parts {
        alloc,
        families,
        rows: rows::empty(alloc),
        total: 0,
        objects: 0,
        extents: no_extents(alloc, homes.len())?,
        counts: vec![in alloc; 0; homes.len()]?,
        keys: KeyIndexes::new(alloc),
    })
}

fn no_extents(alloc: Global, count: usize) -> Result<Vec<Extent>, NoMemory>
    ensures size { IfOk result (λ extents. length extents.items ≡ count) }
    ensures empty { IfOk result (λ extents. (home serial : ℕ) → is_held_in extents.items home serial ≡ false) }
{
    let mut extents = Vec::with_capacity(alloc, count)?;
    for _ in 0..count {
        extents.push(BTreeMap::new(alloc))?;
    }
    Ok(extents)
}
