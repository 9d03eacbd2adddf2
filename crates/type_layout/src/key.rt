// Keys of storage homes.
ghost use Rattle.std.specs.Prelude.{◌≡◌, ◌++◌, ◌∷◌, [], OnOk, OnErr};

use crate::HomeNo;
use pss_base::{Bytes, NoMemory};
use std::alloc::Global;
use std::marker::Model;

/// A key by its place among the keys of the schema, counted from 0.
#[derive(Clone, Copy, Debug, PartialEq, Eq, Hash, Drop)]
pub struct KeyNo(pub u32);

/// Keys by their numbers, as a storage home has them.
#[derive(Drop)]
pub struct KeyNos {
    keys: Vec<KeyNo>,
}

impl Model for KeyNos {
    ghost use Rattle.std.specs.Prelude.{List};
    ghost use Rattle.type_layout.specs.declared.key.KeyNo.{KeyNo};

    ghost Value = { List KeyNo };

    ghost view = { λ l. l.keys.items };
}

impl KeyNos {
    /// None. It takes no memory.
    pub fn new(alloc: Global) -> KeyNos
        ensures { result ≡ [] }
    {
        KeyNos {
            keys: Vec::new(alloc),
        }
    }

    /// Puts one last. `NoMemory`: the list is as before.
    pub fn push(&mut self, key: KeyNo) -> Result<(), NoMemory>
        ensures ok { OnOk result (self.new ≡ self.old ++ key ∷ []) }
        ensures err { OnErr result (self.new ≡ self.old) }
    {
        self.keys.push(key)?;
        Ok(())
    }

    pub fn as_slice(&self) -> &[KeyNo]
        ensures { result.now ≡ self.now }
    {
        &self.keys
    }
}

/// Members by their numbers in a layout, counted from 0.
#[derive(Drop)]
pub struct Indexes {
    indexes: Vec<u32>,
}

impl Model for Indexes {
    ghost use Rattle.std.specs.Prelude.{List, ℕ};

    ghost Value = { List ℕ };

    ghost view = { λ l. l.indexes.items };
}

impl Indexes {
    /// None. It takes no memory.
    pub fn new(alloc: Global) -> Indexes
        ensures { result ≡ [] }
    {
        Indexes {
            indexes: Vec::new(alloc),
        }
    }

    /// Puts one last. `NoMemory`: the list is as before.
    pub fn push(&mut self, index: u32) -> Result<(), NoMemory>
        ensures ok { OnOk result (self.new ≡ self.old ++ index ∷ []) }
        ensures err { OnErr result (self.new ≡ self.old) }
    {
        self.indexes.push(index)?;
        Ok(())
    }

    pub fn as_slice(&self) -> &[u32]
        ensures { result.now ≡ self.now }
    {
        &self.indexes
    }
}

/// A key: the storage home that introduces it, and the members that it is made of, in its order.
#[derive(Drop)]
pub struct Key {
    pub name: Bytes,
    pub home: HomeNo,
    pub members: Indexes,
}

/// The keys of a schema, from number 0.
#[derive(Drop)]
pub struct KeyList {
    keys: Vec<Key>,
}

impl Model for KeyList {
    ghost use Rattle.std.specs.Prelude.{List};
    ghost use Rattle.type_layout.specs.declared.key.Key.{Key};

    ghost Value = { List Key };

    ghost view = { λ l. l.keys.items };
}

impl KeyList {
    /// None. It takes no memory.
    pub fn new(alloc: Global) -> KeyList
        ensures { result ≡ [] }
    {
        KeyList {
            keys: Vec::new(alloc),
        }
    }

    /// Puts one last. `NoMemory`: the list is as before.
    pub fn push(&mut self, key: Key) -> Result<(), NoMemory>
        ensures ok { OnOk result (self.new ≡ self.old ++ key ∷ []) }
        ensures err { OnErr result (self.new ≡ self.old) }
    {
        self.keys.push(key)?;
        Ok(())
    }

    pub fn as_slice(&self) -> &[Key]
        ensures { result.now ≡ self.now }
    {
        &self.keys
    }
}
