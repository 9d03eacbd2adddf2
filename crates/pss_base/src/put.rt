// Stored records and removals.
ghost use Rattle.std.specs.Prelude.{◌≡◌, ◌++◌, ◌∷◌, [], OnOk, OnErr};

use crate::{Bytes, NoMemory};
use std::alloc::Global;
use std::marker::Model;

/// What a change leaves in the store for an object: its record, or none.
#[derive(Drop)]
pub struct Put {
    /// The number of its storage home.
    pub home: u32,
    pub serial: u64,
    /// The octets of its record; none where the object is removed.
    pub bytes: Option<Bytes>,
}

/// Stored records and removals in an order.
#[derive(Drop)]
pub struct Puts {
    puts: Vec<Put>,
}

impl Model for Puts {
    ghost use Rattle.std.specs.Prelude.{List};
    ghost use Rattle.pss_base.specs.declared.put.Put.{Put};

    ghost Value = { List Put };

    ghost view = { λ l. l.puts.items };
}

impl Puts {
    /// None. It takes no memory.
    pub fn new(alloc: Global) -> Puts
        ensures { result ≡ [] }
    {
        Puts {
            puts: Vec::new(alloc),
        }
    }

    /// Makes room for so many more. `NoMemory`: the list is as before.
    pub fn reserve(&mut self, additional: usize) -> Result<(), NoMemory>
        ensures { self.new ≡ self.old }
    {
        self.puts.reserve(additional)?;
        Ok(())
    }

    /// Puts one last. `NoMemory`: the list is as before.
    pub fn push(&mut self, put: Put) -> Result<(), NoMemory>
        ensures ok { OnOk result (self.new ≡ self.old ++ put ∷ []) }
        ensures err { OnErr result (self.new ≡ self.old) }
    {
        self.puts.push(put)?;
        Ok(())
    }

    pub fn as_slice(&self) -> &[Put]
        ensures { result.now ≡ self.now }
    {
        &self.puts
    }

    /// The list of these, which are not copied.
    pub fn from_vec(puts: Vec<Put>) -> Puts
        ensures { result ≡ puts.items }
    {
        Puts { puts }
    }

    /// All of them, to be taken one by one without a copy.
    pub fn into_vec(self) -> Vec<Put>
        ensures { result.items ≡ self }
    {
        self.puts
    }
}
