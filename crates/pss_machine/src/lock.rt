// Locks, and what operations need.
ghost use Rattle.std.specs.Prelude.{◌≡◌, ◌++◌, ◌∷◌, [], OnOk, OnErr};

use pss_base::{Bytes, NoMemory};
use std::alloc::Global;
use std::hash::{Hash, Hasher};
use std::marker::Model;

/// What is locked.
#[derive(PartialEq, Eq, Drop)]
pub enum Resource {
    /// The object of a serial, whether or not there is one.
    Object(u64),
    /// The key of this number with these bytes, whether or not an object holds it.
    Key(u32, Bytes),
    /// Which objects the home of this number has.
    Extent(u32),
}

// The tables of locks hash each lock often, so a resource feeds few bytes.
impl Hash for Resource {
    ghost use Rattle.std.specs.Cmp.Rules.{hashing};
    ghost use Rattle.std.proofs.Common.{rules};
    ghost use Rattle.std.specs.Cmp.Lexicographic.{bytes_decides};
    ghost use Rattle.pss_machine.specs.Needs.{hashed};

    ghost hash_input = { hashed };

    ghost respects_eq = { Prim.search (hashing, rules, bytes_decides) };

    fn hash<H: Hasher>(&self, state: &mut H) {
        match self {
            Resource::Object(serial) => {
                state.write_u8(0);
                state.write_u64(*serial);
            }
            Resource::Key(key, bytes) => {
                state.write_u8(1);
                state.write_u32(*key);
                state.write(bytes.as_slice());
            }
            Resource::Extent(home) => {
                state.write_u8(2);
                state.write_u32(*home);
            }
        }
    }
}

/// How a resource is locked. Two modes go together where both are `S` or both are `M`.
#[derive(Clone, Copy, Debug, PartialEq, Eq, Hash, Drop)]
pub enum Mode {
    /// To read it.
    S,
    /// To add to it or take from it, as others may too.
    M,
    /// To change it.
    X,
}

/// A resource, and the mode in which it is needed or locked.
#[derive(PartialEq, Eq, Hash, Drop)]
pub struct Need {
    pub resource: Resource,
    pub mode: Mode,
}

/// What an operation needs.
#[derive(Drop)]
pub struct Needs {
    needs: Vec<Need>,
}

impl Model for Needs {
    ghost use Rattle.std.specs.Prelude.{List};
    ghost use Rattle.pss_machine.specs.declared.lock.Need.{Need};

    ghost Value = { List Need };

    ghost view = { λ l. l.needs.items };
}

impl Needs {
    /// None. It takes no memory.
    pub fn new(alloc: Global) -> Needs
        ensures { result ≡ [] }
    {
        Needs {
            needs: Vec::new(alloc),
        }
    }

    /// Puts one last. `NoMemory`: the list is as before.
    pub fn push(&mut self, need: Need) -> Result<(), NoMemory>
        ensures ok { OnOk result (self.new ≡ self.old ++ need ∷ []) }
        ensures err { OnErr result (self.new ≡ self.old) }
    {
        self.needs.push(need)?;
        Ok(())
    }

    pub fn as_slice(&self) -> &[Need]
        ensures { result.now ≡ self.now }
    {
        &self.needs
    }
}
