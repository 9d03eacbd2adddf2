// The identifier of an object.
ghost use Rattle.std.specs.Prelude.{◌≡◌, ◌++◌, ◌∷◌, [], OnOk, OnErr};

use crate::NoMemory;
use std::alloc::Global;
use std::marker::Model;

/// The identifier of an object (the pid of PSS 2.0, whose form is this project's own): the number of its
/// storage home, from 1, and its serial, from 1. No two objects of a store have one serial.
#[derive(Clone, Copy, Debug, PartialEq, Eq, Hash, Drop)]
pub struct Pid {
    /// The number of the storage home.
    pub home: u32,
    /// The serial of the object.
    pub serial: u64,
}

/// Identifiers in an order.
#[derive(Drop)]
pub struct Pids {
    pids: Vec<Pid>,
}

impl Model for Pids {
    ghost use Rattle.std.specs.Prelude.{List};
    ghost use Rattle.pss_base.specs.declared.pid.Pid.{Pid};

    ghost Value = { List Pid };

    ghost view = { λ l. l.pids.items };
}

impl Pids {
    /// None. It takes no memory.
    pub fn new(alloc: Global) -> Pids
        ensures { result ≡ [] }
    {
        Pids {
            pids: Vec::new(alloc),
        }
    }

    /// Puts one last. `NoMemory`: the list is as before.
    pub fn push(&mut self, pid: Pid) -> Result<(), NoMemory>
        ensures ok { OnOk result (self.new ≡ self.old ++ pid ∷ []) }
        ensures err { OnErr result (self.new ≡ self.old) }
    {
        self.pids.push(pid)?;
        Ok(())
    }

    pub fn as_slice(&self) -> &[Pid]
        ensures { result.now ≡ self.now }
    {
        &self.pids
    }
}
