// The bodies of a journal.
ghost use Rattle.std.specs.Prelude.{◌≡◌, ◌++◌, ◌∷◌, [], OnOk, OnErr};

use pss_base::{Bytes, NoMemory};
use std::alloc::Global;
use std::marker::Model;

/// The bodies of records, in order.
#[derive(Drop)]
pub struct Bodies {
    bodies: Vec<Bytes>,
}

impl Model for Bodies {
    ghost use Rattle.std.specs.Prelude.{List, ℕ};

    ghost Value = { List (List ℕ) };

    ghost view = { λ b. b.bodies.items };
}

impl Bodies {
    /// No bodies. It takes no memory.
    pub fn new(alloc: Global) -> Bodies
        ensures { result ≡ [] }
    {
        Bodies {
            bodies: Vec::new(alloc),
        }
    }

    /// Adds a body at the end. Without memory the bodies are as before.
    pub fn push(&mut self, body: Bytes) -> Result<(), NoMemory>
        ensures ok { OnOk result (self.new ≡ self.old ++ body ∷ []) }
        ensures err { OnErr result (self.new ≡ self.old) }
    {
        self.bodies.push(body)?;
        Ok(())
    }

    /// The bodies.
    pub fn as_slice(&self) -> &[Bytes]
        ensures { result.now ≡ self.now }
    {
        &self.bodies
    }

    /// All of them, to be taken one by one without a copy.
    pub fn into_vec(self) -> Vec<Bytes>
        ensures { result.items ≡ self }
    {
        self.bodies
    }
}
