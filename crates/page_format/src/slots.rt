// The slots of pages.
ghost use Rattle.std.specs.Prelude.{◌≡◌, ◌++◌, ◌∷◌, [], IfOk, OnOk, OnErr};

use pss_base::NoMemory;
use std::alloc::Global;
use std::marker::Model;

/// The slots of pages, in order.
#[derive(Drop)]
pub struct Slots {
    slots: Vec<u32>,
}

impl Model for Slots {
    ghost use Rattle.std.specs.Prelude.{List, ℕ};

    ghost Value = { List ℕ };

    ghost view = { λ s. s.slots.items };
}

impl Slots {
    /// None. It takes no memory.
    pub fn new(alloc: Global) -> Slots
        ensures { result ≡ [] }
    {
        Slots {
            slots: Vec::new(alloc),
        }
    }

    /// None, to which so many are to be added. `NoMemory`: there was no room for them.
    pub fn with_room(alloc: Global, len: usize) -> Result<Slots, NoMemory>
        ensures { IfOk result (λ slots. slots ≡ []) }
    {
        Ok(Slots {
            slots: Vec::with_capacity(alloc, len)?,
        })
    }

    /// Puts one last. Without memory the slots are as before.
    pub fn push(&mut self, slot: u32) -> Result<(), NoMemory>
        ensures ok { OnOk result (self.new ≡ self.old ++ slot ∷ []) }
        ensures err { OnErr result (self.new ≡ self.old) }
    {
        self.slots.push(slot)?;
        Ok(())
    }

    /// The same slots once more. `NoMemory`: there was no room for the copy.
    pub fn copy(&self) -> Result<Slots, NoMemory>
        ensures { IfOk result (λ copy. copy ≡ self.now) }
    {
        Ok(Slots {
            slots: self.slots.to_vec(*self.slots.allocator())?,
        })
    }

    pub fn as_slice(&self) -> &[u32]
        ensures { result.now ≡ self.now }
    {
        &self.slots
    }
}
