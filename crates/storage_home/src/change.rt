// What a commit makes of objects, and of the keys that they hold.
ghost use Rattle.std.specs.Prelude.{◌≡◌, ◌≤◌, ◌++◌, ◌∷◌, [], IfOk, OnOk, OnErr};
ghost use Rattle.storage_home.specs.Changes.{Rises, least_next};

use pss_base::{Bytes, NoMemory, Put};
use std::alloc::Global;
use std::marker::Model;
use type_layout::KeyNo;

/// Keys by their numbers, each with its bytes.
#[derive(Drop)]
pub struct KeyValues {
    pairs: Vec<(KeyNo, Bytes)>,
}

impl Model for KeyValues {
    ghost use Rattle.std.specs.Prelude.{List, ℕ};
    ghost use Rattle.type_layout.specs.declared.key.KeyNo.{KeyNo};

    ghost Value = { List (KeyNo × List ℕ) };

    ghost view = { λ l. l.pairs.items };
}

impl KeyValues {
    /// None. It takes no memory.
    pub fn new(alloc: Global) -> KeyValues
        ensures { result ≡ [] }
    {
        KeyValues {
            pairs: Vec::new(alloc),
        }
    }

    /// The list of these pairs, which are not copied.
    pub fn from_vec(pairs: Vec<(KeyNo, Bytes)>) -> KeyValues
        ensures { result ≡ pairs.items }
    {
        KeyValues { pairs }
    }

    /// Puts one last. `NoMemory`: the list is as before.
    pub fn push(&mut self, pair: (KeyNo, Bytes)) -> Result<(), NoMemory>
        ensures ok { OnOk result (self.new ≡ self.old ++ pair ∷ []) }
        ensures err { OnErr result (self.new ≡ self.old) }
    {
        self.pairs.push(pair)?;
        Ok(())
    }

    pub fn as_slice(&self) -> &[(KeyNo, Bytes)]
        ensures { result.now ≡ self.now }
    {
        &self.pairs
    }

    /// All of them, without a copy.
    pub fn into_vec(self) -> Vec<(KeyNo, Bytes)>
        ensures { result.items ≡ self }
    {
        self.pairs
    }
}

/// What a commit leaves of one object, and what its keys were and are.
#[derive(Drop)]
pub struct Change {
    pub put: Put,
    /// The keys of the object as it was, none where there was none.
    pub old_keys: KeyValues,
    /// The keys of its new record, none where it is removed.
    pub new_keys: KeyValues,
}

/// The changes of a commit, by rising serials.
#[derive(Drop)]
pub struct Changes {
    changes: Vec<Change>,
}

impl Model for Changes {
    ghost use Rattle.std.specs.Prelude.{List};
    ghost use Rattle.storage_home.specs.declared.change.Change.{Change};

    ghost Value = { List Change };

    ghost use Rattle.storage_home.specs.Changes.{Rises};

    ghost view = { λ l. l.changes.items };

    ghost invariant = { λ l. Rises 0 l.changes.items };
}

impl Changes {
    /// None. It takes no memory.
    pub fn new(alloc: Global) -> Changes
        ensures { result ≡ [] }
    {
        Changes {
            changes: Vec::new(alloc),
        }
    }

    /// None, to which so many are to be added. `NoMemory`: there was no room for them.
    pub fn with_room(alloc: Global, count: usize) -> Result<Changes, NoMemory>
        ensures { IfOk result (λ changes. changes ≡ []) }
    {
        let changes = Vec::with_capacity(alloc, count)?;
        Ok(Changes { changes })
    }

    /// Puts one last. `NoMemory`: the list is as before.
    pub fn push(&mut self, change: Change) -> Result<(), NoMemory>
        requires { least_next 0 self.old ≤ change.put.serial }
        ensures ok { OnOk result (self.new ≡ self.old ++ change ∷ []) }
        ensures err { OnErr result (self.new ≡ self.old) }
    {
        self.changes.push(change)?;
        Ok(())
    }

    pub fn as_slice(&self) -> &[Change]
        ensures items { result.now ≡ self.now }
        ensures rising { Rises 0 self.now }
    {
        &self.changes
    }

    /// All of them, to be taken one by one without a copy.
    pub fn into_vec(self) -> Vec<Change>
        ensures items { result.items ≡ self }
        ensures rising { Rises 0 self }
    {
        self.changes
    }
}
