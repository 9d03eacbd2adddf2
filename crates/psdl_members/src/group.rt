// At most 64 entries, of which each has a bit.
ghost use Rattle.std.specs.Prelude.{◌≡◌, ◌<◌, ◌≤◌, ◌++◌, ◌∷◌, [], ℕ, true, length, OnOk};
ghost use Rattle.psdl_lineage.specs.Descent.{has};
ghost use Rattle.psdl_members.specs.inner.Rowed.{Entries};
ghost use Rattle.psdl_members.specs.inner.Seeing.{IsGroup, IsSeen};

use crate::entry::Entry;
use crate::masks::{add_bit, mask_at};
use crate::seen::Seen;
use pss_base::NoMemory;
use std::alloc::Global;

/// For each name a mask of the entries that have it, and for each list a mask of those that have it.
#[derive(Drop)]
pub(crate) struct Group {
    pub names: Vec<u64>,
    pub lists: Vec<u64>,
    /// The names that entries have.
    pub heads: Vec<usize>,
}

fn add_head(heads: &mut Vec<usize>, mask: u64, name: usize) -> Result<(), NoMemory>
    ensures head { OnOk result (mask ≡ 0 → has heads.new.items name ≡ true) }
    ensures kept { OnOk result ((n : ℕ) → has heads.old.items n ≡ true → has heads.new.items n ≡ true) }
{
    if mask == 0 {
        heads.push(name)?;
    }
    Ok(())
}

impl Group {
    /// No entry.
    pub(crate) fn new(alloc: Global) -> Group {
        Group {
            names: Vec::new(alloc),
            lists: Vec::new(alloc),
            heads: Vec::new(alloc),
        }
    }

    fn clear(&mut self)
        ensures { IsGroup self.new [] }
    {
        self.names.fill(0);
        self.lists.fill(0);
        self.heads.clear();
    }

    fn add(&mut self, entry: Entry, bit: usize) -> Result<(), NoMemory>
        requires { bit < 64 }
        ensures { OnOk result ((es : Entries) → length es ≡ bit → IsGroup self.old es → IsGroup self.new (es ++ entry ∷ [])) }
    {
        add_head(
            &mut self.heads,
            mask_at(&self.names, entry.name),
            entry.name,
        )?;
        add_bit(&mut self.names, entry.name, bit)?;
        add_bit(&mut self.lists, entry.list, bit)?;
        Ok(())
    }

    /// These entries, in their order, and no others.
    pub(crate) fn put(&mut self, entries: &[Entry]) -> Result<(), NoMemory>
        requires { length entries.now ≤ 64 }
        ensures { OnOk result (IsGroup self.new entries.now) }
    {
        self.clear();
        for index in 0..entries.len() {
            self.add(entries[index], index)?;
        }
        Ok(())
    }

    /// Which entries of the group an entry is, and with which it clashes.
    pub(crate) fn seen(&self, entry: Entry) -> Seen
        ensures { (es : Entries) → IsGroup self.now es → IsSeen result es (λ test. test entry) }
    {
        let named = mask_at(&self.names, entry.name);
        let listed = mask_at(&self.lists, entry.list);
        Seen {
            same: named & listed,
            other: named & !listed,
        }
    }
}
