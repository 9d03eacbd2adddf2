// What an owner changed, and who holds which keys among the changed objects.
ghost use Rattle.std.specs.Prelude.{◌≡◌, ◌<◌, ◌^◌, [], ◌∷◌, None, nat_eq, length, IfOk, IfSome, OnOk, IsSome};
ghost use Rattle.std.specs.FinMap as map;
ghost use Rattle.std.specs.List.{IsDistinct};
ghost use Rattle.std.specs.Map.{keys_of};
ghost use Rattle.owner_view.specs.States.{slot_at, slot_state, told_state, with_told, IsSlot, AreInOrder, AreValued};
ghost use Rattle.storage_home.specs.Indexes.{KeyIndexes as Table, found_at, MayPut, KeepsFound, TurnsFound, KeepsKeysReserved};
ghost use Rattle.type_layout.specs.declared.schema.Schema.{Schema};
ghost use Rattle.owner_view.specs.Sized.{IsSlotSized, AreSized, IsToldSized};
ghost use Rattle.owner_view.specs.Overlay.{changes_in, indexes_in, slots_in, IsReady, FoundAfter};

use crate::states::{self, Slot, States, Told, told_at};
use pss_base::{Bytes, NoMemory, Pid};
use std::alloc::Global;
use storage_home::indexes::{self, KeyIndexes};
use type_layout::KeyNo;

// The most indexes whose places stay when all are taken away.
const MOST_INDEXES: usize = 64;

/// An owner's changes by serial, and an index for each key that was reserved for them.
#[derive(Drop)]
pub struct Overlay {
    alloc: Global,
    states: States,
    indexes: KeyIndexes,
}

impl Overlay {
    /// No changes. It takes no memory.
    pub fn new(alloc: Global) -> Overlay
        ensures slots { slots_in result ≡ [] }
        ensures indexes { indexes_in result ≡ [] }
    {
        Overlay {
            alloc,
            states: States::new(alloc),
            indexes: KeyIndexes::new(alloc),
        }
    }

    /// Takes all changes away. It takes no memory, and may keep a little for the changes that come next.
    pub fn clear(&mut self)
        ensures slots { slots_in self.new ≡ [] }
        ensures indexes { indexes_in self.new ≡ [] }
    {
        states::clear(&mut self.states, self.alloc);
        self.indexes.clear(self.alloc, MOST_INDEXES);
    }

    /// The serial of the only state, or of the only one that is reserved.
    pub fn only(&self) -> Option<u64>
        ensures { IfSome result (λ serial. AreInOrder self.now.states (serial ∷ [])) }
    {
        states::only(&self.states)
    }

    /// The serials of the states in their order, with those that are only reserved.
    pub fn in_order(&self) -> Result<Vec<u64>, NoMemory>
        ensures { IfOk result (λ serials. AreInOrder self.now.states serials.items) }
    {
        states::in_order(self.alloc, &self.states)
    }

    /// The pids of the objects that have a value, each once, in no stated order.
    pub fn pids(&self) -> Result<Vec<Pid>, NoMemory>
        ensures { IfOk result (λ pids. AreValued (changes_in self.now) pids.items) }
    {
        states::pids(self.alloc, &self.states)
    }

    /// How many serials have a state, with those that are only reserved.
    pub fn count(&self) -> usize
        ensures count { result ≡ length self.now.states }
        ensures few { result < 2 ^ 63 }
        ensures apart { IsDistinct nat_eq (keys_of self.now.states) }
    {
        self.states.len()
    }

    /// One of these serials by its place, and what was made of its object.
    pub fn slot_in(&self, place: usize) -> (u64, Told<'_>)
        requires { place < length self.now.states }
        ensures slot { IsSlot (slots_in self.now) place result.0 (told_state result.1) }
        ensures sized { (S : Schema) → AreSized S (slots_in self.now) → IsToldSized S result.1 }
    {
        states::slot_in(&self.states, place)
    }

    /// What was made of the object with a serial.
    pub fn told(&self, serial: u64) -> Told<'_>
        ensures { told_state result ≡ map.get (changes_in self.now) serial }
    {
        told_at(&self.states, serial)
    }

    /// The serial of the changed object that holds a key with these bytes, where one does.
    pub fn holder(&self, key: KeyNo, bytes: &[u8]) -> Option<u64>
        ensures { result ≡ found_at (indexes_in self.now) key.0 bytes.now }
    {
        indexes::find(&self.indexes, key, bytes)
    }

    /// Sees to it that a state may be put at a serial, with these keys, without memory. Nothing that is
    /// told changes.
    pub fn reserve(&mut self, serial: u64, pairs: &[(KeyNo, Bytes)]) -> Result<(), NoMemory>
        ensures changes { changes_in self.new ≡ changes_in self.old }
        ensures sized { (S : Schema) → AreSized S (slots_in self.old) → AreSized S (slots_in self.new) }
        ensures found { KeepsFound (indexes_in self.old) (indexes_in self.new) }
        ensures ok { OnOk result (IsReady serial pairs.now self.new) }
    {
        states::reserve(&mut self.states, serial)?;
        indexes::reserve_all(self.alloc, &mut self.indexes, pairs)
    }

    /// Puts a state at a serial, and tells whether one stood there. The keys that its object had go, and those that it has
    /// come. It takes no memory.
    pub fn put_reserved(
        &mut self,
        serial: u64,
        slot: Slot,
        had: &[(KeyNo, Bytes)],
        has: &[(KeyNo, Bytes)],
    ) -> bool
        requires there { IsSome (slot_at serial self.old.states) }
        requires has { (between : Table) → TurnsFound (indexes_in self.old) between had.now None → KeepsKeysReserved (indexes_in self.old) between → MayPut between has.now }
        ensures before { result ≡ map.contains_key (changes_in self.old) serial }
        ensures changes { changes_in self.new ≡ with_told (slot_state slot) serial (changes_in self.old) }
        ensures sized { (S : Schema) → AreSized S (slots_in self.old) → IsSlotSized S (Some slot) → AreSized S (slots_in self.new) }
        ensures found { FoundAfter (indexes_in self.old) (indexes_in self.new) serial had.now has.now }
    {
        let before = states::put(&mut self.states, serial, slot);
        indexes::take_all(&mut self.indexes, had);
        indexes::put_all(&mut self.indexes, has, serial);
        before
    }
}
