// Keys and their serials, with reservations.
ghost use Rattle.std.specs.Prelude.{◌≡◌, None, OnOk, OnErr, true};
ghost use Rattle.std.specs.FinMap as map;
ghost use Rattle.std.specs.FinSet as set;

use crate::slots::{Slot, Slots, add, empty, find, remove, write};
use pss_base::NoMemory;
use std::alloc::Global;
use std::marker::Model;

/// A finite map from keys to serials, and a finite set of reserved keys. A key may be in both.
///
/// A reserved key has an entry in the table, so that putting it takes no memory.
#[derive(Drop)]
pub struct KeyIndex {
    alloc: Global,
    slots: Slots,
}

impl Model for KeyIndex {
    ghost use Rattle.key_index.specs.Index.{Index, index_code};

    ghost Value = { Index };

    ghost coded = { index_code };

    ghost use Rattle.key_index.specs.Slots.{slots_of, held_of, reserved_of};

    ghost view = { λ k. record { held = held_of (slots_of k.slots); reserved = reserved_of (slots_of k.slots) } };
}

impl KeyIndex {
    /// An index in which no key is held and none reserved. It takes no memory.
    pub fn new(alloc: Global) -> KeyIndex
        ensures held { result.held ≡ map.empty }
        ensures reserved { result.reserved ≡ set.empty }
    {
        KeyIndex {
            alloc,
            slots: empty(alloc),
        }
    }

    /// The serial that a key is held with, or none where it is not held, though it may be reserved.
    pub fn find(&self, key: &[u8]) -> Option<u64>
        ensures { result ≡ map.get self.now.held key.now }
    {
        match find(&self.slots, key) {
            Some(slot) => slot.serial(),
            None => None,
        }
    }

    /// Reserves a key. It may be held, and stays so, or reserved already.
    ///
    /// `NoMemory`: the keys that are held and those that are reserved are as before.
    pub fn reserve(&mut self, key: &[u8]) -> Result<(), NoMemory>
        ensures held { self.new.held ≡ self.old.held }
        ensures ok { OnOk result (self.new.reserved ≡ set.insert self.old.reserved key.now) }
        ensures err { OnErr result (self.new.reserved ≡ self.old.reserved) }
    {
        match add(self.alloc, &mut self.slots, key, Slot::Reserved)? {
            Some(slot) => {
                write(&mut self.slots, key, slot.and_reserved());
                Ok(())
            }
            None => Ok(()),
        }
    }

    /// Puts a reserved key that is not held, and ends its reservation. It takes no memory.
    pub fn put_reserved(&mut self, key: &[u8], serial: u64)
        requires reserved { set.contains self.old.reserved key.now ≡ true }
        requires free { map.get self.old.held key.now ≡ None }
        ensures held { self.new.held ≡ map.insert self.old.held key.now serial }
        ensures reserved { self.new.reserved ≡ set.remove self.old.reserved key.now }
    {
        write(&mut self.slots, key, Slot::Held(serial));
    }

    /// Takes a key that is held out, and answers its serial, or none where it is not held. A
    /// reserved key stays reserved. It takes no memory.
    pub fn take(&mut self, key: &[u8]) -> Option<u64>
        ensures value { result ≡ map.get self.old.held key.now }
        ensures held { self.new.held ≡ map.remove self.old.held key.now }
        ensures reserved { self.new.reserved ≡ self.old.reserved }
    {
        match find(&self.slots, key) {
            Some(slot) => {
                let serial = slot.serial();
                if slot.is_reserved() {
                    write(&mut self.slots, key, Slot::Reserved);
                } else {
                    remove(&mut self.slots, key);
                }
                serial
            }
            None => None,
        }
    }
}
