// What a commit makes of the objects.
ghost use Rattle.std.specs.Prelude.{List, ◌∷◌, false};
ghost use Rattle.std.specs.FinMap.{insert, remove};
ghost use Rattle.type_layout.specs.declared.schema.Schema.{Schema};
ghost use Rattle.pss_catalog.specs.Catalog.{Catalog};
ghost use Rattle.pss_catalog.specs.Changes.{over};
ghost use Rattle.storage_home.specs.declared.change.Change.{Change as Changed};
ghost use Rattle.storage_home.specs.Kept.{IsKept};
ghost use Rattle.storage_home.specs.Indexes.{KeepsKeysReserved, TurnsKeysReserved};
ghost use Rattle.storage_home.specs.Applied.{MayApply, AllStay};
ghost use Rattle.storage_home.specs.inner.Steps.{MayTake, MayPutObject, OthersStay, MayTakeAll, AnyTakeAll, MayPutAll, AnyPutAll};

use crate::change::{Change, Changes};
use crate::counts::{lower, raise};
use crate::extents::{hold_in, release_in};
use crate::homes::Homes;
use crate::indexes::{put_all, take_all};
use crate::parts::Parts;
use crate::rows::{Stored, is_reserved, object_of, put, take};
use pss_base::{Bytes, OBJECT_WEIGHT, Put};
use type_layout::{HomeNo, KeyNo};

impl Homes {
    /// Makes changes for which all is reserved. It takes no memory, and time in the changes.
    ///
    /// The changes tell the keys that each object held before and holds afterwards. They leave keys unique, and the sum over
    /// the objects of 16 and the length of the record at most 2^64 - 1.
    ///
    /// A new record that comes alone takes the place of the one that its object had. Of several changes all that changes is
    /// taken out first, and then the new records are put: so a key may go from one object to another, and the sum of the
    /// octets is never above that of all objects before or after.
    pub fn apply_reserved(&mut self, changes: Changes)
        requires { MayApply self.old changes }
        ensures { (m : MayApply self.old changes) → IsKept m.schema (over m.catalog m.steps) self.new }
    {
        let changes = changes.into_vec();
        if self.parts.replaces_one(&changes) {
            self.parts.replace_one(changes);
        } else {
            self.parts.take_changed(&changes);
            self.parts.put_changed(changes);
        }
    }
}

impl Parts {
    fn take_changed(&mut self, changes: &[Change])
        requires { AnyTakeAll self.old changes.now }
        ensures kept { (S : Schema) (F : Catalog) → MayTakeAll S F self.old changes.now → IsKept S F self.new }
        ensures reserved { AllStay self.old self.new }
        ensures keys { KeepsKeysReserved self.old.keys self.new.keys }
    {
        for change in changes {
            self.take_object(change.put.serial, change.old_keys.as_slice());
        }
    }

    fn put_changed(&mut self, changes: Vec<Change>)
        requires { AnyPutAll self.old changes.items }
        ensures { (S : Schema) (F : Catalog) → MayPutAll S F self.old changes.items → IsKept S F self.new }
    {
        for change in changes {
            self.put_change(change);
        }
    }

    fn put_change(&mut self, change: Change)
        requires { (rest : List Changed) × AnyPutAll self.old (change ∷ rest) }
        ensures { (rest : List Changed) (S : Schema) (F : Catalog) → MayPutAll S F self.old (change ∷ rest) → MayPutAll S F self.new rest }
    {
        let Change { put, new_keys, .. } = change;
        let Put {
            home,
            serial,
            bytes,
        } = put;
        if let Some(bytes) = bytes {
            let object = Stored {
                home: HomeNo(home),
                bytes,
            };
            self.put_object(serial, object, new_keys.as_slice());
        }
    }

    fn take_object(&mut self, serial: u64, keys: &[(KeyNo, Bytes)])
        requires { MayTake self.old serial keys.now }
        ensures kept { (m : MayTake self.old serial keys.now) → IsKept m.schema (remove m.catalog serial) self.new }
        ensures reserved { AllStay self.old self.new }
        ensures keys { KeepsKeysReserved self.old.keys self.new.keys }
    {
        let Some(object) = object_of(&self.rows, serial) else {
            return;
        };
        let home = object.home;
        self.total -= OBJECT_WEIGHT + object.bytes.as_slice().len() as u64;
        self.objects -= 1;
        lower(&mut self.counts, home);
        let stays = is_reserved(&self.rows, serial);
        release_in(&mut self.extents, home, serial, stays);
        take(&mut self.rows, serial, stays);
        take_all(&mut self.keys, keys);
    }

    #[inline(always)]
    pub(crate) fn put_object(&mut self, serial: u64, object: Stored, keys: &[(KeyNo, Bytes)])
        requires { MayPutObject self.old serial object keys.now }
        ensures kept { (m : MayPutObject self.old serial object keys.now) → IsKept m.schema (insert m.catalog serial m.object) self.new }
        ensures reserved { OthersStay self.old self.new serial }
        ensures keys { TurnsKeysReserved self.old.keys self.new.keys keys.now false }
    {
        let home = object.home;
        self.total += OBJECT_WEIGHT + object.bytes.as_slice().len() as u64;
        self.objects += 1;
        raise(&mut self.counts, home);
        hold_in(&mut self.extents, home, serial);
        put(&mut self.rows, serial, object);
        put_all(&mut self.keys, keys, serial);
    }
}
