// A commit of one new record in the place of the one that its object had, as a set and its flush make it. The object stays in
// its home, so that its serial and its counts stay where they are.
ghost use Rattle.std.specs.Prelude.{◌≡◌, true};
ghost use Rattle.std.specs.FinMap.{insert};
ghost use Rattle.pss_catalog.specs.Changes.{over};
ghost use Rattle.storage_home.specs.Kept.{IsKept};
ghost use Rattle.storage_home.specs.Applied.{MayApply};
ghost use Rattle.storage_home.specs.inner.Replacements.{Replaces, ReplacesOne, MayReplace, alone};

use crate::change::Change;
use crate::indexes::{put_all, take_all};
use crate::parts::Parts;
use crate::rows::{Stored, object_of, put};
use pss_base::{Bytes, Put};
use type_layout::{HomeNo, KeyNo};

impl Parts {
    /// Whether one change stands alone, and puts a new record of an object that is there.
    pub(crate) fn replaces_one(&self, changes: &[Change]) -> bool
        ensures { result ≡ true → ReplacesOne self.now changes.now }
    {
        match changes {
            [change] => self.replaces(&change.put),
            _ => false,
        }
    }

    fn replaces(&self, put: &Put) -> bool
        ensures { result ≡ true → Replaces self.now put.now }
    {
        match object_of(&self.rows, put.serial) {
            Some(object) => object.home.0 == put.home && put.bytes.is_some(),
            None => false,
        }
    }

    /// Makes the one change.
    pub(crate) fn replace_one(&mut self, mut changes: Vec<Change>)
        requires may { MayApply self.old changes.items }
        requires one { ReplacesOne self.old changes.items }
        ensures { (m : MayApply self.old changes.items) → IsKept m.schema (over m.catalog m.steps) self.new }
    {
        if let Some(change) = changes.pop() {
            self.replace(change);
        }
    }

    fn replace(&mut self, change: Change)
        requires may { MayApply self.old (alone change) }
        requires replaces { Replaces self.old change.put }
        ensures { (m : MayApply self.old (alone change)) → IsKept m.schema (over m.catalog m.steps) self.new }
    {
        let Change {
            put,
            old_keys,
            new_keys,
        } = change;
        let Put {
            home,
            serial,
            bytes,
        } = put;
        if let Some(bytes) = bytes {
            let object = Stored {
                home: HomeNo(home),
                bytes,
            };
            self.replace_object(serial, object, old_keys.as_slice(), new_keys.as_slice());
        }
    }

    fn replace_object(
        &mut self,
        serial: u64,
        object: Stored,
        old_keys: &[(KeyNo, Bytes)],
        new_keys: &[(KeyNo, Bytes)],
    )
        requires { MayReplace self.old serial object old_keys.now new_keys.now }
        ensures { (m : MayReplace self.old serial object old_keys.now new_keys.now) → IsKept m.schema (insert m.catalog serial m.object) self.new }
    {
        let Some(old) = object_of(&self.rows, serial) else {
            return;
        };
        self.total -= old.bytes.as_slice().len() as u64;
        self.total += object.bytes.as_slice().len() as u64;
        put(&mut self.rows, serial, object);
        take_all(&mut self.keys, old_keys);
        put_all(&mut self.keys, new_keys, serial);
    }
}
