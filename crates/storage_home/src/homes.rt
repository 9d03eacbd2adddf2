// The objects of a store, and what is asked of them.
ghost use Rattle.std.specs.Prelude.{◌≡◌, ◌<◌, ◌^◌, ℕ, List, map, length};
ghost use Rattle.std.specs.Option.{option_map, option_to_list};
ghost use Rattle.std.specs.FinMap.{get, entries};
ghost use Rattle.type_layout.specs.declared.home.HomeNo.{HomeNo};
ghost use Rattle.pss_catalog.specs.Catalog.{object_spelling, holders, pids_where, total};
ghost use Rattle.pss_catalog.specs.Families.{bases_of};
ghost use Rattle.storage_home.specs.Kept.{AnyKept, Keeping, is_of};

use crate::counts::sum_of;
use crate::indexes::find;
use crate::parts::Parts;
use crate::rows::object_of;
use pss_catalog::Families;
use std::marker::Model;
use type_layout::{HomeNo, KeyNo};

/// The committed objects of a store: each with the octets of its record, by its serial; who holds which key; and for each
/// storage home its own objects in the order of their serials, and how many these are.
///
/// Contracts see the catalog that is kept (`IsKept`), and there always is one (`keep_a_catalog`): every clause speaks of each
/// catalog that these homes keep.
#[derive(Drop)]
pub struct Homes {
    pub(crate) parts: Parts,
}

impl Model for Homes {
    ghost use Rattle.storage_home.specs.declared.parts.Parts.{Parts};

    ghost Value = { Parts };

    ghost use Rattle.storage_home.specs.contracts.parts.Parts as parts_code;

    ghost coded = { parts_code.the_row.coded };

    ghost use Rattle.storage_home.specs.Kept.{AnyKept};

    ghost view = { λ h. h.parts };

    ghost invariant = { λ h. AnyKept h.parts };
}

impl Homes {
    /// There is a catalog that these homes keep. The function does nothing: its contract is the law.
    pub fn keep_a_catalog(&self)
        ensures { AnyKept self.now }
    {
        let _ = &self.parts;
    }

    /// The home and the octets of the object with a serial, where there is one. One near the last is not hashed.
    pub fn get(&self, serial: u64) -> Option<(HomeNo, &[u8])>
        ensures { Keeping self.now (λ S M. option_map {U = HomeNo × List ℕ} (λ found. (found.0, found.1.now)) result ≡ option_map {U = HomeNo × List ℕ} (λ object. (object.home, object_spelling S object)) (get M serial)) }
    {
        match object_of(&self.parts.rows, serial) {
            Some(object) => Some((object.home, object.bytes.as_slice())),
            None => None,
        }
    }

    /// The serial of the object that holds a key with these bytes: the only one that does, and none where none does, or
    /// where there is no such key.
    pub fn find_key(&self, key: KeyNo, bytes: &[u8]) -> Option<u64>
        ensures { Keeping self.now (λ S M. map (λ pid. pid.serial) (holders S M key bytes.now) ≡ option_to_list result) }
    {
        find(&self.parts.keys, key, bytes)
    }

    /// The sum over all objects of 16 and the length of the record in octets.
    pub fn total_bytes(&self) -> u64
        ensures { Keeping self.now (λ S M. result ≡ total S M) }
    {
        self.parts.total
    }

    /// The number of all objects. Each counts 16 and more in the sum, which is less than 2^64.
    pub fn objects(&self) -> u64
        ensures objects { Keeping self.now (λ S M. result ≡ length (entries M)) }
        ensures few { result < 2 ^ 60 }
    {
        self.parts.objects
    }

    /// The number of the objects of a home and of the homes that derive from it, 0 where the home is not there. It takes
    /// time in the number of these homes.
    pub fn count(&self, home: HomeNo) -> u64
        ensures objects { Keeping self.now (λ S M. result ≡ length (pids_where (is_of S home) M)) }
        ensures few { result < 2 ^ 60 }
    {
        sum_of(&self.parts.counts, self.parts.families.heirs(home))
    }

    /// Which homes derive from which.
    pub fn families(&self) -> &Families
        ensures { Keeping self.now (λ S M. result.now ≡ bases_of S) }
    {
        &self.parts.families
    }
}
