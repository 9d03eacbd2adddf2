// The homes of a store are what owners' views are built over.
ghost use Rattle.storage_home.specs.Kept.{IsKept};
ghost use Rattle.owner_view.specs.Homes.{unique_shown, fits_shown, few_shown};

use crate::committed::Committed;
use pss_base::{NoMemory, Pids};
use pss_catalog::Families;
use storage_home::Homes;
use type_layout::{HomeNo, KeyNo};

impl Committed for Homes {
    ghost shows = { λ homes S M. IsKept S M homes };

    fn object(&self, serial: u64) -> Option<(HomeNo, &[u8])> {
        self.get(serial)
    }

    fn holder(&self, key: KeyNo, bytes: &[u8]) -> Option<u64> {
        self.find_key(key, bytes)
    }

    fn number(&self, home: HomeNo) -> u64 {
        self.count(home)
    }

    fn first(&self, home: HomeNo, n: u32) -> Result<Pids, NoMemory> {
        Homes::first(self, home, n)
    }

    fn total(&self) -> u64 {
        self.total_bytes()
    }

    fn families(&self) -> &Families {
        Homes::families(self)
    }

    ghost unique = { unique_shown };

    ghost fits = { fits_shown };

    ghost few = { few_shown };
}
