// What was committed, as an owner's view is built over it.
ghost use Rattle.std.specs.Prelude.{◌≡◌, ◌<◌, ◌^◌, length, take, IfOk};
ghost use Rattle.std.specs.FinMap.{entries};
ghost use Rattle.std.specs.Option.{option_map};
ghost use Rattle.type_layout.specs.declared.schema.Schema.{Schema};
ghost use Rattle.pss_catalog.specs.Catalog.{Catalog, IsUnique, EachObject, total};
ghost use Rattle.pss_catalog.specs.Families.{bases_of};
ghost use Rattle.pss_machine.specs.Homes.{extent};
ghost use Rattle.owner_view.specs.Seen.{Fits};
ghost use Rattle.owner_view.specs.Views.{IsHolder};
ghost use Rattle.owner_view.specs.Stored.{IsStored};

use pss_base::{NoMemory, Pids};
use pss_catalog::Families;
use type_layout::{HomeNo, KeyNo};

/// The committed objects.
pub trait Committed {
    /// Under this schema these are the objects.
    ghost shows: { Self → Schema → Catalog → Type 0 };

    /// The home and the octets of the object with a serial, where there is one.
    fn object(&self, serial: u64) -> Option<(HomeNo, &[u8])>
        ensures { (S : Schema) (M : Catalog) → shows self.now S M → IsStored S M serial (option_map (λ found. (found.0, found.1.now)) result) };

    /// The serial of the object that holds a key with these bytes, where there is one.
    fn holder(&self, key: KeyNo, bytes: &[u8]) -> Option<u64>
        ensures { (S : Schema) (M : Catalog) → shows self.now S M → IsHolder S M key bytes.now result };

    /// The number of the objects of a home and of those derived from it.
    fn number(&self, home: HomeNo) -> u64
        ensures { (S : Schema) (M : Catalog) → shows self.now S M → result ≡ length (extent S M home) };

    /// The first `n` of these by serial.
    fn first(&self, home: HomeNo, n: u32) -> Result<Pids, NoMemory>
        ensures { IfOk result (λ pids. (S : Schema) (M : Catalog) → shows self.now S M → pids ≡ take n (extent S M home)) };

    /// What all objects weigh together, each 16 and the octets of its record.
    fn total(&self) -> u64
        ensures { (S : Schema) (M : Catalog) → shows self.now S M → result ≡ total S M };

    /// Which homes derive from which.
    fn families(&self) -> &Families
        ensures { (S : Schema) (M : Catalog) → shows self.now S M → result.now ≡ bases_of S };

    /// Each object takes 16 octets at least, and the sum of all is a `u64`.
    ghost few: { (c : Self) (S : Schema) (M : Catalog) → shows c S M → length (entries M) < 2 ^ 60 };

    /// Keys are unique, and each object is a record of its home.
    ghost unique: { (c : Self) (S : Schema) (M : Catalog) → shows c S M → IsUnique S M };

    ghost fits: { (c : Self) (S : Schema) (M : Catalog) → shows c S M → EachObject M (λ serial object. Fits S object) };
}
