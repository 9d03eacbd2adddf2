// Objects as pages have them.
ghost use Rattle.std.specs.Prelude.{◌≡◌, IfSome, length};
ghost use Rattle.page_format.specs.Objects.{entries_left};
ghost use Rattle.page_format.specs.Packing.{AreInARow, used_by};
ghost use Rattle.page_format.specs.Written.{entries_octets};

use pss_base::Put;
use std::marker::Model;

/// Entries in an order: the objects that changes leave. They stand where the changes do, and are not copied.
/// They know how many octets they use, and, where their serials are known to stand in a row, the first one.
#[derive(Drop)]
pub struct Entries<'a> {
    puts: &'a [Put],
    row: Option<u64>,
    used: u32,
}

impl<'a> Model for Entries<'a> {
    ghost use Rattle.std.specs.Prelude.{◌≡◌, IfSome, List};
    ghost use Rattle.page_format.specs.Objects.{entries_left};
    ghost use Rattle.page_format.specs.Packing.{AreInARow, used_by};
    ghost use Rattle.page_format.specs.Pages.{Entry};

    ghost Value = { List Entry };

    ghost view = { λ l. entries_left l.puts.now };

    ghost invariant = { λ l. IfSome l.row (λ first. AreInARow first (entries_left l.puts.now)) × (l.used ≡ used_by (entries_left l.puts.now)) };
}

impl<'a> Entries<'a> {
    /// What changes leave, which uses so many octets. Their serials may be known to stand in a row from a first one on.
    pub(crate) fn of(puts: &'a [Put], row: Option<u64>, used: u32) -> Entries<'a>
        requires used { used ≡ used_by (entries_left puts.now) }
        requires row { IfSome row (λ first. AreInARow first (entries_left puts.now)) }
        ensures { result ≡ entries_left puts.now }
    {
        Entries { puts, row, used }
    }

    /// The changes that leave them.
    pub fn as_slice(&self) -> &'a [Put]
        ensures { entries_left result.now ≡ self.now }
    {
        self.puts
    }

    /// The first of their serials, where these are known to stand in a row.
    pub fn row(&self) -> Option<u64>
        ensures { IfSome result (λ first. AreInARow first self.now) }
    {
        self.row
    }

    /// How many octets they use.
    pub fn used(&self) -> u32
        ensures used { result ≡ used_by self.now }
        ensures octets { result ≡ length (entries_octets self.now) }
    {
        self.used
    }
}
