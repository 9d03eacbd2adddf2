// How many octets the defaults of types take.
ghost use Rattle.std.specs.Prelude.{◌≡◌, nat_lt};
ghost use Rattle.psdl_standings.specs.Extents.{extent_view, followed, repeated};

use pss_base::LONGEST_RECORD;

// It stands for all extents that are over the limit.
const TOO_LONG: u16 = LONGEST_RECORD as u16 + 1;

/// The octets that are taken from each of the eight places up to the greatest alignment, and one over `LONGEST_RECORD`
/// for all that is over it.
#[derive(Clone, Copy)]
pub struct Extent([u16; 8]);

impl Extent {
    /// Nothing takes no octet.
    pub const NOTHING: Extent = Extent([0; 8]);
    /// That of an octet, a character or a boolean.
    pub const OCTET: Extent = Extent([1; 8]);
    /// That of a number of two octets.
    pub const SHORT: Extent = Extent([2, 3, 2, 3, 2, 3, 2, 3]);
    /// That of a number of four octets.
    pub const LONG: Extent = Extent([4, 7, 6, 5, 4, 7, 6, 5]);
    /// That of a number of eight octets.
    pub const LONG_LONG: Extent = Extent([8, 15, 14, 13, 12, 11, 10, 9]);
    /// That of the empty string.
    pub const TEXT: Extent = Extent([5, 8, 7, 6, 5, 8, 7, 6]);
    /// That of nil.
    pub const NIL: Extent = Extent([16, 15, 14, 13, 12, 19, 18, 17]);

    /// Those with others behind them.
    pub fn followed_by(self, others: Extent) -> Extent
        ensures { extent_view result ≡ followed (extent_view self) (extent_view others) }
    {
        let mut both = [0; 8];
        for place in 0..8 {
            let first = self.0[place];
            let second = others.0[(place + usize::from(first)) % 8];
            both[place] = first.saturating_add(second).min(TOO_LONG);
        }
        Extent(both)
    }

    /// So many times, one behind the other.
    pub(crate) fn repeated(self, count: u128) -> Extent
        ensures { extent_view result ≡ repeated (extent_view self) count }
    {
        if count == 0 {
            return Extent::NOTHING;
        }
        let half = self.repeated(count / 2);
        let even = half.followed_by(half);
        if count % 2 == 0 {
            even
        } else {
            self.followed_by(even)
        }
    }

    /// Whether there are more octets than a default record may have, from the first place on.
    pub fn is_over(self) -> bool
        ensures { result ≡ nat_lt 8000 (extent_view self 0) }
    {
        self.0[0] >= TOO_LONG
    }
}
