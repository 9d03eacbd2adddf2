// The values of integer types.
ghost use Rattle.std.specs.Prelude.{◌≡◌};
ghost use Rattle.std.specs.Option.{option_and_then};
ghost use Rattle.psdl_standings.specs.Standings.{within};
ghost use Rattle.psdl_standings.specs.Values.{is_within};
ghost use Rattle.psdl_standings.specs.inner.Widths.{range_view};

/// From the least to the most value. `~` is told the bits of an unsigned type.
#[derive(Clone, Copy)]
pub(crate) struct Range {
    pub least: i128,
    pub most: i128,
    pub width: Option<u32>,
}

impl Range {
    ghost use Rattle.psdl_standings.specs.Ranges.{from_one};

    pub(crate) fn of(least: i128, most: i128, width: Option<u32>) -> Range
        ensures { result ≡ record { least = least; most = most; width = width } }
    {
        Range { least, most, width }
    }

    /// From 1 up, counted as unsigned long long.
    pub(crate) fn from_one(most: u32) -> Range
        ensures { range_view result ≡ from_one most }
    {
        Range {
            least: 1,
            most: i128::from(most),
            width: Some(64),
        }
    }

    /// The number, where it lies in the range.
    pub(crate) fn within(self, number: Option<i128>) -> Option<i128>
        ensures { result ≡ option_and_then (within (range_view self)) number }
    {
        match number {
            Some(number) => { if self.has(number) { Some(number) } else { None } }
            None => None,
        }
    }

    pub(crate) fn has(self, number: i128) -> bool
        ensures { result ≡ is_within self.least self.most number }
    {
        self.least <= number && number <= self.most
    }
}
