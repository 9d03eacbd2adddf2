// The widths of numbers.
ghost use Rattle.std.specs.Prelude.{◌≡◌, ◌≤◌, ◌<◌, ◌^◌, length};
ghost use Rattle.byteorder.specs.Endian.{big_number};
ghost use Rattle.type_layout.specs.Spelling.{gap};
ghost use Rattle.type_layout.specs.Views.{plain_type};
ghost use Rattle.cdr_codec.specs.Widths.{octets_in, number_width};

use byteorder::{BigEndian, ByteOrder};
use type_layout::Ty;

/// How many octets a number has.
#[derive(Clone, Copy, Debug, Drop)]
pub(crate) enum Width {
    One,
    Two,
    Four,
    Eight,
}

impl Width {
    #[inline(always)]
    pub(crate) fn octets(self) -> usize
        ensures { result ≡ octets_in self }
    {
        match self {
            Width::One => 1,
            Width::Two => 2,
            Width::Four => 4,
            Width::Eight => 8,
        }
    }

    // How many octets lie up to the next multiple of the width.
    #[inline(always)]
    pub(crate) fn gap(self, at: usize) -> usize
        ensures { result ≡ gap (octets_in self) at }
    {
        match self {
            Width::One => 0,
            Width::Two => (2 - at % 2) % 2,
            Width::Four => (4 - at % 4) % 4,
            Width::Eight => (8 - at % 8) % 8,
        }
    }

    // The number in the first octets.
    #[inline(always)]
    #[tactic(auto, using(crate::proofs::Octets::number_fits))]
    pub(crate) fn number(self, octets: &[u8]) -> u64
        requires { octets_in self ≤ length octets.now }
        ensures value { result ≡ big_number (octets_in self) octets.now }
        ensures small { result < 256 ^ octets_in self }
    {
        match self {
            Width::One => u64::from(octets[0]),
            Width::Two => u64::from(BigEndian::read_u16(octets)),
            Width::Four => u64::from(BigEndian::read_u32(octets)),
            Width::Eight => BigEndian::read_u64(octets),
        }
    }
}

// The width of the type's values, where they are numbers, also those of enumerators.
pub(crate) fn width_of(ty: &Ty) -> Option<Width>
    ensures { result ≡ number_width (plain_type ty.now) }
{
    match ty {
        Ty::Short => Some(Width::Two),
        Ty::Long => Some(Width::Four),
        Ty::LongLong => Some(Width::Eight),
        Ty::UShort => Some(Width::Two),
        Ty::ULong => Some(Width::Four),
        Ty::ULongLong => Some(Width::Eight),
        Ty::Char => Some(Width::One),
        Ty::Boolean => Some(Width::One),
        Ty::Octet => Some(Width::One),
        Ty::Enum(_) => Some(Width::Four),
        Ty::Str(_) => None,
        Ty::Seq(_, _) => None,
        Ty::Arr(_, _) => None,
        Ty::Struct(_) => None,
        Ty::Ref(_) => None,
    }
}
