// Why octets are no record.
ghost use Rattle.std.specs.Prelude.{◌≡◌};
ghost use Rattle.cdr_codec.specs.declared.fault.Stop.TheVariants.{Memory};

use pss_base::NoMemory;
use std::alloc::{AllocError, AllocFailed};

/// Why octets are no record of a layout: the first primitive that is refused, a primitive being an
/// octet of padding, a number, or the octets of a string with its NUL. Of a string `BadNul` has the place of
/// the first wrong octet, which is the first that no record has there (`bad_nul_has_the_first_wrong_octet`).
/// Places count octets from the flag, from 0.
#[derive(Clone, Copy, Debug, PartialEq, Eq, Drop)]
pub enum RecordFault {
    /// The octets end, at this number of them, before a primitive does; of a string, where its octets
    /// and the NUL do not all stand there, whatever those are that do.
    Short(u64),
    /// The first octet is not 0, which says big-endian.
    BadFlag,
    /// The boolean that begins here is neither 0 nor 1.
    BadBool(u64),
    /// The enumerator that begins here is not below their number.
    BadEnum(u64),
    /// Here begins a string's length that is 0, or here stands an octet 0 before a string's last, or
    /// its last, which is not 0.
    BadNul(u64),
    /// Here stands an octet of padding that is not 0.
    BadPad(u64),
    /// Here begins the length of a string or of a sequence that is over its bound.
    OverBound(u64),
    /// Here begins the home of a reference, which is neither 0 nor one of its type's, or the serial of
    /// one, which is 0 behind a home, or not 0 behind the home 0.
    BadRef(u64),
    /// Here an octet follows the last member.
    Rest(u64),
    /// There was no memory. It may come in place of any other answer.
    NoMemory,
}

/// Why nothing was read.
#[derive(Debug, Drop)]
pub(crate) enum Stop {
    Memory,
    Fault(RecordFault),
}

/// A number that was read, and where it begins and ends.
#[derive(Clone, Copy, Debug, Drop)]
pub(crate) struct Found {
    pub start: usize,
    pub number: u64,
    pub after: usize,
}

impl From<NoMemory> for Stop {
    ghost from_gives = { λ _ stop. stop ≡ Memory };

    fn from(_: NoMemory) -> Stop {
        Stop::Memory
    }
}

impl From<AllocError> for Stop {
    ghost from_gives = { λ _ stop. stop ≡ Memory };

    fn from(_: AllocError) -> Stop {
        Stop::Memory
    }
}

impl<T: Drop> From<AllocFailed<T>> for Stop {
    ghost from_gives = { λ _ stop. stop ≡ Memory };

    fn from(_: AllocFailed<T>) -> Stop {
        Stop::Memory
    }
}
