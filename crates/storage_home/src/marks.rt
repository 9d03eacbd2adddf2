// Places below 64 as the bits of a word.
ghost use Rattle.std.specs.Prelude.{◌<◌, true, false};
ghost use Rattle.storage_home.specs.Blocks.{TurnsBit, IsLeastBit};

/// The word in which a place is marked too.
pub fn with_bit(bits: u64, place: u64) -> u64
    requires { place < 64 }
    ensures { TurnsBit bits result place true }
{
    bits | 1 << place
}

/// The word in which a place is not marked.
pub fn without_bit(bits: u64, place: u64) -> u64
    requires { place < 64 }
    ensures { TurnsBit bits result place false }
{
    bits & !(1 << place)
}

/// The word in which a place is marked or not.
pub fn with_mark(bits: u64, place: u64, is_marked: bool) -> u64
    requires { place < 64 }
    ensures { TurnsBit bits result place is_marked }
{
    if is_marked {
        with_bit(bits, place)
    } else {
        without_bit(bits, place)
    }
}

/// The least place from this one on that is marked.
pub fn least_from(bits: u64, from: u64) -> Option<u64>
    requires { from < 64 }
    ensures { IsLeastBit bits from result }
{
    let rest = bits >> from;
    if rest == 0 {
        None
    } else {
        Some(from + rest.trailing_zeros() as u64)
    }
}
