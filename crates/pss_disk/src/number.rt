// Numbers in octets.
ghost use Rattle.std.specs.Prelude.{◌≡◌, ◌+◌, ◌≤◌, length, take, drop};
ghost use Rattle.std.specs.Int.{to_be_bytes, w32, w64};
ghost use Rattle.pss_disk.specs.Parts.{number4, number8};

/// The number in the four octets from a place on, the greatest first.
pub fn read_number4(octets: &[u8], at: usize) -> u32
    requires { at + 4 ≤ length octets.now }
    ensures number { number4 octets.now at ≡ result }
    ensures octets { to_be_bytes w32 result ≡ take 4 (drop at octets.now) }
{
    u32::from_be_bytes([octets[at], octets[at + 1], octets[at + 2], octets[at + 3]])
}

/// The number in the eight octets from a place on, the greatest first.
pub fn read_number8(octets: &[u8], at: usize) -> u64
    requires { at + 8 ≤ length octets.now }
    ensures number { number8 octets.now at ≡ result }
    ensures octets { to_be_bytes w64 result ≡ take 8 (drop at octets.now) }
{
    u64::from_be_bytes([
        octets[at],
        octets[at + 1],
        octets[at + 2],
        octets[at + 3],
        octets[at + 4],
        octets[at + 5],
        octets[at + 6],
        octets[at + 7],
    ])
}
