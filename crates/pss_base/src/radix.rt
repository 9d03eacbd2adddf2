// Digits in any radix up to 36.
ghost use Rattle.std.specs.Prelude.{◌≡◌};
ghost use Rattle.std.specs.Char.{digit_value, is_digit};

/// What a digit or a letter counts, from 0 for `0` to 35 for `z` and `Z`, and 36 for any other byte.
pub fn digit_value(byte: u8) -> u8
    ensures { result ≡ digit_value byte }
{
    match byte {
        b'0'..=b'9' => byte - b'0',
        b'A'..=b'Z' => byte - b'A' + 10,
        b'a'..=b'z' => byte - b'a' + 10,
        _ => 36,
    }
}

/// Tells whether this is a digit in the radix.
pub fn is_digit(byte: u8, radix: u8) -> bool
    ensures { result ≡ is_digit byte radix }
{
    digit_value(byte) < radix
}
