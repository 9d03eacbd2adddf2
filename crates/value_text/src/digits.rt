// Digits, and the numbers that they stand for.
ghost use Rattle.std.specs.Prelude.{◌<◌, ◌+◌, ◌*◌, ◌^◌, SomeIff};
ghost use Rattle.std.specs.Str.Parse.{digits_value};

use pss_base::digit_value;

// The number with one digit more, where it is below 2^64.
fn appended(number: u64, digit: u8) -> Option<u64>
    ensures { SomeIff result (number * 10 + digit < 2 ^ 64) (number * 10 + digit) }
{
    let shifted = number.checked_mul(10)?;
    shifted.checked_add(u64::from(digit))
}

/// The number that decimal digits stand for, where it is below 2^64.
pub(crate) fn decimal_value(digits: &[u8]) -> Option<u64>
    ensures { SomeIff result (digits_value 10 digits.now < 2 ^ 64) (digits_value 10 digits.now) }
{
    let mut number: u64 = 0;
    for byte in digits {
        number = appended(number, digit_value(*byte))?;
    }
    Some(number)
}
