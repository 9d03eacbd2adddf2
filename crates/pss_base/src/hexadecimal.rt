// Numbers in lower-case hexadecimal digits.
ghost use Rattle.std.specs.Prelude.{◌≡◌, ◌<◌, ◌≤◌, ◌^◌, length, IfSome};
ghost use Rattle.std.specs.Char.{digit_char};
ghost use Rattle.pss_base.specs.Hexadecimal.{hex_value, hex_digits, hex_number};

/// The digit of a number below 16, in lower case.
pub fn hex_digit(value: u8) -> u8
    requires { value < 16 }
    ensures { result ≡ digit_char value }
{
    if value < 10 {
        b'0' + value
    } else {
        b'a' + (value - 10)
    }
}

/// What a digit counts; none for any byte that is no digit, among them the capital letters.
pub fn hex_value(digit: u8) -> Option<u8>
    ensures value { result ≡ hex_value digit }
    ensures small { IfSome result (λ value. value < 16) }
{
    match digit {
        b'0'..=b'9' => Some(digit - b'0'),
        b'a'..=b'f' => Some(digit - b'a' + 10),
        _ => None,
    }
}

/// Fills a slice with the last digits of a number, as many as it has places.
#[inline(always)]
pub fn write_hex(digits: &mut [u8], number: u64)
    ensures { digits.new ≡ hex_digits (length digits.old) number }
{
    // Most numbers are small: the digits in front of theirs are zeros.
    digits.fill(b'0');
    let mut left = number;
    let mut at = digits.len();
    'digits: while left > 0 && at > 0 {
        at -= 1;
        digits[at] = hex_digit((left % 16) as u8);
        left /= 16;
    }
}

/// The number that at most 16 digits stand for; none where a byte is no digit. No digits stand for 0.
pub fn hex_number(digits: &[u8]) -> Option<u64>
    requires { length digits.now ≤ 16 }
    ensures value { result ≡ hex_number digits.now }
    ensures small { IfSome result (λ number. number < 16 ^ length digits.now) }
{
    let mut number: u64 = 0;
    for digit in digits {
        number = number * 16 + u64::from(hex_value(*digit)?);
    }
    Some(number)
}
