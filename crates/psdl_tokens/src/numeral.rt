// Integers in the texts of schemas.
ghost use Rattle.std.specs.Prelude.{◌≡◌, ◌≤◌, ◌<◌, ◌+◌, ◌*◌, ◌^◌, ◌&&◌, nat_lt, length, IsTrue, SomeIff};
ghost use Rattle.std.specs.List.{list_all};
ghost use Rattle.std.specs.Char.{is_digit};
ghost use Rattle.std.specs.Str.Parse.{digits_value};
ghost use Rattle.psdl_tokens.specs.Numerals.{numeral, is_hexadecimal};
ghost use Rattle.psdl_tokens.specs.Lexis.{integer_found, integer_lexeme, size_of};

use crate::alphabet::byte_at;
use crate::lexeme::{Lexeme, LexicalKind};
use crate::token::TokenKind;
use pss_base::{digit_value, is_digit};

// The greatest integer, 2^127 - 1.
const MOST: u128 = u128::MAX >> 1;

fn are_digits(radix: u8, bytes: &[u8]) -> bool
    ensures { result ≡ list_all (λ byte. is_digit byte radix) bytes.now }
{
    bytes.iter().all(|byte| is_digit(*byte, radix))
}

fn is_numeral(radix: u8, digits: &[u8]) -> bool
    ensures { result ≡ (nat_lt 0 (length digits.now) && list_all (λ byte. is_digit byte radix) digits.now) }
{
    !digits.is_empty() && are_digits(radix, digits)
}

// The value with one digit more, where it is not too wide.
fn appended(value: u128, radix: u8, digit: u8) -> Option<u128>
    ensures { SomeIff result (value * radix + digit < 2 ^ 127) (value * radix + digit) }
{
    let shifted = value.checked_mul(u128::from(radix))?;
    let sum = shifted.checked_add(u128::from(digit))?;
    if sum > MOST { None } else { Some(sum) }
}

/// The number that digits stand for, where it is below 2^127.
pub(crate) fn digits_value(radix: u8, digits: &[u8]) -> Option<u128>
    requires { 0 < radix }
    ensures { SomeIff result (digits_value radix digits.now < 2 ^ 127) (digits_value radix digits.now) }
{
    let mut value: u128 = 0;
    for byte in digits {
        value = appended(value, radix, digit_value(*byte))?;
    }
    Some(value)
}

fn is_hexadecimal(run: &[u8]) -> bool
    ensures value { result ≡ is_hexadecimal run.now }
    ensures within { IsTrue result → 2 ≤ length run.now }
{
    byte_at(run, 0) == b'0' && (byte_at(run, 1) == b'x' || byte_at(run, 1) == b'X')
}

fn numeral_found(size: usize, radix: u8, digits: &[u8]) -> Lexeme
    requires radix { 0 < radix }
    requires size { 0 < size }
    ensures lexeme { result ≡ integer_found size (numeral radix digits.now) }
    ensures size { (1 ≤ size_of result) × (size_of result ≤ size) }
{
    if !is_numeral(radix, digits) {
        return Lexeme::Wrong(LexicalKind::BadLiteral);
    }
    match digits_value(radix, digits) {
        Some(value) => Lexeme::Found(TokenKind::Integer(value), size),
        None => Lexeme::Wrong(LexicalKind::LiteralTooWide),
    }
}

/// The integer that a run of letters, digits and `_` spells.
#[tactic(auto, unfolding(crate::specs::Lexis::integer_lexeme))]
pub(crate) fn integer_lexeme(run: &[u8]) -> Lexeme
    requires { 0 < length run.now }
    ensures lexeme { result ≡ integer_lexeme run.now }
    ensures size { (1 ≤ size_of result) × (size_of result ≤ length run.now) }
{
    if is_hexadecimal(run) {
        numeral_found(run.len(), 16, &run[2..])
    } else if byte_at(run, 0) == b'0' {
        numeral_found(run.len(), 8, run)
    } else {
        numeral_found(run.len(), 10, run)
    }
}
