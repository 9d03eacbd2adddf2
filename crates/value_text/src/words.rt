// Values that are written as one word.
ghost use Rattle.std.specs.Prelude.{◌≡◌, ◌≤◌, length, drop, position};
ghost use Rattle.std.specs.List.{take_while, prefix_len, list_all};
ghost use Rattle.std.specs.Char.{is_digit as is_decimal_digit};
ghost use Rattle.std.specs.Str.{bytes_eq};
ghost use Rattle.std.specs.Str.Parse.{starts_with_minus};
ghost use Rattle.std.specs.Option.{option_map};
ghost use Rattle.type_layout.specs.Views.{plain_value};
ghost use Rattle.value_text.specs.Words.{digits_of, is_decimal};
ghost use Rattle.value_text.specs.Reading.{Gives, is_part, word_at, number_in, truth_in, enumerator_in, reference_in};

use crate::ValueFault;
use crate::digits::decimal_value;
use pss_base::{is_blank, is_digit, read_pid};
use type_layout::{PlacedNames, Value};

/// What was read, and the text behind it.
pub(crate) type Read<'a, T> = Result<(T, &'a [u8]), ValueFault>;

fn is_part(byte: u8) -> bool
    ensures { result ≡ is_part byte }
{
    !(is_blank(byte) || matches!(byte, b',' | b']' | b'}'))
}

fn word_len(text: &[u8]) -> usize
    ensures count { result ≡ prefix_len is_part text.now }
    ensures within { result ≤ length text.now }
{
    text.iter().take_while(|byte| is_part(**byte)).count()
}

// The word at the front, and the text behind it.
fn word_of(text: &[u8]) -> (&[u8], &[u8])
    ensures word { result.0.now ≡ take_while is_part text.now }
    ensures behind { result.1.now ≡ drop (prefix_len is_part text.now) text.now }
{
    text.split_at(word_len(text))
}

// ---- numbers

fn is_negative(word: &[u8]) -> bool
    ensures { result ≡ starts_with_minus word.now }
{
    matches!(word, [b'-', ..])
}

fn digits_of(word: &[u8]) -> &[u8]
    ensures { result.now ≡ digits_of word.now }
{
    match word {
        [b'-', digits @ ..] => digits,
        _ => word,
    }
}

fn are_digits(digits: &[u8]) -> bool
    ensures { result ≡ list_all (λ b. is_decimal_digit b 10) digits.now }
{
    digits.iter().all(|byte| is_digit(*byte, 10))
}

fn is_decimal(digits: &[u8]) -> bool
    ensures { result ≡ is_decimal digits.now }
{
    !digits.is_empty() && digits.len() < 40 && are_digits(digits)
}

fn number_in(word: &[u8]) -> Option<Value>
    ensures { option_map plain_value result ≡ number_in word.now }
{
    let digits = digits_of(word);
    if !is_decimal(digits) {
        return None;
    }
    let number = i128::from(decimal_value(digits)?);
    if is_negative(word) {
        return Some(Value::Int(-number));
    }
    Some(Value::Int(number))
}

/// A number, of whatever type.
#[inline(always)]
pub(crate) fn number_of(text: &[u8]) -> Read<'_, Value>
    ensures { Gives (λ x. (plain_value x.0, x.1.now)) result (word_at number_in text.now) }
{
    let (word, rest) = word_of(text);
    let value = number_in(word).ok_or(ValueFault::BadValue)?;
    Ok((value, rest))
}

// ---- booleans

fn truth_in(word: &[u8]) -> Option<Value>
    ensures { option_map plain_value result ≡ truth_in word.now }
{
    if word == b"TRUE".as_slice() {
        return Some(Value::Bool(true));
    }
    if word == b"FALSE".as_slice() {
        return Some(Value::Bool(false));
    }
    None
}

/// TRUE or FALSE.
pub(crate) fn truth_of(text: &[u8]) -> Read<'_, Value>
    ensures { Gives (λ x. (plain_value x.0, x.1.now)) result (word_at truth_in text.now) }
{
    let (word, rest) = word_of(text);
    let value = truth_in(word).ok_or(ValueFault::BadValue)?;
    Ok((value, rest))
}

// ---- enumerators

fn place_of(names: &PlacedNames, word: &[u8]) -> Option<u32>
    ensures { result ≡ position (λ name. bytes_eq name word.now) names.now }
{
    names.place(word)
}

fn enumerator_in(names: &PlacedNames, word: &[u8]) -> Option<Value>
    ensures { option_map plain_value result ≡ enumerator_in names.now word.now }
{
    let place = place_of(names, word)?;
    Some(Value::Enum(place))
}

/// The enumerator of a name.
pub(crate) fn enumerator_of<'a>(names: &PlacedNames, text: &'a [u8]) -> Read<'a, Value>
    ensures { Gives (λ x. (plain_value x.0, x.1.now)) result (word_at (enumerator_in names.now) text.now) }
{
    let (word, rest) = word_of(text);
    let value = enumerator_in(names, word).ok_or(ValueFault::BadValue)?;
    Ok((value, rest))
}

// ---- references

fn reference_in(word: &[u8]) -> Option<Value>
    ensures { option_map plain_value result ≡ reference_in word.now }
{
    if word == b"nil".as_slice() {
        return Some(Value::Ref(None));
    }
    Some(Value::Ref(Some(read_pid(word)?)))
}

/// Nil, or the identifier of an object.
pub(crate) fn reference_of(text: &[u8]) -> Read<'_, Value>
    ensures { Gives (λ x. (plain_value x.0, x.1.now)) result (word_at reference_in text.now) }
{
    let (word, rest) = word_of(text);
    let value = reference_in(word).ok_or(ValueFault::BadValue)?;
    Ok((value, rest))
}
