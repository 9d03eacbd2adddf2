// Bytes between quotes.
ghost use Rattle.std.specs.Prelude.{◌≡◌, length};
ghost use Rattle.std.specs.Option.{option_map, option_copied};
ghost use Rattle.value_text.specs.Letters.{is_raw, is_escaped};
ghost use Rattle.value_text.specs.Reading.{Gives, behind, digits_at, escape_at, byte_at, bytes_at, character_at, string_at};

use crate::ValueFault;
use crate::words::Read;
use pss_base::{Bytes, digit_value, is_digit};
use std::alloc::Global;

/// The text behind a byte, where the byte stands in front.
pub(crate) fn behind(byte: u8, text: &[u8]) -> Option<&[u8]>
    ensures { option_copied result ≡ behind byte text.now }
{
    let [first, rest @ ..] = text else {
        return None;
    };
    if *first == byte { Some(rest) } else { None }
}

fn is_raw(quote: u8, byte: u8) -> bool
    ensures { result ≡ is_raw quote byte }
{
    !(byte == quote || byte == b'\\' || byte == b'\n' || byte == 0)
}

fn is_escaped(quote: u8, byte: u8) -> bool
    ensures { result ≡ is_escaped quote byte }
{
    byte == quote || byte == b'\\'
}

// The byte of two hexadecimal digits.
fn digits_of(text: &[u8]) -> Option<(u8, &[u8])>
    ensures { option_map (λ x. (x.0, x.1.now)) result ≡ digits_at text.now }
{
    let [high, low, rest @ ..] = text else {
        return None;
    };
    if is_digit(*high, 16) && is_digit(*low, 16) {
        return Some((digit_value(*high) * 16 + digit_value(*low), rest));
    }
    None
}

// What stands behind a `\`.
fn escape_of(quote: u8, text: &[u8]) -> Option<(u8, &[u8])>
    ensures { option_map (λ x. (x.0, x.1.now)) result ≡ escape_at quote text.now }
{
    let [first, rest @ ..] = text else {
        return None;
    };
    if is_escaped(quote, *first) {
        return Some((*first, rest));
    }
    if *first == b'x' {
        digits_of(rest)
    } else {
        None
    }
}

#[tactic(auto, unfolding(crate::specs::Reading::byte_at))]
fn byte_of(quote: u8, text: &[u8]) -> Option<(u8, &[u8])>
    ensures { option_map (λ x. (x.0, x.1.now)) result ≡ byte_at quote text.now }
{
    let [first, rest @ ..] = text else {
        return None;
    };
    if *first == b'\\' {
        return escape_of(quote, rest);
    }
    if is_raw(quote, *first) {
        Some((*first, rest))
    } else {
        None
    }
}

// The bytes up to the quote.
fn bytes_of(alloc: Global, quote: u8, text: &[u8]) -> Read<'_, Bytes>
    ensures { Gives (λ x. (x.0, x.1.now)) result (bytes_at quote (length text.now) text.now) }
{
    let mut bytes = Bytes::new(alloc);
    let mut rest = text;
    for _ in 0..text.len() {
        if let Some(after) = behind(quote, rest) {
            return Ok((bytes, after));
        }
        let Some((byte, after)) = byte_of(quote, rest) else {
            return Err(ValueFault::BadValue);
        };
        bytes.push(byte)?;
        rest = after;
    }
    Err(ValueFault::BadValue)
}

/// A character between `'`.
#[tactic(auto, unfolding(crate::specs::Reading::character_at))]
pub(crate) fn character_of(text: &[u8]) -> Read<'_, u8>
    ensures { Gives (λ x. (x.0, x.1.now)) result (character_at text.now) }
{
    let inside = behind(b'\'', text).ok_or(ValueFault::BadValue)?;
    let (byte, after) = byte_of(b'\'', inside).ok_or(ValueFault::BadValue)?;
    let rest = behind(b'\'', after).ok_or(ValueFault::BadValue)?;
    Ok((byte, rest))
}

/// A string between `"`.
#[tactic(auto, unfolding(crate::specs::Reading::string_at))]
pub(crate) fn string_of(alloc: Global, text: &[u8]) -> Read<'_, Bytes>
    ensures { Gives (λ x. (x.0, x.1.now)) result (string_at text.now) }
{
    let inside = behind(b'"', text).ok_or(ValueFault::BadValue)?;
    bytes_of(alloc, b'"', inside)
}
