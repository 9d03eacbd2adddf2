// The characters of strings.
ghost use Rattle.std.specs.Prelude.{◌≡◌, ◌≤◌, ◌<◌, ◌+◌, ◌-◌, ◌==◌, length, take, IfSome};
ghost use Rattle.std.specs.List.{prefix_len};
ghost use Rattle.std.specs.Char.{is_digit};
ghost use Rattle.psdl_tokens.specs.Characters.{named_escape, digit_count, byte_of, numbered_escape, escape, character};

use crate::alphabet::byte_at;
use crate::numeral::digits_value;
use pss_base::is_digit;

/// What a character of a string stands for, and how many bytes of the text it takes.
#[derive(Clone, Copy)]
pub struct Character {
    pub byte: u8,
    pub size: usize,
}

// What a letter or sign behind `\` stands for.
fn named_escape(name: u8) -> Option<u8>
    ensures { result ≡ named_escape name }
{
    match name {
        b'n' => Some(b'\n'),
        b't' => Some(b'\t'),
        b'v' => Some(0x0B),
        b'b' => Some(0x08),
        b'r' => Some(b'\r'),
        b'f' => Some(0x0C),
        b'a' => Some(0x07),
        b'\\' | b'?' | b'\'' | b'"' => Some(name),
        _ => None,
    }
}

fn front(text: &[u8], most: usize) -> &[u8]
    ensures { result.now ≡ take most text.now }
{
    &text[..text.len().min(most)]
}

fn leading_digits(radix: u8, text: &[u8]) -> usize
    ensures { result ≡ prefix_len (λ digit. is_digit digit radix) text.now }
{
    text.iter()
        .take_while(|byte| is_digit(**byte, radix))
        .count()
}

// How many digits stand at the front, at most so many.
fn digit_count(radix: u8, most: usize, rest: &[u8]) -> usize
    ensures count { result ≡ digit_count radix most rest.now }
    ensures within { result ≤ length rest.now }
    ensures few { result ≤ most }
{
    leading_digits(radix, front(rest, most))
}

// The byte that digits stand for, which is not NUL.
fn byte_of(radix: u8, digits: &[u8]) -> Option<u8>
    requires { 0 < radix }
    ensures { result ≡ byte_of radix digits.now }
{
    match digits_value(radix, digits) {
        Some(value @ 1..=255) => Some(value as u8),
        _ => None,
    }
}

fn numbered_escape(radix: u8, most: usize, before: usize, rest: &[u8]) -> Option<Character>
    requires radix { 0 < radix }
    requires few { most + before ≤ 4 }
    ensures character { result ≡ numbered_escape radix most before rest.now }
    ensures size { IfSome result (λ c. (before ≤ c.size) × (c.size ≤ most + before)) }
{
    let count = digit_count(radix, most, rest);
    let byte = byte_of(radix, &rest[..count])?;
    Some(Character {
        byte,
        size: before + count,
    })
}

// An escape, by what stands behind its `\`.
fn escape(rest: &[u8]) -> Option<Character>
    ensures character { result ≡ escape rest.now }
    ensures size { IfSome result (λ c. (1 ≤ c.size) × (c.size ≤ 4)) }
{
    let first = byte_at(rest, 0);
    if is_digit(first, 8) {
        return numbered_escape(8, 3, 1, rest);
    }
    if first == b'x' {
        return numbered_escape(16, 2, 2, &rest[1..]);
    }
    let byte = named_escape(first)?;
    Some(Character { byte, size: 2 })
}

/// The character that stands at the front of a string's rest.
#[tactic(auto, unfolding(crate::specs::Characters::character))]
pub(crate) fn next_character(rest: &[u8]) -> Option<Character>
    ensures character { result ≡ character rest.now }
    ensures size { IfSome result (λ c. (1 ≤ c.size) × (c.size ≤ 4)) }
{
    let byte = byte_at(rest, 0);
    match byte {
        b'\\' => escape(&rest[1..]),
        b'\n' | 0 => None,
        _ => Some(Character { byte, size: 1 }),
    }
}
