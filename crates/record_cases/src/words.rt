// Words of a line and what they stand for.
ghost use Rattle.std.specs.Prelude.{◌≤◌, length};

use pss_base::{is_blank, skip_blanks};
use std::str::from_utf8;

fn word_len(text: &[u8]) -> usize
    ensures within { result ≤ length text.now }
{
    text.iter().take_while(|byte| !is_blank(**byte)).count()
}

/// The word that a text begins with, and what stands directly behind it.
pub fn first_word(text: &[u8]) -> (&[u8], &[u8]) {
    text.split_at(word_len(text))
}

/// The next word of a text, behind blanks, and what stands directly behind it.
pub fn next_word(text: &[u8]) -> (&[u8], &[u8]) {
    first_word(skip_blanks(text))
}

/// The integer that a word writes in decimal digits.
pub fn integer_of(word: &[u8]) -> Option<i128> {
    from_utf8(word).ok()?.parse::<i128>().ok()
}

/// The place that a word writes likewise.
pub fn place_of(word: &[u8]) -> Option<usize> {
    usize::try_from(integer_of(word)?).ok()
}
