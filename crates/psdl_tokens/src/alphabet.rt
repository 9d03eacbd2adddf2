// The bytes that blanks and words are made of.
ghost use Rattle.std.specs.Prelude.{◌≡◌, ◌≤◌, ◌<◌, length, slice_index};
ghost use Rattle.std.specs.List.{prefix_len};
ghost use Rattle.psdl_tokens.specs.Alphabet.{is_blank, is_word_byte};

const VERTICAL_TAB: u8 = 0x0B;

pub(crate) fn is_blank(byte: u8) -> bool
    ensures { result ≡ is_blank byte }
{
    byte.is_ascii_whitespace() || byte == VERTICAL_TAB
}

pub(crate) fn is_word_byte(byte: u8) -> bool
    ensures { result ≡ is_word_byte byte }
{
    byte.is_ascii_alphanumeric() || byte == b'_'
}

/// How many letters, digits and `_` stand at the front.
pub(crate) fn run_len(text: &[u8]) -> usize
    ensures count { result ≡ prefix_len is_word_byte text.now }
    ensures within { result ≤ length text.now }
{
    text.iter().take_while(|byte| is_word_byte(**byte)).count()
}

/// The byte at an index, or 0 behind the end. A 0 begins no token and stands in none.
pub(crate) fn byte_at(text: &[u8], index: usize) -> u8
    ensures byte { result ≡ slice_index text.now index }
    ensures there { 0 < result → index < length text.now }
{
    if index < text.len() { text[index] } else { 0 }
}
