// The texts of names, integers and strings.
ghost use Rattle.std.specs.Prelude.{◌≡◌, ◌<◌, ◌++◌, ◌&&◌, ◌||◌, OnOk};
ghost use Rattle.std.specs.Char.{is_digit};
ghost use Rattle.std.specs.Fmt.{decimal};
ghost use Rattle.psdl_tokens.specs.Lexis.{is_keyword_like, is_left_out};
ghost use Rattle.psdl_syntax.specs.Canonical.{name_text, is_numbered, character_text, string_text};

use itoa::Buffer;
use psdl_tokens::{is_keyword, is_left_out};
use pss_base::{Bytes, NoMemory, hex_digit, is_digit};

fn is_reserved(name: &[u8]) -> bool
    ensures { result ≡ (is_keyword_like name.now || is_left_out name.now) }
{
    is_keyword(name) || is_left_out(name)
}

/// Adds an identifier, with `_` in front where it would be read as another token.
#[tactic(auto, unfolding(crate::specs::Canonical::name_text))]
pub(super) fn extend_name(text: &mut Bytes, name: &[u8]) -> Result<(), NoMemory>
    ensures { OnOk result (text.new ≡ text.old ++ name_text name.now) }
{
    if is_reserved(name) {
        text.push(b'_')?;
    }
    text.extend(name)
}

/// Adds an integer in decimal.
pub(super) fn extend_integer(text: &mut Bytes, value: u128) -> Result<(), NoMemory>
    ensures { OnOk result (text.new ≡ text.old ++ decimal value) }
{
    let mut buffer = Buffer::new();
    text.extend(buffer.format(value).as_bytes())
}

fn is_numbered(behind: bool, byte: u8) -> bool
    ensures { result ≡ is_numbered behind byte }
{
    let is_printed = 31 < byte && byte < 127;
    !is_printed || (behind && is_digit(byte, 16))
}

fn extend_character(text: &mut Bytes, numbered: bool, byte: u8) -> Result<(), NoMemory>
    ensures { OnOk result (text.new ≡ text.old ++ character_text numbered byte) }
{
    if numbered {
        text.extend(&[b'\\', b'x', hex_digit(byte / 16), hex_digit(byte % 16)])
    } else if byte == b'"' || byte == b'\\' {
        text.extend(&[b'\\', byte])
    } else {
        text.push(byte)
    }
}

/// Adds a string between its `"`.
#[tactic(auto, unfolding(crate::specs::Canonical::string_text))]
pub(super) fn extend_string(text: &mut Bytes, bytes: &[u8]) -> Result<(), NoMemory>
    ensures { OnOk result (text.new ≡ text.old ++ string_text bytes.now) }
{
    text.push(b'"')?;
    let mut behind = false;
    for byte in bytes {
        behind = is_numbered(behind, *byte);
        extend_character(text, behind, *byte)?;
    }
    text.push(b'"')
}
