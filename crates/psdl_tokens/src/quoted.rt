// Strings in the texts of schemas.
ghost use Rattle.std.specs.Prelude.{◌≡◌, ◌≤◌, length, IfOk, IfSome};
ghost use Rattle.psdl_tokens.specs.Characters.{string_in};

use crate::character::next_character;
use pss_base::{Bytes, NoMemory};
use std::alloc::Global;

/// A string, by the bytes that it stands for, and how many bytes of the text it takes with its last `"`.
#[derive(Drop)]
pub struct Quoted {
    pub bytes: Bytes,
    pub size: usize,
}

/// The string that stands behind a `"`, where it is closed and each character is one.
pub(crate) fn string_in(alloc: Global, rest: &[u8]) -> Result<Option<Quoted>, NoMemory>
    ensures string { IfOk result (λ string. string ≡ string_in 0 rest.now) }
    ensures within { IfOk result (λ string. IfSome string (λ s. s.size ≤ length rest.now)) }
{
    let mut bytes = Bytes::new(alloc);
    let mut at = 0;
    while at < rest.len() {
        if rest[at] == b'"' {
            return Ok(Some(Quoted {
                bytes,
                size: at + 1,
            }));
        }
        let Some(character) = next_character(&rest[at..]) else {
            return Ok(None);
        };
        bytes.push(character.byte)?;
        at += character.size;
    }
    Ok(None)
}
