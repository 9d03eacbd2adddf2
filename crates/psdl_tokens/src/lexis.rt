// The tokens of a text.
ghost use Rattle.std.specs.Prelude.{◌≡◌, ◌≤◌, ◌<◌, length, IfOk};
ghost use Rattle.psdl_tokens.specs.Lexis.{lexed};

use crate::cursor::{START, place_behind};
use crate::lexeme::{Lexeme, LexicalKind, lexeme_at};
use crate::token::Token;
use pss_base::{NoMemory, Place};
use std::alloc::Global;

/// A text has at most so many bytes.
pub const MOST_BYTES: usize = 1_048_576;

/// Where no token stands in a text, and why.
#[derive(Clone, Copy, Drop)]
pub struct LexicalFault {
    pub place: Place,
    pub kind: LexicalKind,
}

/// The tokens of a text in front of its first lexical fault, and that fault.
#[derive(Drop)]
pub struct Scanned {
    pub tokens: Vec<Token>,
    pub fault: Option<LexicalFault>,
}

/// The tokens of a text up to its first lexical fault, or all of them, and that fault.
pub fn scan(alloc: Global, text: &[u8]) -> Result<Scanned, NoMemory>
    requires { length text.now ≤ MOST_BYTES }
    ensures tokens { IfOk result (λ s. s.tokens.items ≡ (lexed text.now).tokens) }
    ensures fault { IfOk result (λ s. s.fault ≡ (lexed text.now).fault) }
{
    let mut tokens = Vec::new(alloc);
    let mut place = START;
    while (place.offset as usize) < text.len() {
        let at = place.offset as usize;
        let size = match lexeme_at(alloc, &text[..at], &text[at..])? {
            Lexeme::Gap(size) => size,
            Lexeme::Found(kind, size) => {
                tokens.push(Token { place, kind })?;
                size
            }
            Lexeme::Wrong(kind) => {
                return Ok(Scanned {
                    tokens,
                    fault: Some(LexicalFault { place, kind }),
                });
            }
        };
        place = place_behind(text, place, size);
    }
    Ok(Scanned {
        tokens,
        fault: None,
    })
}
