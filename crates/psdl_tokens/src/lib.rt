//! The tokens of PSDL texts, up to the first place where none stands, and how keywords and signs are spelled.
#![tactic(auto)]

mod alphabet;
mod character;
mod comment;
mod cursor;
mod lexeme;
mod lexis;
mod names;
mod numeral;
mod quoted;
mod spelling;
mod token;

pub use character::Character;
pub use cursor::{START, place_behind};
pub use lexeme::{Lexeme, LexicalKind, a_mark_is_the_longest};
pub use lexis::{LexicalFault, MOST_BYTES, Scanned, scan};
pub use names::{is_keyword, is_left_out};
pub use quoted::Quoted;
pub use spelling::{keyword_spelling, mark_spelling};
pub use token::{Keyword, Mark, Token, TokenKind};
