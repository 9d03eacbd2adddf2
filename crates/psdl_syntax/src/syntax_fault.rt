// Why a text is refused, and where.
ghost use Rattle.std.specs.Prelude.{◌≡◌};
ghost use Rattle.psdl_syntax.specs.declared.syntax_fault.SyntaxKind.TheVariants as kinds;
ghost use Rattle.psdl_syntax.specs.Syntax.{start};

use psdl_tokens::START;
use pss_base::{NoMemory, Place};
use thiserror::Error;

/// Why a text is refused. The kinds from `BadByte` to `TooLong` are told to users as S1 to S8.
#[derive(Clone, Copy, Debug, PartialEq, Eq, Drop)]
pub enum SyntaxKind {
    /// S1: a byte that begins no token, among them a `_` without a letter behind it.
    BadByte,
    /// S2: a `/*` without a `*/` behind it.
    OpenComment,
    /// S3: an integer that is badly spelled, or a string that is not closed on its line or has a bad character.
    BadLiteral,
    /// S4: an integer above 2^127 - 1.
    LiteralTooWide,
    /// S5: the first token that makes the tokens in front and with it no beginning of a text; or the end, where all
    /// tokens are such a beginning, and no text.
    Unexpected,
    /// S6: a word that this language leaves out, or a line that begins with `#`.
    LeftOut,
    /// S7: a bracket that makes 33 unclosed.
    TooDeep,
    /// S8: the first byte behind 1,048,576.
    TooLong,
    /// There was no memory. It may come in place of any other answer.
    NoMemory,
}

/// Why a text is refused, and where. Want of memory is told at the text's begin.
#[derive(Clone, Copy, Debug, PartialEq, Eq, Drop, Error)]
#[error("{}:{} {kind:?}", .place.line, .place.column)]
pub struct SyntaxFault {
    pub place: Place,
    pub kind: SyntaxKind,
}

impl From<NoMemory> for SyntaxFault {
    ghost from_gives = { λ _ fault. fault ≡ record { place = start; kind = kinds.NoMemory } };

    fn from(_: NoMemory) -> SyntaxFault {
        SyntaxFault {
            place: START,
            kind: SyntaxKind::NoMemory,
        }
    }
}
