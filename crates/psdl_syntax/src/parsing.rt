// The tree of a text, or its fault.
ghost use Rattle.std.specs.Prelude.{ℕ, List, ◌≡◌, ◌≤◌, ◌<◌, ◌-◌, ◌^◌, length, take, IfOk, IfErr};
ghost use Rattle.psdl_tree.specs.Trees.{Definitions};
ghost use Rattle.psdl_tree.specs.Views.{tree_view};
ghost use Rattle.psdl_tokens.specs.Places.{place_of};
ghost use Rattle.psdl_tokens.specs.Lexis.{lexed};
ghost use Rattle.psdl_syntax.specs.Syntax.{place_at, IsStop, IsTextOf, IsNoToken, IsTold, IsParsed};

use crate::Fault;
use crate::read::read;
use crate::syntax_fault::{SyntaxFault, SyntaxKind};
use part_readers::Refusal;
use psdl_tokens::{LexicalFault, LexicalKind, MOST_BYTES, START, Token, place_behind, scan};
use psdl_tree::Tree;
use pss_base::{NoMemory, Place};
use std::alloc::Global;

/// The tree of a text, or else its fault.
///
/// A text is read as tokens up to its first lexical fault, or up to its end. The fault of the text is the first that
/// there is of these:
///
/// 1. `TooLong`: it has more than 1,048,576 bytes.
/// 2. `Unexpected` at the first token that makes the tokens up to it no beginning of a text, or `TooDeep` at the first
///    bracket that makes 33 unclosed, whichever comes first; at one token it is `Unexpected`.
/// 3. The lexical fault.
/// 4. `Unexpected` at the end of the text: all tokens are such a beginning, and no text.
pub fn parse(alloc: Global, text: &[u8]) -> Result<Tree, SyntaxFault>
    // A tree that is given is the text's.
    ensures found { IfOk result (λ tree. IsTextOf (tree_view tree) text.now) }
    // The tree of a text is given.
    ensures only { (tree : Definitions) → IsTextOf tree text.now → IsParsed result tree }
    // A fault is that of the text.
    ensures fault { IfErr result (λ fault. IsTold text.now fault.place fault.kind) }
{
    if text.len() > MOST_BYTES {
        return Err(SyntaxFault {
            place: place_past(text, MOST_BYTES),
            kind: SyntaxKind::TooLong,
        });
    }
    let scanned = scan(alloc, text)?;
    match read(alloc, &scanned.tokens) {
        Ok(tree) => match scanned.fault {
            None => Ok(tree),
            Some(fault) => Err(no_token(fault)),
        },
        Err(Refusal::Memory) => Err(SyntaxFault::from(NoMemory)),
        Err(Refusal::Fault(Fault::TooDeep(left))) => Err(SyntaxFault {
            place: place_at(text, &scanned.tokens, left),
            kind: SyntaxKind::TooDeep,
        }),
        Err(Refusal::Fault(Fault::Unexpected(left))) => Err(unexpected(
            place_at(text, &scanned.tokens, left),
            left,
            scanned.fault,
        )),
    }
}

// A token that was not expected, or the end, unless a lexical fault is there.
fn unexpected(place: Place, left: usize, fault: Option<LexicalFault>) -> SyntaxFault
    ensures { (text : List ℕ) → IsStop text place left → fault ≡ (lexed text).fault → IsTold text result.place result.kind }
{
    match fault {
        Some(fault) if left == 0 => no_token(fault),
        _ => SyntaxFault {
            place,
            kind: SyntaxKind::Unexpected,
        },
    }
}

// A lexical fault as a fault of the text.
fn no_token(fault: LexicalFault) -> SyntaxFault
    ensures { (text : List ℕ) → IsNoToken text fault.place fault.kind → IsTold text result.place result.kind }
{
    let kind = match fault.kind {
        LexicalKind::BadByte => SyntaxKind::BadByte,
        LexicalKind::OpenComment => SyntaxKind::OpenComment,
        LexicalKind::BadLiteral => SyntaxKind::BadLiteral,
        LexicalKind::LiteralTooWide => SyntaxKind::LiteralTooWide,
        LexicalKind::LeftOut => SyntaxKind::LeftOut,
    };
    SyntaxFault {
        place: fault.place,
        kind,
    }
}

// The place behind the last byte.
fn end_of(text: &[u8]) -> Place
    requires { length text.now < 2 ^ 32 - 2 }
    ensures { result ≡ place_of text.now }
{
    place_behind(text, START, text.len())
}

// The place behind the first bytes.
fn place_past(text: &[u8], size: usize) -> Place
    requires within { size ≤ length text.now }
    requires limit { size < 2 ^ 32 - 2 }
    ensures { result ≡ place_of (take size text.now) }
{
    end_of(&text[..size])
}

// The place of the token that is so many tokens from the end; at 0 the place of the text's end.
fn place_at(text: &[u8], tokens: &[Token], left: usize) -> Place
    requires size { length text.now < 2 ^ 32 - 2 }
    requires within { left ≤ length tokens.now }
    ensures { result ≡ place_at text.now tokens.now left }
{
    match tokens.get(tokens.len() - left) {
        Some(token) => token.place,
        None => end_of(text),
    }
}
