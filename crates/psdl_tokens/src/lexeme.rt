// What stands at a place of a text.
ghost use Rattle.std.specs.Prelude.{◌≡◌, ◌≤◌, ◌<◌, ◌+◌, length, IfOk};
ghost use Rattle.psdl_tokens.specs.Alphabet.{run_at, first};
ghost use Rattle.psdl_tokens.specs.Lexis.{word_lexeme, identifier_lexeme, string_lexeme, comment_lexeme, mark_lexeme, comment_or_mark, lexeme, size_of};
ghost use Rattle.psdl_tokens.specs.Longest.{IsMarkLongest};

use crate::alphabet::{byte_at, is_blank, run_len};
use crate::comment::{closing, line_len};
use crate::cursor::begins_line;
use crate::names::{is_keyword, is_left_out};
use crate::numeral::integer_lexeme;
use crate::quoted::string_in;
use crate::spelling::{keyword_of, mark_at, mark_spelling};
use crate::token::TokenKind;
use pss_base::{Bytes, NoMemory};
use std::alloc::Global;

/// Why no token stands at a place of a text.
#[derive(Clone, Copy, Drop)]
pub enum LexicalKind {
    /// A byte that begins no token, among them a `_` without a letter behind it.
    BadByte,
    /// A `/*` without a `*/` behind it.
    OpenComment,
    /// An integer that is badly spelled, or a string that is not closed on its line or has a bad character.
    BadLiteral,
    /// An integer above 2^127 - 1.
    LiteralTooWide,
    /// A word that this language leaves out, or a line that begins with `#`.
    LeftOut,
}

/// What stands at a place of a text.
#[derive(Drop)]
pub enum Lexeme {
    /// A blank or a comment, of so many bytes.
    Gap(usize),
    /// A token of so many bytes.
    Found(TokenKind, usize),
    /// No token.
    Wrong(LexicalKind),
}

fn run_at(rest: &[u8]) -> &[u8]
    ensures run { result.now ≡ run_at rest.now }
    ensures within { length result.now ≤ length rest.now }
{
    &rest[..run_len(rest)]
}

#[tactic(auto, unfolding(crate::specs::Lexis::word_lexeme))]
fn word_lexeme(alloc: Global, word: &[u8]) -> Result<Lexeme, NoMemory>
    requires { 0 < length word.now }
    ensures lexeme { IfOk result (λ l. l ≡ word_lexeme word.now) }
    ensures size { IfOk result (λ l. (1 ≤ size_of l) × (size_of l ≤ length word.now)) }
{
    if let Some(keyword) = keyword_of(word) {
        return Ok(Lexeme::Found(TokenKind::Keyword(keyword), word.len()));
    }
    if is_keyword(word) {
        return Ok(Lexeme::Found(TokenKind::Miscased, word.len()));
    }
    if is_left_out(word) {
        return Ok(Lexeme::Wrong(LexicalKind::LeftOut));
    }
    Ok(Lexeme::Found(
        TokenKind::Identifier(Bytes::from_slice(alloc, word)?),
        word.len(),
    ))
}

#[tactic(auto, unfolding(crate::specs::Lexis::identifier_lexeme))]
fn identifier_lexeme(alloc: Global, rest: &[u8]) -> Result<Lexeme, NoMemory>
    ensures lexeme { IfOk result (λ l. l ≡ identifier_lexeme rest.now) }
    ensures size { IfOk result (λ l. (1 ≤ size_of l) × (size_of l ≤ length rest.now + 1)) }
{
    if !byte_at(rest, 0).is_ascii_alphabetic() {
        return Ok(Lexeme::Wrong(LexicalKind::BadByte));
    }
    let word = run_at(rest);
    Ok(Lexeme::Found(
        TokenKind::Identifier(Bytes::from_slice(alloc, word)?),
        word.len() + 1,
    ))
}

#[tactic(auto, unfolding(crate::specs::Lexis::string_lexeme))]
fn string_lexeme(alloc: Global, rest: &[u8]) -> Result<Lexeme, NoMemory>
    ensures lexeme { IfOk result (λ l. l ≡ string_lexeme rest.now) }
    ensures size { IfOk result (λ l. (1 ≤ size_of l) × (size_of l ≤ length rest.now + 1)) }
{
    Ok(match string_in(alloc, rest)? {
        Some(string) => Lexeme::Found(TokenKind::Text(string.bytes), string.size + 1),
        None => Lexeme::Wrong(LexicalKind::BadLiteral),
    })
}

#[tactic(auto, unfolding(crate::specs::Lexis::comment_lexeme))]
fn comment_lexeme(rest: &[u8]) -> Lexeme
    ensures lexeme { result ≡ comment_lexeme rest.now }
    ensures size { (1 ≤ size_of result) × (size_of result ≤ length rest.now + 2) }
{
    match closing(rest) {
        Some(size) => Lexeme::Gap(size + 2),
        None => Lexeme::Wrong(LexicalKind::OpenComment),
    }
}

#[tactic(auto, unfolding(crate::specs::Lexis::mark_lexeme))]
fn mark_lexeme(rest: &[u8]) -> Lexeme
    requires { 0 < length rest.now }
    ensures lexeme { result ≡ mark_lexeme rest.now }
    ensures size { (1 ≤ size_of result) × (size_of result ≤ length rest.now) }
{
    match mark_at(rest) {
        Some(mark) => Lexeme::Found(TokenKind::Mark(mark), mark_spelling(mark).len()),
        None => Lexeme::Wrong(LexicalKind::BadByte),
    }
}

#[tactic(auto, unfolding(crate::specs::Lexis::comment_or_mark))]
fn comment_or_mark(front: &[u8], rest: &[u8]) -> Lexeme
    requires { 0 < length rest.now }
    ensures lexeme { result ≡ comment_or_mark front.now rest.now }
    ensures size { (1 ≤ size_of result) × (size_of result ≤ length rest.now) }
{
    let first = rest[0];
    if first == b'/' && byte_at(rest, 1) == b'*' {
        return comment_lexeme(&rest[2..]);
    }
    if first == b'/' && byte_at(rest, 1) == b'/' {
        return Lexeme::Gap(line_len(rest));
    }
    if first == b'#' && begins_line(front) {
        return Lexeme::Wrong(LexicalKind::LeftOut);
    }
    mark_lexeme(rest)
}

/// What stands behind the bytes in front, at the first byte of the rest.
#[tactic(auto, unfolding(crate::specs::Lexis::lexeme))]
pub(crate) fn lexeme_at(alloc: Global, front: &[u8], rest: &[u8]) -> Result<Lexeme, NoMemory>
    requires { 0 < length rest.now }
    ensures lexeme { IfOk result (λ l. l ≡ lexeme front.now rest.now) }
    ensures size { IfOk result (λ l. (1 ≤ size_of l) × (size_of l ≤ length rest.now)) }
{
    let first = rest[0];
    if is_blank(first) {
        return Ok(Lexeme::Gap(1));
    }
    if first.is_ascii_alphabetic() {
        return word_lexeme(alloc, run_at(rest));
    }
    if first == b'_' {
        return identifier_lexeme(alloc, &rest[1..]);
    }
    if first.is_ascii_digit() {
        return Ok(integer_lexeme(run_at(rest)));
    }
    if first == b'"' {
        return string_lexeme(alloc, &rest[1..]);
    }
    Ok(comment_or_mark(front, rest))
}

/// A mark that is the token at a place of a text is the longest that stands there: `>>` is not taken as `>`, nor `::`
/// as `:`. The function does nothing: its contract is the law.
pub fn a_mark_is_the_longest()
    ensures { IsMarkLongest }
{}
