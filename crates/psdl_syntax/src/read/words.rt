// One token, and whether it is the next.
ghost use Rattle.std.specs.Prelude.{◌≡◌, ◌<◌, IfOk, IfSome, OnOk, Ok, is_some, false, true, map, length};
ghost use Rattle.part_readers.specs.Reading.{Gives, starts};
ghost use Rattle.psdl_syntax.specs.Codes.{same_keyword, same_mark};
ghost use Rattle.psdl_syntax.specs.Seen.{seen, keeps_place};
ghost use Rattle.psdl_syntax.specs.Productions.{is_word, is_mark, is_inside, is_identifier, is_name, is_number, is_quoted, word_at, sign_at, place_at, sign_part, place_part, opened, identifier_at, number_at, quoted_at};
ghost use Rattle.psdl_tokens.specs.declared.token.Mark.TheVariants as marks;

use crate::Fault;
use part_readers::Refusal;
use psdl_tokens::{Keyword, Mark, Token, TokenKind};
use psdl_tree::{Identifier, IntegerLiteral, TextLiteral};
use pss_base::{NoMemory, Place};

/// What was read, and the tokens behind it.
pub(super) type Read<'a, T> = Result<(T, &'a [Token]), Refusal<Fault>>;

fn same_keyword(one: Keyword, other: Keyword) -> bool
    ensures { result ≡ same_keyword one other }
{
    one as u8 == other as u8
}

fn same_mark(one: Mark, other: Mark) -> bool
    ensures { result ≡ same_mark one other }
{
    one as u8 == other as u8
}

// The token that was not expected is the first.
pub(super) fn unexpected<T>(tokens: &[Token]) -> Result<T, Refusal<Fault>>
    ensures { result ≡ Err (Refusal.Fault (Fault.Unexpected (length tokens.now))) }
{
    Err(Refusal::Fault(Fault::Unexpected(tokens.len())))
}

pub(super) fn at_keyword(keyword: Keyword, tokens: &[Token]) -> bool
    ensures { result ≡ starts (is_word keyword) (map seen tokens.now) }
{
    match tokens {
        [token, ..] => match &token.kind {
            TokenKind::Keyword(first) => same_keyword(*first, keyword),
            _ => false,
        },
        [] => false,
    }
}

pub(super) fn at_mark(mark: Mark, tokens: &[Token]) -> bool
    ensures { result ≡ starts (is_mark mark) (map seen tokens.now) }
{
    match tokens {
        [token, ..] => match &token.kind {
            TokenKind::Mark(first) => same_mark(*first, mark),
            _ => false,
        },
        [] => false,
    }
}

#[tactic(auto, unfolding(crate::specs::Productions::word_at))]
pub(super) fn keyword_of(keyword: Keyword, tokens: &[Token]) -> Result<&[Token], Refusal<Fault>>
    ensures { Gives (λ x. (tt, map seen x.now)) result (word_at keyword (map seen tokens.now)) }
{
    match tokens {
        [token, rest @ ..] => match &token.kind {
            TokenKind::Keyword(first) if same_keyword(*first, keyword) => Ok(rest),
            _ => unexpected(tokens),
        },
        [] => unexpected(tokens),
    }
}

/// What stands behind a keyword, where it is the next token.
#[tactic(auto, unfolding(crate::specs::Productions::word_at))]
pub(super) fn behind_keyword(keyword: Keyword, tokens: &[Token]) -> Option<&[Token]>
    ensures there { is_some result ≡ starts (is_word keyword) (map seen tokens.now) }
    ensures read { IfSome result (λ x. word_at keyword (map seen tokens.now) ≡ Ok (tt, map seen x.now)) }
{
    match tokens {
        [token, rest @ ..] => match &token.kind {
            TokenKind::Keyword(first) if same_keyword(*first, keyword) => Some(rest),
            _ => None,
        },
        [] => None,
    }
}

pub(super) fn at_identifier(tokens: &[Token]) -> bool
    ensures { result ≡ starts is_identifier (map seen tokens.now) }
{
    match tokens {
        [token, ..] => matches!(&token.kind, TokenKind::Identifier(_)),
        [] => false,
    }
}

pub(super) fn at_name(tokens: &[Token]) -> bool
    ensures { result ≡ starts is_name (map seen tokens.now) }
{
    at_mark(Mark::Scope, tokens) || at_identifier(tokens)
}

pub(super) fn at_integer(tokens: &[Token]) -> bool
    ensures { result ≡ starts is_number (map seen tokens.now) }
{
    match tokens {
        [token, ..] => matches!(&token.kind, TokenKind::Integer(_)),
        [] => false,
    }
}

pub(super) fn at_text(tokens: &[Token]) -> bool
    ensures { result ≡ starts is_quoted (map seen tokens.now) }
{
    match tokens {
        [token, ..] => matches!(&token.kind, TokenKind::Text(_)),
        [] => false,
    }
}

/// A sign whose place the tree does not keep.
#[tactic(auto, unfolding(crate::specs::Productions::sign_at))]
pub(super) fn mark_of(mark: Mark, tokens: &[Token]) -> Result<&[Token], Refusal<Fault>>
    requires { keeps_place mark ≡ false }
    ensures { Gives (λ x. (tt, map seen x.now)) result (sign_at mark (map seen tokens.now)) }
{
    match tokens {
        [token, rest @ ..] => match &token.kind {
            TokenKind::Mark(first) if same_mark(*first, mark) => Ok(rest),
            _ => unexpected(tokens),
        },
        [] => unexpected(tokens),
    }
}

/// What was read, in front of a sign whose place the tree does not keep.
pub(super) fn before<T: Drop>(mark: Mark, read: T, tokens: &[Token]) -> Read<'_, T>
    requires { keeps_place mark ≡ false }
    ensures kept { IfOk result (λ x. x.0 ≡ read) }
    ensures sign { Gives (λ x. (tt, map seen x.1.now)) result (sign_at mark (map seen tokens.now)) }
{
    match mark_of(mark, tokens) {
        Ok(rest) => Ok((read, rest)),
        Err(refusal) => Err(refusal),
    }
}

/// A sign whose place the tree keeps.
#[tactic(auto, unfolding(crate::specs::Productions::place_at))]
pub(super) fn place_of(mark: Mark, tokens: &[Token]) -> Read<'_, Place>
    requires { keeps_place mark ≡ true }
    ensures { Gives (λ x. (x.0, map seen x.1.now)) result (place_at mark (map seen tokens.now)) }
{
    match tokens {
        [token, rest @ ..] => match &token.kind {
            TokenKind::Mark(first) if same_mark(*first, mark) => Ok((token.place, rest)),
            _ => unexpected(tokens),
        },
        [] => unexpected(tokens),
    }
}

/// A bracket that opens, where so many may.
#[tactic(auto, unfolding(crate::specs::Productions::opened))]
pub(super) fn open_of(mark: Mark, depth: u32, tokens: &[Token]) -> Result<&[Token], Refusal<Fault>>
    requires { keeps_place mark ≡ false }
    ensures read { Gives (λ x. (tt, map seen x.now)) result (opened (sign_part mark) depth (map seen tokens.now)) }
    ensures room { OnOk result (0 < depth) }
{
    match tokens {
        [token, rest @ ..] => match &token.kind {
            TokenKind::Mark(first) if same_mark(*first, mark) => {
                if depth == 0 {
                    return Err(Refusal::Fault(Fault::TooDeep(tokens.len())));
                }
                Ok(rest)
            }
            _ => unexpected(tokens),
        },
        [] => unexpected(tokens),
    }
}

/// A `(`, where so many brackets may open.
#[tactic(auto, unfolding(crate::specs::Productions::opened))]
pub(super) fn open_paren_of(depth: u32, tokens: &[Token]) -> Read<'_, Place>
    ensures read { Gives (λ x. (x.0, map seen x.1.now)) result (opened (place_part marks.LeftParen) depth (map seen tokens.now)) }
    ensures room { OnOk result (0 < depth) }
{
    match tokens {
        [token, rest @ ..] => match &token.kind {
            TokenKind::Mark(first) if same_mark(*first, Mark::LeftParen) => {
                if depth == 0 {
                    return Err(Refusal::Fault(Fault::TooDeep(tokens.len())));
                }
                Ok((token.place, rest))
            }
            _ => unexpected(tokens),
        },
        [] => unexpected(tokens),
    }
}

#[tactic(auto, unfolding(crate::specs::Productions::identifier_at))]
pub(super) fn identifier_of(tokens: &[Token]) -> Read<'_, Identifier>
    ensures { Gives (λ x. (x.0, map seen x.1.now)) result (identifier_at (map seen tokens.now)) }
{
    match tokens {
        [token, rest @ ..] => match &token.kind {
            TokenKind::Identifier(name) => {
                let identifier = Identifier {
                    place: token.place,
                    name: name.copy()?,
                };
                Ok((identifier, rest))
            }
            _ => unexpected(tokens),
        },
        [] => unexpected(tokens),
    }
}

#[tactic(auto, unfolding(crate::specs::Productions::number_at))]
pub(super) fn integer_literal_of(tokens: &[Token]) -> Read<'_, IntegerLiteral>
    ensures { Gives (λ x. (x.0, map seen x.1.now)) result (number_at (map seen tokens.now)) }
{
    match tokens {
        [token, rest @ ..] => match &token.kind {
            TokenKind::Integer(value) => {
                let literal = IntegerLiteral {
                    place: token.place,
                    value: *value,
                };
                Ok((literal, rest))
            }
            _ => unexpected(tokens),
        },
        [] => unexpected(tokens),
    }
}

#[tactic(auto, unfolding(crate::specs::Productions::quoted_at))]
pub(super) fn text_literal_of(tokens: &[Token]) -> Read<'_, TextLiteral>
    ensures { Gives (λ x. (x.0, map seen x.1.now)) result (quoted_at (map seen tokens.now)) }
{
    match tokens {
        [token, rest @ ..] => match &token.kind {
            TokenKind::Text(bytes) => {
                let literal = TextLiteral {
                    place: token.place,
                    bytes: bytes.copy()?,
                };
                Ok((literal, rest))
            }
            _ => unexpected(tokens),
        },
        [] => unexpected(tokens),
    }
}

/// Whether a part stands here, and neither the brace that closes nor the end.
pub(super) fn before_brace(tokens: &[Token]) -> bool
    ensures { result ≡ starts is_inside (map seen tokens.now) }
{
    !tokens.is_empty() && !at_mark(Mark::RightBrace, tokens)
}
