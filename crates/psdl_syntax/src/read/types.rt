// Types and declarators.
ghost use Rattle.std.specs.Prelude.{◌≡◌, map, option_map};
ghost use Rattle.part_readers.specs.Reading.{Gives, starts};
ghost use Rattle.psdl_syntax.specs.Seen.{seen};
ghost use Rattle.psdl_tree.specs.Views.{expression_view, name_view, plain_type_view, type_spec_view, state_type_view, declarator_view, declarators_view, field_view};
ghost use Rattle.psdl_syntax.specs.Productions.{is_integer, behind_sign, integer_size_at, integer_at, bound_at, string_at, plain_type_at, sequence_with, sequence_inside, sequence_inner_at, comma_bound_at, type_spec_with, type_spec_at, reference_at, state_type_at, dimension_at, declarator_at, declarators_at, field_at, fields_at};
ghost use Rattle.psdl_tree.specs.Trees as trees;
ghost use Rattle.psdl_tokens.specs.declared.token.Mark.TheVariants as marks;

use super::expressions::expression_of;
use super::lists::{Part, Start, parts_of};
use super::names::name_of;
use super::words::{
    Read, at_keyword, at_mark, before, behind_keyword, identifier_of, keyword_of, mark_of, open_of,
};
use psdl_tokens::{Keyword, Mark, Token};
use psdl_tree::{
    Declarator, Declarators, Expression, Field, IntegerSize, IntegerType, Name, PlainType,
    StateType, TypeSpec,
};
use std::alloc::Global;

#[tactic(auto, unfolding(crate::specs::Productions::integer_size_at))]
fn integer_size_of(tokens: &[Token]) -> Read<'_, IntegerSize>
    ensures { Gives (λ x. (x.0, map seen x.1.now)) result (integer_size_at (map seen tokens.now)) }
{
    if let Some(rest) = behind_keyword(Keyword::Short, tokens) {
        return Ok((IntegerSize::Short, rest));
    }
    let rest = keyword_of(Keyword::Long, tokens)?;
    match behind_keyword(Keyword::Long, rest) {
        Some(rest) => Ok((IntegerSize::LongLong, rest)),
        None => Ok((IntegerSize::Long, rest)),
    }
}

#[tactic(auto, unfolding(crate::specs::Productions::integer_at))]
pub(super) fn integer_type_of(tokens: &[Token]) -> Read<'_, IntegerType>
    ensures { Gives (λ x. (x.0, map seen x.1.now)) result (integer_at (map seen tokens.now)) }
{
    if let Some(rest) = behind_keyword(Keyword::Unsigned, tokens) {
        let (size, rest) = integer_size_of(rest)?;
        let integer = IntegerType {
            unsigned: true,
            size,
        };
        return Ok((integer, rest));
    }
    let (size, rest) = integer_size_of(tokens)?;
    let integer = IntegerType {
        unsigned: false,
        size,
    };
    Ok((integer, rest))
}

/// Whether an integer type stands here.
pub(super) fn at_integer_type(tokens: &[Token]) -> bool
    ensures { result ≡ starts is_integer (map seen tokens.now) }
{
    at_keyword(Keyword::Unsigned, tokens)
        || at_keyword(Keyword::Short, tokens)
        || at_keyword(Keyword::Long, tokens)
}

#[tactic(auto, unfolding(crate::specs::Productions::bound_at))]
fn bound_of(alloc: Global, depth: u32, tokens: &[Token]) -> Read<'_, Expression>
    ensures { Gives (λ x. (expression_view x.0, map seen x.1.now)) result (bound_at depth (map seen tokens.now)) }
{
    let rest = open_of(Mark::Less, depth, tokens)?;
    let (bound, rest) = expression_of(alloc, depth - 1, rest)?;
    let (bound, rest) = before(Mark::Greater, bound, rest)?;
    Ok((bound, rest))
}

#[tactic(auto, unfolding(crate::specs::Productions::string_at))]
fn string_of(alloc: Global, depth: u32, tokens: &[Token]) -> Read<'_, Option<Expression>>
    ensures { Gives (λ x. (option_map expression_view x.0, map seen x.1.now)) result (string_at depth (map seen tokens.now)) }
{
    let rest = keyword_of(Keyword::String, tokens)?;
    if at_mark(Mark::Less, rest) {
        let (bound, rest) = bound_of(alloc, depth, rest)?;
        return Ok((Some(bound), rest));
    }
    Ok((None, rest))
}

#[tactic(auto, unfolding(crate::specs::Productions::plain_type_at))]
fn plain_type_of(alloc: Global, depth: u32, tokens: &[Token]) -> Read<'_, PlainType>
    ensures { Gives (λ x. (plain_type_view x.0, map seen x.1.now)) result (plain_type_at depth (map seen tokens.now)) }
{
    if at_integer_type(tokens) {
        let (integer, rest) = integer_type_of(tokens)?;
        return Ok((PlainType::Integer(integer), rest));
    }
    if let Some(rest) = behind_keyword(Keyword::Char, tokens) {
        return Ok((PlainType::Char, rest));
    }
    if let Some(rest) = behind_keyword(Keyword::Boolean, tokens) {
        return Ok((PlainType::Boolean, rest));
    }
    if let Some(rest) = behind_keyword(Keyword::Octet, tokens) {
        return Ok((PlainType::Octet, rest));
    }
    if at_keyword(Keyword::String, tokens) {
        let (bound, rest) = string_of(alloc, depth, tokens)?;
        return Ok((PlainType::String(bound), rest));
    }
    let (name, rest) = name_of(alloc, tokens)?;
    Ok((PlainType::Name(name), rest))
}

#[tactic(auto, unfolding(crate::specs::Productions::comma_bound_at))]
fn comma_bound_of(alloc: Global, depth: u32, tokens: &[Token]) -> Read<'_, Option<Expression>>
    ensures { Gives (λ x. (option_map expression_view x.0, map seen x.1.now)) result (comma_bound_at depth (map seen tokens.now)) }
{
    if at_mark(Mark::Comma, tokens) {
        let rest = mark_of(Mark::Comma, tokens)?;
        let (bound, rest) = expression_of(alloc, depth, rest)?;
        return Ok((Some(bound), rest));
    }
    Ok((None, tokens))
}

#[cycle(type_specs)]
#[tactic(auto, unfolding(crate::specs::Productions::sequence_inner_at))]
fn sequence_inner_of(
    alloc: Global,
    depth: u32,
    tokens: &[Token],
) -> Read<'_, (TypeSpec, Option<Expression>)>
    ensures { Gives (λ x. ((type_spec_view x.0.0, option_map expression_view x.0.1), map seen x.1.now)) result (sequence_inner_at depth (map seen tokens.now)) }
{
    let (item, rest) = type_spec_of(alloc, depth, tokens)?;
    let (bound, rest) = comma_bound_of(alloc, depth, rest)?;
    Ok(((item, bound), rest))
}

#[cycle(type_specs)]
#[tactic(auto, unfolding(crate::specs::Productions::sequence_with), using(crate::proofs::Depths::sequence_inside_is))]
fn sequence_of(
    alloc: Global,
    depth: u32,
    tokens: &[Token],
) -> Read<'_, (TypeSpec, Option<Expression>)>
    ensures { Gives (λ x. ((type_spec_view x.0.0, option_map expression_view x.0.1), map seen x.1.now)) result (sequence_with (sequence_inside depth) depth (map seen tokens.now)) }
{
    let rest = keyword_of(Keyword::Sequence, tokens)?;
    let rest = open_of(Mark::Less, depth, rest)?;
    let (inner, rest) = sequence_inner_of(alloc, depth - 1, rest)?;
    let (inner, rest) = before(Mark::Greater, inner, rest)?;
    Ok((inner, rest))
}

#[cycle(type_specs)]
#[tactic(auto, unfolding(crate::specs::Productions::type_spec_at, crate::specs::Productions::type_spec_with))]
pub(super) fn type_spec_of(alloc: Global, depth: u32, tokens: &[Token]) -> Read<'_, TypeSpec>
    ensures { Gives (λ x. (type_spec_view x.0, map seen x.1.now)) result (type_spec_at depth (map seen tokens.now)) }
{
    if at_keyword(Keyword::Sequence, tokens) {
        let ((item, bound), rest) = sequence_of(alloc, depth, tokens)?;
        return Ok((TypeSpec::Sequence(Box::new(alloc, item)?, bound), rest));
    }
    let (plain, rest) = plain_type_of(alloc, depth, tokens)?;
    Ok((TypeSpec::Plain(plain), rest))
}

#[tactic(auto, unfolding(crate::specs::Productions::reference_at))]
fn reference_of(alloc: Global, depth: u32, tokens: &[Token]) -> Read<'_, Name>
    ensures { Gives (λ x. (name_view x.0, map seen x.1.now)) result (reference_at depth (map seen tokens.now)) }
{
    let rest = keyword_of(Keyword::Ref, tokens)?;
    let rest = open_of(Mark::Less, depth, rest)?;
    let (name, rest) = name_of(alloc, rest)?;
    let (name, rest) = before(Mark::Greater, name, rest)?;
    Ok((name, rest))
}

#[tactic(auto, unfolding(crate::specs::Productions::state_type_at))]
pub(super) fn state_type_of(alloc: Global, depth: u32, tokens: &[Token]) -> Read<'_, StateType>
    ensures { Gives (λ x. (state_type_view x.0, map seen x.1.now)) result (state_type_at depth (map seen tokens.now)) }
{
    if at_keyword(Keyword::Ref, tokens) {
        let (name, rest) = reference_of(alloc, depth, tokens)?;
        return Ok((StateType::Reference(name), rest));
    }
    let (plain, rest) = plain_type_of(alloc, depth, tokens)?;
    Ok((StateType::Plain(plain), rest))
}

// A dimension.
impl Part for Expression {
    ghost View = { trees.Expression };

    ghost part_view = { expression_view };

    ghost part_at = { dimension_at };

    #[tactic(auto, unfolding(crate::specs::Productions::dimension_at))]
    fn part_of(alloc: Global, depth: u32, tokens: &[Token]) -> Read<'_, Expression> {
        let rest = open_of(Mark::LeftBracket, depth, tokens)?;
        let (size, rest) = expression_of(alloc, depth - 1, rest)?;
        let (size, rest) = before(Mark::RightBracket, size, rest)?;
        Ok((size, rest))
    }
}

#[tactic(auto, unfolding(crate::specs::Productions::declarator_at))]
fn declarator_of(alloc: Global, depth: u32, tokens: &[Token]) -> Read<'_, Declarator>
    ensures { Gives (λ x. (declarator_view x.0, map seen x.1.now)) result (declarator_at depth (map seen tokens.now)) }
{
    let (name, rest) = identifier_of(tokens)?;
    let (dimensions, rest) = parts_of(alloc, depth, Start::At(Mark::LeftBracket), rest)?;
    Ok((Declarator { name, dimensions }, rest))
}

impl Part for Declarator {
    ghost View = { trees.Declarator };

    ghost part_view = { declarator_view };

    ghost part_at = { λ depth. behind_sign marks.Comma (declarator_at depth) };

    fn part_of(alloc: Global, depth: u32, tokens: &[Token]) -> Read<'_, Declarator> {
        let rest = mark_of(Mark::Comma, tokens)?;
        declarator_of(alloc, depth, rest)
    }
}

#[tactic(auto, unfolding(crate::specs::Productions::declarators_at))]
pub(super) fn declarators_of(alloc: Global, depth: u32, tokens: &[Token]) -> Read<'_, Declarators>
    ensures { Gives (λ x. (declarators_view x.0, map seen x.1.now)) result (declarators_at depth (map seen tokens.now)) }
{
    let (first, rest) = declarator_of(alloc, depth, tokens)?;
    let (others, rest) = parts_of(alloc, depth, Start::At(Mark::Comma), rest)?;
    Ok((Declarators { first, others }, rest))
}

impl Part for Field {
    ghost View = { trees.Field };

    ghost part_view = { field_view };

    ghost part_at = { field_at };

    #[tactic(auto, unfolding(crate::specs::Productions::field_at))]
    fn part_of(alloc: Global, depth: u32, tokens: &[Token]) -> Read<'_, Field> {
        let (spec, rest) = type_spec_of(alloc, depth, tokens)?;
        let (declarators, rest) = declarators_of(alloc, depth, rest)?;
        let field = Field { spec, declarators };
        let (field, rest) = before(Mark::Semicolon, field, rest)?;
        Ok((field, rest))
    }
}

#[tactic(auto, unfolding(crate::specs::Productions::fields_at))]
pub(super) fn fields_of(
    alloc: Global,
    depth: u32,
    tokens: &[Token],
) -> Read<'_, (Field, Vec<Field>)>
    ensures { Gives (λ x. ((field_view x.0.0, map field_view x.0.1.items), map seen x.1.now)) result (fields_at depth (map seen tokens.now)) }
{
    let (first, rest) = Field::part_of(alloc, depth, tokens)?;
    let (others, rest) = parts_of(alloc, depth, Start::Inside, rest)?;
    Ok(((first, others), rest))
}
