// Members of storage types and homes.
ghost use Rattle.std.specs.Prelude.{◌≡◌, ◌-◌, map, option_map};
ghost use Rattle.part_readers.specs.Reading.{Gives, starts, both, optional};
ghost use Rattle.psdl_syntax.specs.Seen.{seen};
ghost use Rattle.psdl_tree.specs.Views.{state_view, parameter_view, parameters_view, operation_result_view, operation_view, key_members_view, key_view, factory_view, identifiers_view};
ghost use Rattle.psdl_syntax.specs.Productions.{is_mark, is_state, is_direction, is_identifier, behind_sign, state_at, readonly_at, direction_at, parameter_at, parameters_at, operation_result_at, operation_parameters_at, operation_at, key_members_at, key_at, factory_members_at, factory_at, identifiers_at, identifier_at, sign_at};
ghost use Rattle.psdl_tree.specs.Trees as trees;
ghost use Rattle.psdl_tokens.specs.declared.token.Mark.TheVariants as marks;

use super::lists::{Part, Start, parts_of};
use super::names::identifiers_of;
use super::types::state_type_of;
use super::words::{
    Read, at_identifier, at_keyword, at_mark, before, behind_keyword, identifier_of, keyword_of,
    mark_of, open_paren_of,
};
use psdl_tokens::{Keyword, Mark, Token};
use psdl_tree::{
    Direction, Factory, Identifier, Identifiers, Key, KeyMembers, Operation, OperationResult,
    Parameter, Parameters, State,
};
use pss_base::Place;
use std::alloc::Global;

/// Whether a state stands here.
pub(super) fn at_state(tokens: &[Token]) -> bool
    ensures { result ≡ starts is_state (map seen tokens.now) }
{
    at_keyword(Keyword::ReadOnly, tokens) || at_keyword(Keyword::State, tokens)
}

#[tactic(auto, unfolding(crate::specs::Productions::readonly_at))]
fn readonly_of(tokens: &[Token]) -> Read<'_, bool>
    ensures { Gives (λ x. (x.0, map seen x.1.now)) result (readonly_at (map seen tokens.now)) }
{
    match behind_keyword(Keyword::ReadOnly, tokens) {
        Some(rest) => Ok((true, rest)),
        None => Ok((false, tokens)),
    }
}

impl Part for State {
    ghost View = { trees.State };

    ghost part_view = { state_view };

    ghost part_at = { state_at };

    #[tactic(auto, unfolding(crate::specs::Productions::state_at))]
    fn part_of(alloc: Global, depth: u32, tokens: &[Token]) -> Read<'_, State> {
        let (readonly, rest) = readonly_of(tokens)?;
        let rest = keyword_of(Keyword::State, rest)?;
        let (state_type, rest) = state_type_of(alloc, depth, rest)?;
        let (names, rest) = identifiers_of(alloc, rest)?;
        let state = State {
            readonly,
            state_type,
            names,
        };
        let (state, rest) = before(Mark::Semicolon, state, rest)?;
        Ok((state, rest))
    }
}

fn at_direction(tokens: &[Token]) -> bool
    ensures { result ≡ starts is_direction (map seen tokens.now) }
{
    at_keyword(Keyword::In, tokens)
        || at_keyword(Keyword::Out, tokens)
        || at_keyword(Keyword::InOut, tokens)
}

#[tactic(auto, unfolding(crate::specs::Productions::direction_at))]
fn direction_of(tokens: &[Token]) -> Read<'_, Direction>
    ensures { Gives (λ x. (x.0, map seen x.1.now)) result (direction_at (map seen tokens.now)) }
{
    if let Some(rest) = behind_keyword(Keyword::In, tokens) {
        return Ok((Direction::In, rest));
    }
    if let Some(rest) = behind_keyword(Keyword::Out, tokens) {
        return Ok((Direction::Out, rest));
    }
    let rest = keyword_of(Keyword::InOut, tokens)?;
    Ok((Direction::InOut, rest))
}

#[tactic(auto, unfolding(crate::specs::Productions::parameter_at))]
fn parameter_of(alloc: Global, depth: u32, tokens: &[Token]) -> Read<'_, Parameter>
    ensures { Gives (λ x. (parameter_view x.0, map seen x.1.now)) result (parameter_at depth (map seen tokens.now)) }
{
    let (direction, rest) = direction_of(tokens)?;
    let (parameter_type, rest) = state_type_of(alloc, depth, rest)?;
    let (name, rest) = identifier_of(rest)?;
    let parameter = Parameter {
        direction,
        parameter_type,
        name,
    };
    Ok((parameter, rest))
}

impl Part for Parameter {
    ghost View = { trees.Parameter };

    ghost part_view = { parameter_view };

    ghost part_at = { λ depth. behind_sign marks.Comma (parameter_at depth) };

    fn part_of(alloc: Global, depth: u32, tokens: &[Token]) -> Read<'_, Parameter> {
        let rest = mark_of(Mark::Comma, tokens)?;
        parameter_of(alloc, depth, rest)
    }
}

#[tactic(auto, unfolding(crate::specs::Productions::parameters_at))]
fn parameters_of(alloc: Global, depth: u32, tokens: &[Token]) -> Read<'_, Parameters>
    ensures { Gives (λ x. (parameters_view x.0, map seen x.1.now)) result (parameters_at depth (map seen tokens.now)) }
{
    let (first, rest) = parameter_of(alloc, depth, tokens)?;
    let (others, rest) = parts_of(alloc, depth, Start::At(Mark::Comma), rest)?;
    Ok((Parameters { first, others }, rest))
}

fn optional_parameters_of(
    alloc: Global,
    depth: u32,
    tokens: &[Token],
) -> Read<'_, Option<Parameters>>
    ensures { Gives (λ x. (option_map parameters_view x.0, map seen x.1.now)) result (optional is_direction (parameters_at depth) (map seen tokens.now)) }
{
    if at_direction(tokens) {
        let (parameters, rest) = parameters_of(alloc, depth, tokens)?;
        return Ok((Some(parameters), rest));
    }
    Ok((None, tokens))
}

#[tactic(auto, unfolding(crate::specs::Productions::operation_parameters_at))]
fn operation_parameters_of(
    alloc: Global,
    depth: u32,
    tokens: &[Token],
) -> Read<'_, (Place, Option<Parameters>)>
    ensures { Gives (λ x. ((x.0.0, option_map parameters_view x.0.1), map seen x.1.now)) result (operation_parameters_at depth (map seen tokens.now)) }
{
    let (place, rest) = open_paren_of(depth, tokens)?;
    let (parameters, rest) = optional_parameters_of(alloc, depth - 1, rest)?;
    let (parameters, rest) = before(Mark::RightParen, parameters, rest)?;
    Ok(((place, parameters), rest))
}

#[tactic(auto, unfolding(crate::specs::Productions::operation_result_at))]
fn operation_result_of(alloc: Global, depth: u32, tokens: &[Token]) -> Read<'_, OperationResult>
    ensures { Gives (λ x. (operation_result_view x.0, map seen x.1.now)) result (operation_result_at depth (map seen tokens.now)) }
{
    if let Some(rest) = behind_keyword(Keyword::Void, tokens) {
        return Ok((OperationResult::Void, rest));
    }
    let (state_type, rest) = state_type_of(alloc, depth, tokens)?;
    Ok((OperationResult::State(state_type), rest))
}

// An operation without what it returns, up to its end.
fn signature_of(
    alloc: Global,
    depth: u32,
    tokens: &[Token],
) -> Read<'_, (Identifier, (Place, Option<Parameters>))>
    ensures { Gives (λ x. ((x.0.0, ((x.0.1.0, option_map parameters_view x.0.1.1), tt)), map seen x.1.now)) result (both identifier_at (both (operation_parameters_at depth) (sign_at marks.Semicolon)) (map seen tokens.now)) }
{
    let (name, rest) = identifier_of(tokens)?;
    let (parameters, rest) = operation_parameters_of(alloc, depth, rest)?;
    let (signature, rest) = before(Mark::Semicolon, (name, parameters), rest)?;
    Ok((signature, rest))
}

#[tactic(auto, unfolding(crate::specs::Productions::operation_at))]
pub(super) fn operation_of(alloc: Global, depth: u32, tokens: &[Token]) -> Read<'_, Operation>
    ensures { Gives (λ x. (operation_view x.0, map seen x.1.now)) result (operation_at depth (map seen tokens.now)) }
{
    let (returned, rest) = operation_result_of(alloc, depth, tokens)?;
    let ((name, (place, parameters)), rest) = signature_of(alloc, depth, rest)?;
    let operation = Operation {
        returned,
        name,
        place,
        parameters,
    };
    Ok((operation, rest))
}

#[tactic(auto, unfolding(crate::specs::Productions::key_members_at))]
fn key_members_of(alloc: Global, depth: u32, tokens: &[Token]) -> Read<'_, KeyMembers>
    ensures { Gives (λ x. (key_members_view x.0, map seen x.1.now)) result (key_members_at depth (map seen tokens.now)) }
{
    let (place, rest) = open_paren_of(depth, tokens)?;
    let (names, rest) = identifiers_of(alloc, rest)?;
    let (names, rest) = before(Mark::RightParen, names, rest)?;
    Ok((KeyMembers { place, names }, rest))
}

fn optional_key_members_of(
    alloc: Global,
    depth: u32,
    tokens: &[Token],
) -> Read<'_, Option<KeyMembers>>
    ensures { Gives (λ x. (option_map key_members_view x.0, map seen x.1.now)) result (optional (is_mark marks.LeftParen) (key_members_at depth) (map seen tokens.now)) }
{
    if at_mark(Mark::LeftParen, tokens) {
        let (members, rest) = key_members_of(alloc, depth, tokens)?;
        return Ok((Some(members), rest));
    }
    Ok((None, tokens))
}

#[tactic(auto, unfolding(crate::specs::Productions::key_at))]
pub(super) fn key_of(alloc: Global, depth: u32, tokens: &[Token]) -> Read<'_, Key>
    ensures { Gives (λ x. (key_view x.0, map seen x.1.now)) result (key_at depth (map seen tokens.now)) }
{
    let rest = keyword_of(Keyword::Key, tokens)?;
    let (name, rest) = identifier_of(rest)?;
    let (members, rest) = optional_key_members_of(alloc, depth, rest)?;
    let key = Key { name, members };
    let (key, rest) = before(Mark::Semicolon, key, rest)?;
    Ok((key, rest))
}

fn optional_identifiers_of(alloc: Global, tokens: &[Token]) -> Read<'_, Option<Identifiers>>
    ensures { Gives (λ x. (option_map identifiers_view x.0, map seen x.1.now)) result (optional is_identifier identifiers_at (map seen tokens.now)) }
{
    if at_identifier(tokens) {
        let (names, rest) = identifiers_of(alloc, tokens)?;
        return Ok((Some(names), rest));
    }
    Ok((None, tokens))
}

#[tactic(auto, unfolding(crate::specs::Productions::factory_members_at))]
fn factory_members_of(
    alloc: Global,
    depth: u32,
    tokens: &[Token],
) -> Read<'_, (Place, Option<Identifiers>)>
    ensures { Gives (λ x. ((x.0.0, option_map identifiers_view x.0.1), map seen x.1.now)) result (factory_members_at depth (map seen tokens.now)) }
{
    let (place, rest) = open_paren_of(depth, tokens)?;
    let (members, rest) = optional_identifiers_of(alloc, rest)?;
    let (members, rest) = before(Mark::RightParen, members, rest)?;
    Ok(((place, members), rest))
}

#[tactic(auto, unfolding(crate::specs::Productions::factory_at))]
pub(super) fn factory_of(alloc: Global, depth: u32, tokens: &[Token]) -> Read<'_, Factory>
    ensures { Gives (λ x. (factory_view x.0, map seen x.1.now)) result (factory_at depth (map seen tokens.now)) }
{
    let rest = keyword_of(Keyword::Factory, tokens)?;
    let (name, rest) = identifier_of(rest)?;
    let ((place, members), rest) = factory_members_of(alloc, depth, rest)?;
    let factory = Factory {
        name,
        place,
        members,
    };
    let (factory, rest) = before(Mark::Semicolon, factory, rest)?;
    Ok((factory, rest))
}
