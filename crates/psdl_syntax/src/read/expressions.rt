// Expressions.
ghost use Rattle.std.specs.Prelude.{map};
ghost use Rattle.part_readers.specs.Reading.{Gives, many};
ghost use Rattle.psdl_syntax.specs.Seen.{seen};
ghost use Rattle.psdl_tree.specs.Views.{group_view, primary_view, unary_view, product_view, sum_view, shift_view, and_view, xor_view, expression_view, product_part_view, sum_part_view, shift_part_view, and_part_view, xor_part_view, or_part_view};
ghost use Rattle.psdl_syntax.specs.Productions.{is_mark, is_operator, shift_operator, sum_operator, product_operator, operand_at, operator_operand_at, group_with, primary_with, unary_with, product_with, sum_with, shift_with, and_with, xor_with, expression_at, expression_inside};
ghost use Rattle.psdl_tokens.specs.declared.token.Mark.TheVariants as marks;

use super::lists::put_part;
use super::names::name_of;
use super::operators::{at_operator, operator_of, optional_sign_of};
use super::words::{
    Read, at_integer, at_mark, at_name, at_text, before, integer_literal_of, open_paren_of,
    place_of, text_literal_of,
};
use psdl_tokens::{Mark, Token};
use psdl_tree::{
    And, AndPart, Expression, Group, OrPart, Primary, Product, ProductOperator, ProductPart, Shift,
    ShiftOperator, ShiftPart, Sum, SumOperator, SumPart, Unary, Xor, XorPart,
};
use std::alloc::Global;

/// An expression, where so many brackets may open.
#[cycle(expressions)]
#[tactic(auto, unfolding(crate::specs::Productions::expression_at, crate::specs::Productions::expression_with))]
pub(super) fn expression_of(alloc: Global, depth: u32, tokens: &[Token]) -> Read<'_, Expression>
    ensures { Gives (λ x. (expression_view x.0, map seen x.1.now)) result (expression_at depth (map seen tokens.now)) }
{
    let (first, rest) = xor_of(alloc, depth, tokens)?;
    let (others, rest) = or_parts_of(alloc, depth, rest)?;
    Ok((Expression { first, others }, rest))
}

// Each level has its loop written out: `parts_of` knows its parts by a trait, and no proof follows a cycle of calls through a trait.
#[cycle(expressions)]
fn or_parts_of(alloc: Global, depth: u32, tokens: &[Token]) -> Read<'_, Vec<OrPart>>
    ensures { Gives (λ x. (map or_part_view x.0.items, map seen x.1.now)) result (many (is_mark marks.Or) (operand_at marks.Or (xor_with (expression_inside depth) depth)) (map seen tokens.now)) }
{
    let mut parts = Vec::new(alloc);
    let mut rest = tokens;
    for _ in 0..tokens.len() {
        if !at_mark(Mark::Or, rest) {
            return Ok((parts, rest));
        }
        let (place, after) = place_of(Mark::Or, rest)?;
        let (operand, after) = xor_of(alloc, depth, after)?;
        put_part(&mut parts, OrPart { place, operand })?;
        rest = after;
    }
    Ok((parts, rest))
}

#[cycle(expressions)]
#[tactic(auto, unfolding(crate::specs::Productions::xor_with))]
fn xor_of(alloc: Global, depth: u32, tokens: &[Token]) -> Read<'_, Xor>
    ensures { Gives (λ x. (xor_view x.0, map seen x.1.now)) result (xor_with (expression_inside depth) depth (map seen tokens.now)) }
{
    let (first, rest) = and_of(alloc, depth, tokens)?;
    let (others, rest) = xor_parts_of(alloc, depth, rest)?;
    Ok((Xor { first, others }, rest))
}

#[cycle(expressions)]
fn xor_parts_of(alloc: Global, depth: u32, tokens: &[Token]) -> Read<'_, Vec<XorPart>>
    ensures { Gives (λ x. (map xor_part_view x.0.items, map seen x.1.now)) result (many (is_mark marks.Xor) (operand_at marks.Xor (and_with (expression_inside depth) depth)) (map seen tokens.now)) }
{
    let mut parts = Vec::new(alloc);
    let mut rest = tokens;
    for _ in 0..tokens.len() {
        if !at_mark(Mark::Xor, rest) {
            return Ok((parts, rest));
        }
        let (place, after) = place_of(Mark::Xor, rest)?;
        let (operand, after) = and_of(alloc, depth, after)?;
        put_part(&mut parts, XorPart { place, operand })?;
        rest = after;
    }
    Ok((parts, rest))
}

#[cycle(expressions)]
#[tactic(auto, unfolding(crate::specs::Productions::and_with))]
fn and_of(alloc: Global, depth: u32, tokens: &[Token]) -> Read<'_, And>
    ensures { Gives (λ x. (and_view x.0, map seen x.1.now)) result (and_with (expression_inside depth) depth (map seen tokens.now)) }
{
    let (first, rest) = shift_of(alloc, depth, tokens)?;
    let (others, rest) = and_parts_of(alloc, depth, rest)?;
    Ok((And { first, others }, rest))
}

#[cycle(expressions)]
fn and_parts_of(alloc: Global, depth: u32, tokens: &[Token]) -> Read<'_, Vec<AndPart>>
    ensures { Gives (λ x. (map and_part_view x.0.items, map seen x.1.now)) result (many (is_mark marks.And) (operand_at marks.And (shift_with (expression_inside depth) depth)) (map seen tokens.now)) }
{
    let mut parts = Vec::new(alloc);
    let mut rest = tokens;
    for _ in 0..tokens.len() {
        if !at_mark(Mark::And, rest) {
            return Ok((parts, rest));
        }
        let (place, after) = place_of(Mark::And, rest)?;
        let (operand, after) = shift_of(alloc, depth, after)?;
        put_part(&mut parts, AndPart { place, operand })?;
        rest = after;
    }
    Ok((parts, rest))
}

#[cycle(expressions)]
#[tactic(auto, unfolding(crate::specs::Productions::shift_with))]
fn shift_of(alloc: Global, depth: u32, tokens: &[Token]) -> Read<'_, Shift>
    ensures { Gives (λ x. (shift_view x.0, map seen x.1.now)) result (shift_with (expression_inside depth) depth (map seen tokens.now)) }
{
    let (first, rest) = sum_of(alloc, depth, tokens)?;
    let (others, rest) = shift_parts_of(alloc, depth, rest)?;
    Ok((Shift { first, others }, rest))
}

#[cycle(expressions)]
fn shift_parts_of(alloc: Global, depth: u32, tokens: &[Token]) -> Read<'_, Vec<ShiftPart>>
    ensures { Gives (λ x. (map shift_part_view x.0.items, map seen x.1.now)) result (many (is_operator shift_operator) (operator_operand_at shift_operator (sum_with (expression_inside depth) depth)) (map seen tokens.now)) }
{
    let mut parts = Vec::new(alloc);
    let mut rest = tokens;
    for _ in 0..tokens.len() {
        if !at_operator::<ShiftOperator>(rest) {
            return Ok((parts, rest));
        }
        let ((place, operator), after) = operator_of(rest)?;
        let (operand, after) = sum_of(alloc, depth, after)?;
        put_part(
            &mut parts,
            ShiftPart {
                place,
                operator,
                operand,
            },
        )?;
        rest = after;
    }
    Ok((parts, rest))
}

#[cycle(expressions)]
#[tactic(auto, unfolding(crate::specs::Productions::sum_with))]
fn sum_of(alloc: Global, depth: u32, tokens: &[Token]) -> Read<'_, Sum>
    ensures { Gives (λ x. (sum_view x.0, map seen x.1.now)) result (sum_with (expression_inside depth) depth (map seen tokens.now)) }
{
    let (first, rest) = product_of(alloc, depth, tokens)?;
    let (others, rest) = sum_parts_of(alloc, depth, rest)?;
    Ok((Sum { first, others }, rest))
}

#[cycle(expressions)]
fn sum_parts_of(alloc: Global, depth: u32, tokens: &[Token]) -> Read<'_, Vec<SumPart>>
    ensures { Gives (λ x. (map sum_part_view x.0.items, map seen x.1.now)) result (many (is_operator sum_operator) (operator_operand_at sum_operator (product_with (expression_inside depth) depth)) (map seen tokens.now)) }
{
    let mut parts = Vec::new(alloc);
    let mut rest = tokens;
    for _ in 0..tokens.len() {
        if !at_operator::<SumOperator>(rest) {
            return Ok((parts, rest));
        }
        let ((place, operator), after) = operator_of(rest)?;
        let (operand, after) = product_of(alloc, depth, after)?;
        put_part(
            &mut parts,
            SumPart {
                place,
                operator,
                operand,
            },
        )?;
        rest = after;
    }
    Ok((parts, rest))
}

#[cycle(expressions)]
#[tactic(auto, unfolding(crate::specs::Productions::product_with))]
fn product_of(alloc: Global, depth: u32, tokens: &[Token]) -> Read<'_, Product>
    ensures { Gives (λ x. (product_view x.0, map seen x.1.now)) result (product_with (expression_inside depth) depth (map seen tokens.now)) }
{
    let (first, rest) = unary_of(alloc, depth, tokens)?;
    let (others, rest) = product_parts_of(alloc, depth, rest)?;
    Ok((Product { first, others }, rest))
}

#[cycle(expressions)]
fn product_parts_of(alloc: Global, depth: u32, tokens: &[Token]) -> Read<'_, Vec<ProductPart>>
    ensures { Gives (λ x. (map product_part_view x.0.items, map seen x.1.now)) result (many (is_operator product_operator) (operator_operand_at product_operator (unary_with (expression_inside depth) depth)) (map seen tokens.now)) }
{
    let mut parts = Vec::new(alloc);
    let mut rest = tokens;
    for _ in 0..tokens.len() {
        if !at_operator::<ProductOperator>(rest) {
            return Ok((parts, rest));
        }
        let ((place, operator), after) = operator_of(rest)?;
        let (operand, after) = unary_of(alloc, depth, after)?;
        put_part(
            &mut parts,
            ProductPart {
                place,
                operator,
                operand,
            },
        )?;
        rest = after;
    }
    Ok((parts, rest))
}

#[cycle(expressions)]
#[tactic(auto, unfolding(crate::specs::Productions::unary_with))]
fn unary_of(alloc: Global, depth: u32, tokens: &[Token]) -> Read<'_, Unary>
    ensures { Gives (λ x. (unary_view x.0, map seen x.1.now)) result (unary_with (expression_inside depth) depth (map seen tokens.now)) }
{
    let (sign, rest) = optional_sign_of(tokens)?;
    let (operand, rest) = primary_of(alloc, depth, rest)?;
    Ok((Unary { sign, operand }, rest))
}

#[cycle(expressions)]
#[tactic(auto, unfolding(crate::specs::Productions::primary_with))]
fn primary_of(alloc: Global, depth: u32, tokens: &[Token]) -> Read<'_, Primary>
    ensures { Gives (λ x. (primary_view x.0, map seen x.1.now)) result (primary_with (expression_inside depth) depth (map seen tokens.now)) }
{
    if at_name(tokens) {
        let (name, rest) = name_of(alloc, tokens)?;
        return Ok((Primary::Name(name), rest));
    }
    if at_integer(tokens) {
        let (literal, rest) = integer_literal_of(tokens)?;
        return Ok((Primary::Integer(literal), rest));
    }
    if at_text(tokens) {
        let (literal, rest) = text_literal_of(tokens)?;
        return Ok((Primary::Text(literal), rest));
    }
    let (group, rest) = group_of(alloc, depth, tokens)?;
    Ok((Primary::Group(group), rest))
}

#[cycle(expressions)]
#[tactic(auto, unfolding(crate::specs::Productions::group_with), using(crate::proofs::Depths::inside_is))]
fn group_of(alloc: Global, depth: u32, tokens: &[Token]) -> Read<'_, Group>
    ensures { Gives (λ x. (group_view x.0, map seen x.1.now)) result (group_with (expression_inside depth) depth (map seen tokens.now)) }
{
    let (place, rest) = open_paren_of(depth, tokens)?;
    let (inner, rest) = expression_of(alloc, depth - 1, rest)?;
    let (enclosed, rest) = before(Mark::RightParen, inner, rest)?;
    let group = Group {
        place,
        inner: Box::new(alloc, enclosed)?,
    };
    Ok((group, rest))
}
