// Operators, by the signs that stand for them.
ghost use Rattle.std.specs.Prelude.{◌≡◌, Option, IfSome, true, map};
ghost use Rattle.part_readers.specs.Reading.{Gives, starts, optional};
ghost use Rattle.psdl_syntax.specs.Seen.{seen, keeps_place};
ghost use Rattle.psdl_tokens.specs.declared.token.Mark.{Mark};
ghost use Rattle.psdl_syntax.specs.Productions.{is_operator, operator_part, operator_at, unary_sign_at, shift_operator, sum_operator, product_operator, unary_operator};

use super::words::{Read, unexpected};
use psdl_tokens::{Mark, Token, TokenKind};
use psdl_tree::{ProductOperator, ShiftOperator, SumOperator, UnaryOperator, UnarySign};
use pss_base::Place;

/// What the signs of one level of an expression stand for.
pub(super) trait Operator: Copy {
    ghost operator: { Mark → Option Self };

    /// The operator that a sign stands for.
    fn of_mark(mark: Mark) -> Option<Self>
        ensures operator { result ≡ operator mark }
        ensures placed { IfSome result (λ x. keeps_place mark ≡ true) };
}

impl Operator for ShiftOperator {
    ghost operator = { shift_operator };

    fn of_mark(mark: Mark) -> Option<ShiftOperator> {
        match mark {
            Mark::ShiftLeft => Some(ShiftOperator::Left),
            Mark::ShiftRight => Some(ShiftOperator::Right),
            _ => None,
        }
    }
}

impl Operator for SumOperator {
    ghost operator = { sum_operator };

    fn of_mark(mark: Mark) -> Option<SumOperator> {
        match mark {
            Mark::Plus => Some(SumOperator::Plus),
            Mark::Minus => Some(SumOperator::Minus),
            _ => None,
        }
    }
}

impl Operator for ProductOperator {
    ghost operator = { product_operator };

    fn of_mark(mark: Mark) -> Option<ProductOperator> {
        match mark {
            Mark::Times => Some(ProductOperator::Times),
            Mark::Divide => Some(ProductOperator::Divide),
            Mark::Remainder => Some(ProductOperator::Remainder),
            _ => None,
        }
    }
}

impl Operator for UnaryOperator {
    ghost operator = { unary_operator };

    fn of_mark(mark: Mark) -> Option<UnaryOperator> {
        match mark {
            Mark::Minus => Some(UnaryOperator::Minus),
            Mark::Plus => Some(UnaryOperator::Plus),
            Mark::Not => Some(UnaryOperator::Not),
            _ => None,
        }
    }
}

fn operator_in<O: Operator>(token: &Token) -> Option<(Place, O)>
    ensures { result ≡ operator_part O.operator (seen token.now) }
{
    match &token.kind {
        TokenKind::Mark(mark) => match O::of_mark(*mark) {
            Some(operator) => Some((token.place, operator)),
            None => None,
        },
        _ => None,
    }
}

#[tactic(auto, using(crate::proofs::Operands::is_operator_part))]
pub(super) fn at_operator<O: Operator>(tokens: &[Token]) -> bool
    ensures { result ≡ starts (is_operator O.operator) (map seen tokens.now) }
{
    match tokens {
        [token, ..] => operator_in::<O>(token).is_some(),
        [] => false,
    }
}

#[tactic(auto, unfolding(crate::specs::Productions::operator_at))]
pub(super) fn operator_of<O: Operator>(tokens: &[Token]) -> Read<'_, (Place, O)>
    ensures { Gives (λ x. (x.0, map seen x.1.now)) result (operator_at O.operator (map seen tokens.now)) }
{
    let [token, rest @ ..] = tokens else {
        return unexpected(tokens);
    };
    let Some(operator) = operator_in(token) else {
        return unexpected(tokens);
    };
    Ok((operator, rest))
}

#[tactic(auto, unfolding(crate::specs::Productions::unary_sign_at))]
fn unary_sign_of(tokens: &[Token]) -> Read<'_, UnarySign>
    ensures { Gives (λ x. (x.0, map seen x.1.now)) result (unary_sign_at (map seen tokens.now)) }
{
    let ((place, operator), rest) = operator_of::<UnaryOperator>(tokens)?;
    Ok((UnarySign { place, operator }, rest))
}

pub(super) fn optional_sign_of(tokens: &[Token]) -> Read<'_, Option<UnarySign>>
    ensures { Gives (λ x. (x.0, map seen x.1.now)) result (optional (is_operator unary_operator) unary_sign_at (map seen tokens.now)) }
{
    if at_operator::<UnaryOperator>(tokens) {
        let (sign, rest) = unary_sign_of(tokens)?;
        return Ok((Some(sign), rest));
    }
    Ok((None, tokens))
}
