// What a part of an expression comes to by its operands.
ghost use Rattle.std.specs.Prelude.{◌≡◌, ◌≤◌, ℤ, is_some, is_none, IfSome};
ghost use Rattle.std.specs.Option.{option_and_then};
ghost use Rattle.psdl_tree.specs.declared.expressions.UnaryOperator.TheVariants as signs;
ghost use Rattle.psdl_standings.specs.Values as values;
ghost use Rattle.psdl_standings.specs.Values.{ranged};
ghost use Rattle.psdl_directory.specs.Fault.{lesser as lesser_of};
ghost use Rattle.psdl_standings.specs.inner.Assessments.{seen, operated_on, signed_on};

use crate::const_zero::{is_division, zero_divisor};
use crate::operator::{Operator, made_by, shift_of};
use psdl_directory::{CheckFault, Least};
use psdl_tree::{UnaryOperator, UnarySign};
use pss_base::Place;

/// What a part of an expression comes to.
#[derive(Clone, Copy)]
pub(crate) struct Assessment {
    pub value: Option<i128>,
    /// A part of it leaves the range, or shifts too far.
    pub leaves: bool,
    /// The first operator whose divisor is 0.
    pub zero: Option<CheckFault>,
}

pub(crate) fn simply(value: Option<i128>) -> Assessment
    ensures { result ≡ seen (values.simply value) }
{
    Assessment {
        value,
        leaves: false,
        zero: None,
    }
}

fn value_by(operator: Operator, first: Option<i128>, second: Option<i128>) -> Option<i128>
    ensures { result ≡ values.value_by operator first second }
{
    match (first, second) {
        (Some(a), Some(b)) => made_by(operator, a, b),
        (None, _) => None,
        (Some(_), None) => None,
    }
}

fn is_shift(operator: Operator) -> bool
    ensures { result ≡ values.is_shift operator }
{
    match operator {
        Operator::ShiftLeft => true,
        Operator::ShiftRight => true,
        _ => false,
    }
}

fn shifts_too_far(operator: Operator, by: Option<i128>) -> bool
    ensures { result ≡ values.shifts_too_far operator by }
{
    match by {
        Some(n) => is_shift(operator) && is_far(n),
        None => false,
    }
}

fn is_far(by: i128) -> bool
    ensures { result ≡ is_none (values.shift_of by) }
{
    match shift_of(by) {
        Some(_) => false,
        None => true,
    }
}

// An operator makes something of two numbers, in range or not.
fn makes(operator: Operator, second: i128) -> bool
    ensures { (first : ℤ) → is_some (values.made_by operator first second) ≡ result }
{
    !(is_shift(operator) && is_far(second)) && !(is_division(operator) && second == 0)
}

fn leaves_range(operator: Operator, first: Option<i128>, second: Option<i128>) -> bool
    ensures { result ≡ values.leaves_range operator first second }
{
    match (first, second) {
        (Some(a), Some(b)) => makes(operator, b) && made_by(operator, a, b).is_none(),
        (None, _) => false,
        (Some(_), None) => false,
    }
}

// The lesser one, first by place and then by kind.
fn lesser(first: Option<CheckFault>, second: Option<CheckFault>) -> Option<CheckFault>
    ensures { result ≡ lesser_of first second }
{
    match (first, second) {
        (Some(one), Some(other)) => {
            let mut least = Least::new();
            least.note(one);
            least.note(other);
            least.fault()
        }
        (Some(one), None) => Some(one),
        (None, other) => other,
    }
}

/// What an operator makes of its operands.
pub(crate) fn operated(
    operator: Operator,
    place: Place,
    first: Assessment,
    second: Assessment,
) -> Assessment
    ensures { result ≡ operated_on operator place first second }
{
    let leaves = leaves_range(operator, first.value, second.value);
    let far = shifts_too_far(operator, second.value);
    let zero = zero_divisor(operator, place, second.value);
    Assessment {
        value: value_by(operator, first.value, second.value),
        leaves: first.leaves || second.leaves || leaves || far,
        zero: lesser(first.zero, lesser(second.zero, zero)),
    }
}

// `~` in a type: of so many bits where it is unsigned.
fn complement(width: Option<u32>, number: i128) -> Option<i128>
    requires { IfSome width (λ bits. bits ≤ 64) }
    ensures { result ≡ option_and_then ranged (values.signed_by width signs.Not number) }
{
    match width {
        None => Some(-1 - number),
        Some(bits) => {
            let most = (1i128 << bits) - 1;
            if number < 0 || most < number {
                return None;
            }
            Some(most - number)
        }
    }
}

fn signed_by(width: Option<u32>, operator: UnaryOperator, number: i128) -> Option<i128>
    requires { IfSome width (λ bits. bits ≤ 64) }
    ensures { result ≡ option_and_then ranged (values.signed_by width operator number) }
{
    match operator {
        UnaryOperator::Minus => number.checked_neg(),
        UnaryOperator::Plus => Some(number),
        UnaryOperator::Not => complement(width, number),
    }
}

/// What a sign makes of its operand.
pub(crate) fn signed(width: Option<u32>, sign: Option<UnarySign>, operand: Assessment) -> Assessment
    requires { IfSome width (λ bits. bits ≤ 64) }
    ensures { result ≡ signed_on width sign operand }
{
    match sign {
        None => operand,
        Some(sign) => match operand.value {
            None => operand,
            Some(number) => {
                let value = signed_by(width, sign.operator, number);
                Assessment {
                    value,
                    leaves: operand.leaves || value.is_none(),
                    zero: operand.zero,
                }
            }
        },
    }
}
