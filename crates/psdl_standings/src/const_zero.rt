// C15: divisions by 0.
ghost use Rattle.std.specs.Prelude.{◌≡◌, false, map};
ghost use Rattle.type_layout.specs.Schemas.{given};
ghost use Rattle.psdl_directory.specs.declared.fault.CheckKind.TheVariants.{ConstZero};
ghost use Rattle.psdl_directory.specs.Fault.{fault, least};
ghost use Rattle.psdl_standings.specs.Values as values;

use crate::operator::Operator;
use psdl_directory::{CheckFault, CheckKind};
use pss_base::Place;

/// Whether it has a divisor.
pub(crate) fn is_division(operator: Operator) -> bool
    ensures { result ≡ values.is_division operator }
{
    match operator {
        Operator::Quotient => true,
        Operator::Remainder => true,
        _ => false,
    }
}

fn is_zero(number: Option<i128>) -> bool
    ensures { result ≡ given number false values.is_zero }
{
    match number {
        Some(n) => n == 0,
        None => false,
    }
}

/// The fault of an operator whose divisor is 0.
pub(crate) fn zero_divisor(
    operator: Operator,
    place: Place,
    divisor: Option<i128>,
) -> Option<CheckFault>
    ensures { result ≡ least (map (fault ConstZero) (values.zero_divisor operator place divisor)) }
{
    if is_division(operator) && is_zero(divisor) {
        Some(CheckFault {
            place,
            kind: CheckKind::ConstZero,
        })
    } else {
        None
    }
}
