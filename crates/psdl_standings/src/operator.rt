// What operators make of whole numbers.
ghost use Rattle.std.specs.Prelude.{◌≡◌, Some};
ghost use Rattle.std.specs.Option.{option_and_then};
ghost use Rattle.psdl_standings.specs.declared.operator.Operator.TheVariants as operators;
ghost use Rattle.psdl_standings.specs.Values.{shift_of, ranged, made_by};

/// An operator between its operands.
#[derive(Clone, Copy)]
pub enum Operator {
    Disjunction,
    Exclusion,
    Conjunction,
    ShiftLeft,
    ShiftRight,
    Plus,
    Minus,
    Times,
    Quotient,
    Remainder,
}

/// By how much a shift shifts, which is 0 to 63.
pub fn shift_of(by: i128) -> Option<u32>
    ensures { result ≡ shift_of by }
{
    if by < 0 || 63 < by {
        return None;
    }
    Some(by as u32)
}

fn shifted_left(number: i128, by: i128) -> Option<i128>
    ensures { result ≡ option_and_then ranged (made_by operators.ShiftLeft number by) }
{
    match shift_of(by) {
        Some(n) => number.checked_mul(i128::from(2u64.pow(n))),
        None => None,
    }
}

fn shifted_right(number: i128, by: i128) -> Option<i128>
    ensures { result ≡ option_and_then ranged (made_by operators.ShiftRight number by) }
{
    match shift_of(by) {
        Some(n) => Some(number >> n),
        None => None,
    }
}

fn quotient(number: i128, divisor: i128) -> Option<i128>
    ensures { result ≡ option_and_then ranged (made_by operators.Quotient number divisor) }
{
    number.checked_div(divisor)
}

fn remainder(number: i128, divisor: i128) -> Option<i128>
    ensures { result ≡ option_and_then ranged (made_by operators.Remainder number divisor) }
{
    if divisor == 0 {
        return None;
    }
    if divisor == -1 {
        return Some(0);
    }
    Some(number % divisor)
}

/// What an operator makes of two numbers, where that is in range.
pub fn made_by(operator: Operator, first: i128, second: i128) -> Option<i128>
    ensures { result ≡ option_and_then ranged (made_by operator first second) }
{
    match operator {
        Operator::Disjunction => Some(first | second),
        Operator::Exclusion => Some(first ^ second),
        Operator::Conjunction => Some(first & second),
        Operator::ShiftLeft => shifted_left(first, second),
        Operator::ShiftRight => shifted_right(first, second),
        Operator::Plus => first.checked_add(second),
        Operator::Minus => first.checked_sub(second),
        Operator::Times => first.checked_mul(second),
        Operator::Quotient => quotient(first, second),
        Operator::Remainder => remainder(first, second),
    }
}
