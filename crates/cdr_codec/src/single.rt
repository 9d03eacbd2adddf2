// Each primitive but a string's octets: one step, and the test that it owes.
ghost use Rattle.std.specs.Prelude.{◌≡◌, ◌≤◌, ◌<◌, ◌^◌, length, IfOk, Some};
ghost use Rattle.type_layout.specs.Views.{plain_type, plain_value};
ghost use Rattle.type_layout.specs.Values.{is_over as passes_bound};
ghost use Rattle.cdr_codec.specs.Primitives.{Flag, TextLength, ItemCount, Home, Serial};
ghost use Rattle.cdr_codec.specs.Reading.{Gives, Advances, judged_at, value_at};
ghost use Rattle.cdr_codec.specs.Taken.{Took, value_takes};
ghost use Rattle.cdr_codec.specs.Widths.{number_width, number_value, FitsNumber};

use crate::fault::{Found, RecordFault, Stop};
use crate::numbers::number_of;
use crate::width::Width;
use pss_base::Steps;
use std::sync::ledger::Ledger;
use type_layout::{HomeNos, Ty, Value};

#[tactic(auto, unfolding(crate::specs::Reading::judged_at))]
pub(crate) fn flag_of<L: Ledger>(
    bytes: &[u8],
    at: usize,
    steps: &mut Steps<L>,
) -> Result<(u64, usize), Stop>
    requires { at ≤ length bytes.now }
    ensures given { Gives (λ x. (x.0, x.1)) result (judged_at Flag bytes.now at) }
    ensures within { IfOk result (λ x. (at ≤ x.1) × (x.1 ≤ length bytes.now)) }
    ensures steps { Advances at (length bytes.now) steps.old steps.new result }
    ensures taken { Took steps.old steps.new result 1 }
{
    let found = number_of(bytes, Width::One, at, steps)?;
    if found.number != 0 {
        return Err(Stop::Fault(RecordFault::BadFlag));
    }
    Ok((found.number, found.after))
}

// The value that a number stands for, where the type's values are numbers.
#[inline(always)]
fn value_from(ty: &Ty, found: Found) -> Result<Value, Stop>
    requires { FitsNumber (plain_type ty.now) found.number }
    ensures { Gives plain_value result (number_value (plain_type ty.now) found) }
{
    let number = found.number;
    match ty {
        Ty::Short => Ok(Value::Int(i128::from((number as u16).cast_signed()))),
        Ty::Long => Ok(Value::Int(i128::from((number as u32).cast_signed()))),
        Ty::LongLong => Ok(Value::Int(i128::from(number.cast_signed()))),
        Ty::UShort => Ok(Value::Int(i128::from(number))),
        Ty::ULong => Ok(Value::Int(i128::from(number))),
        Ty::ULongLong => Ok(Value::Int(i128::from(number))),
        Ty::Octet => Ok(Value::Int(i128::from(number))),
        Ty::Char => Ok(Value::Char(number as u8)),
        Ty::Boolean => {
            if number > 1 {
                return Err(Stop::Fault(RecordFault::BadBool(found.start as u64)));
            }
            Ok(Value::Bool(number == 1))
        }
        Ty::Enum(names) => {
            if number >= names.as_slice().len() as u64 {
                return Err(Stop::Fault(RecordFault::BadEnum(found.start as u64)));
            }
            Ok(Value::Enum(number as u32))
        }
        Ty::Str(_) => unreachable!(),
        Ty::Seq(_, _) => unreachable!(),
        Ty::Arr(_, _) => unreachable!(),
        Ty::Struct(_) => unreachable!(),
        Ty::Ref(_) => unreachable!(),
    }
}

/// The value of a type whose values are numbers of this width.
pub(crate) fn number_value_of<L: Ledger>(
    bytes: &[u8],
    at: usize,
    ty: &Ty,
    width: Width,
    steps: &mut Steps<L>,
) -> Result<(Value, usize), Stop>
    requires place { at ≤ length bytes.now }
    requires width { number_width (plain_type ty.now) ≡ Some width }
    ensures given { Gives (λ x. (plain_value x.0, x.1)) result (value_at (plain_type ty.now) bytes.now at) }
    ensures within { IfOk result (λ x. (at ≤ x.1) × (x.1 ≤ length bytes.now)) }
    ensures steps { Advances at (length bytes.now) steps.old steps.new result }
    ensures taken { Took steps.old steps.new result (value_takes (plain_type ty.now) bytes.now at) }
{
    let found = number_of(bytes, width, at, steps)?;
    let value = value_from(ty, found)?;
    Ok((value, found.after))
}

fn is_over(bound: u32, count: u64) -> bool
    ensures { result ≡ passes_bound bound count }
{
    bound != 0 && u64::from(bound) < count
}

#[tactic(auto, unfolding(crate::specs::Reading::judged_at))]
pub(crate) fn text_length_of<L: Ledger>(
    bytes: &[u8],
    at: usize,
    bound: u32,
    steps: &mut Steps<L>,
) -> Result<(u64, usize), Stop>
    requires { at ≤ length bytes.now }
    ensures given { Gives (λ x. (x.0, x.1)) result (judged_at (TextLength bound) bytes.now at) }
    ensures within { IfOk result (λ x. (at ≤ x.1) × (x.1 ≤ length bytes.now)) }
    ensures counts { IfOk result (λ x. (1 ≤ x.0) × (x.0 < 2 ^ 32)) }
    ensures steps { Advances at (length bytes.now) steps.old steps.new result }
    ensures taken { Took steps.old steps.new result 1 }
{
    let found = number_of(bytes, Width::Four, at, steps)?;
    if found.number == 0 {
        return Err(Stop::Fault(RecordFault::BadNul(found.start as u64)));
    }
    if is_over(bound, found.number - 1) {
        return Err(Stop::Fault(RecordFault::OverBound(found.start as u64)));
    }
    Ok((found.number, found.after))
}

#[tactic(auto, unfolding(crate::specs::Reading::judged_at))]
pub(crate) fn item_count_of<L: Ledger>(
    bytes: &[u8],
    at: usize,
    bound: u32,
    steps: &mut Steps<L>,
) -> Result<(u64, usize), Stop>
    requires { at ≤ length bytes.now }
    ensures given { Gives (λ x. (x.0, x.1)) result (judged_at (ItemCount bound) bytes.now at) }
    ensures within { IfOk result (λ x. (at ≤ x.1) × (x.1 ≤ length bytes.now)) }
    ensures steps { Advances at (length bytes.now) steps.old steps.new result }
    ensures taken { Took steps.old steps.new result 1 }
{
    let found = number_of(bytes, Width::Four, at, steps)?;
    if is_over(bound, found.number) {
        return Err(Stop::Fault(RecordFault::OverBound(found.start as u64)));
    }
    Ok((found.number, found.after))
}

#[tactic(auto, unfolding(crate::specs::Reading::judged_at))]
pub(crate) fn home_of<L: Ledger>(
    bytes: &[u8],
    at: usize,
    homes: &HomeNos,
    steps: &mut Steps<L>,
) -> Result<(u64, usize), Stop>
    requires { at ≤ length bytes.now }
    ensures given { Gives (λ x. (x.0, x.1)) result (judged_at (Home homes.now) bytes.now at) }
    ensures within { IfOk result (λ x. (at ≤ x.1) × (x.1 ≤ length bytes.now)) }
    ensures small { IfOk result (λ x. x.0 < 2 ^ 32) }
    ensures steps { Advances at (length bytes.now) steps.old steps.new result }
    ensures taken { Took steps.old steps.new result 1 }
{
    let found = number_of(bytes, Width::Four, at, steps)?;
    if found.number != 0 && !homes.contains(found.number as u32) {
        return Err(Stop::Fault(RecordFault::BadRef(found.start as u64)));
    }
    Ok((found.number, found.after))
}

#[tactic(auto, unfolding(crate::specs::Reading::judged_at))]
pub(crate) fn serial_of<L: Ledger>(
    bytes: &[u8],
    at: usize,
    home: u64,
    steps: &mut Steps<L>,
) -> Result<(u64, usize), Stop>
    requires { at ≤ length bytes.now }
    ensures given { Gives (λ x. (x.0, x.1)) result (judged_at (Serial home) bytes.now at) }
    ensures within { IfOk result (λ x. (at ≤ x.1) × (x.1 ≤ length bytes.now)) }
    ensures steps { Advances at (length bytes.now) steps.old steps.new result }
    ensures taken { Took steps.old steps.new result 1 }
{
    let found = number_of(bytes, Width::Eight, at, steps)?;
    if (home == 0) != (found.number == 0) {
        return Err(Stop::Fault(RecordFault::BadRef(found.start as u64)));
    }
    Ok((found.number, found.after))
}
