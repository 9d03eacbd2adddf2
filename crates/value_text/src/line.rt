// The values in the rest of a line.
ghost use Rattle.std.specs.Prelude.{◌≡◌, ◌≤◌, ◌<◌, ◌+◌, ◌-◌, ◌^◌, [], ◌∷◌, length, map, IfOk};
ghost use Rattle.type_layout.specs.Views.{plain_type, plain_value, plain_values};
ghost use Rattle.type_layout.specs.Members.{plain_member};
ghost use Rattle.type_layout.specs.Keys.{chosen};
ghost use Rattle.value_text.specs.Line.{Tells, pushed, first_value, values_from};
ghost use Rattle.value_text.specs.declared.line.LineFault.TheVariants.{NoMemory as OutOfMemory};

use crate::ValueFault;
use crate::read::front_of;
use pss_base::{NoMemory, skip_blanks};
use std::alloc::Global;
use type_layout::{Member, Ty, Value, Values};

/// Why the values of a line were not read.
#[derive(Clone, Copy, Debug, PartialEq, Eq, Drop)]
pub enum LineFault {
    /// The column of the first value that does not read or is one too many, or one past the end where
    /// one is missing.
    BadValue(u32),
    /// There was no memory. It may come in place of any other answer.
    NoMemory,
}

impl From<NoMemory> for LineFault {
    ghost from_gives = { λ _ fault. fault ≡ OutOfMemory };

    fn from(_: NoMemory) -> LineFault {
        LineFault::NoMemory
    }
}

/// The values that the rest of a line has, one for each of these members, with blanks in front of each
/// and behind the last. The text begins at the column, and columns count bytes. A value ends at a blank
/// or the end of the text, so two values without a blank between them do not read.
///
/// It goes over the text once, and takes memory for a value of each member.
#[inline(always)]
pub fn read_members(
    alloc: Global,
    members: &[Member],
    text: &[u8],
    column: u32,
) -> Result<Values, LineFault>
    requires { column + length text.now < 2 ^ 32 }
    ensures { Tells plain_values result (values_from (map (λ m. m.type) (map plain_member members.now)) column text.now) }
{
    let end = column + text.len() as u32;
    let mut values = Values::with_room(alloc, members.len())?;
    let mut rest = text;
    for member in members {
        rest = push_next(&mut values, alloc, &member.ty, rest, end)?;
    }
    expect_end(rest, end)?;
    Ok(values)
}

/// The values that the rest of a line has, one for each of the members with these numbers, as
/// `read_members` reads them. A number that no member has is left out.
pub fn read_chosen(
    alloc: Global,
    members: &[Member],
    numbers: &[u32],
    text: &[u8],
    column: u32,
) -> Result<Values, LineFault>
    requires { column + length text.now < 2 ^ 32 }
    ensures { Tells plain_values result (values_from (map (λ m. m.type) (chosen (map plain_member members.now) numbers.now)) column text.now) }
{
    let end = column + text.len() as u32;
    let mut values = Values::with_room(alloc, numbers.len())?;
    let mut rest = text;
    for number in numbers {
        let Some(member) = members.get(*number as usize) else {
            continue;
        };
        rest = push_next(&mut values, alloc, &member.ty, rest, end)?;
    }
    expect_end(rest, end)?;
    Ok(values)
}

/// The one value that the rest of a line has, as `read_members` reads it for one member of this type.
pub fn read_one_value(alloc: Global, ty: &Ty, text: &[u8], column: u32) -> Result<Value, LineFault>
    requires { column + length text.now < 2 ^ 32 }
    ensures { Tells (λ value. plain_value value ∷ []) result (values_from (plain_type ty.now ∷ []) column text.now) }
{
    let end = column + text.len() as u32;
    let (value, rest) = next_value(alloc, ty, text, end)?;
    expect_end(rest, end)?;
    Ok(value)
}

// Reads one value more.
#[inline(always)]
fn push_next<'a>(
    values: &mut Values,
    alloc: Global,
    ty: &Ty,
    text: &'a [u8],
    end: u32,
) -> Result<&'a [u8], LineFault>
    requires { length text.now ≤ end }
    ensures read { Tells (λ rest. (plain_values values.new, rest.now)) result (pushed (plain_values values.old) (first_value (plain_type ty.now) (end - length text.now) text.now)) }
    ensures within { IfOk result (λ rest. length rest.now ≤ length text.now) }
{
    let (value, rest) = next_value(alloc, ty, text, end)?;
    values.push(value)?;
    Ok(rest)
}

// The value behind blanks, and what is behind it.
#[tactic(auto, using(crate::proofs::LineReading::value_there, crate::proofs::LineReading::no_value_there))]
#[inline(always)]
fn next_value<'a>(
    alloc: Global,
    ty: &Ty,
    text: &'a [u8],
    end: u32,
) -> Result<(Value, &'a [u8]), LineFault>
    requires { length text.now ≤ end }
    ensures read { Tells (λ x. (plain_value x.0, x.1.now)) result (first_value (plain_type ty.now) (end - length text.now) text.now) }
    ensures within { IfOk result (λ x. length x.1.now ≤ length text.now) }
{
    let front = skip_blanks(text);
    match front_of(alloc, ty, front) {
        Ok(read) => Ok(read),
        Err(ValueFault::BadValue) => Err(LineFault::BadValue(end - front.len() as u32)),
        Err(ValueFault::NoMemory) => Err(LineFault::NoMemory),
    }
}

// Nothing but blanks is left.
#[tactic(auto, using(crate::proofs::LineReading::ends_there, crate::proofs::LineReading::goes_on_there))]
fn expect_end(text: &[u8], end: u32) -> Result<(), LineFault>
    requires { length text.now ≤ end }
    ensures { Tells (λ _. []) result (values_from [] (end - length text.now) text.now) }
{
    let rest = skip_blanks(text);
    if rest.is_empty() {
        return Ok(());
    }
    Err(LineFault::BadValue(end - rest.len() as u32))
}
