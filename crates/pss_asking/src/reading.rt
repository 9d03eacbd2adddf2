// Values by the types of members.
ghost use Rattle.std.specs.Prelude.{◌+◌, ◌<◌, ◌^◌, List, length, map};
ghost use Rattle.type_layout.specs.Types.{PlainType};
ghost use Rattle.type_layout.specs.Members.{plain_member};
ghost use Rattle.type_layout.specs.Views.{plain_value, plain_values};
ghost use Rattle.type_layout.specs.Keys.{chosen};
ghost use Rattle.value_text.specs.Line.{Tells as AreOfLine};
ghost use Rattle.pss_machine.specs.declared.command.Rest.{Rest};
ghost use Rattle.pss_machine.specs.Values.{types_of, values_in};
ghost use Rattle.pss_machine.specs.Asking.{read_values as read_in, read_value as read_one_in};
ghost use Rattle.pss_asking.specs.Telling.{Tells};

use crate::asked::{AskFault, Refusal};
use pss_machine::Rest;
use std::alloc::Global;
use type_layout::{Member, Value, Values};
use value_text::{LineFault, read_one_value};

// The answer that what was read of a line is.
fn told(read: Result<Values, LineFault>) -> Result<Values, AskFault>
    ensures { (types : List PlainType) (rest : Rest) → AreOfLine plain_values read (values_in types rest) → Tells plain_values result (read_in types rest) }
{
    match read {
        Ok(values) => Ok(values),
        Err(LineFault::BadValue(column)) => Err(AskFault::Refused(Refusal::BadValue(column))),
        Err(LineFault::NoMemory) => Err(AskFault::Memory),
    }
}

/// One value for each of these members.
#[inline(always)]
pub fn read_members(alloc: Global, members: &[Member], rest: &Rest<'_>) -> Result<Values, AskFault>
    requires { rest.now.column + length rest.now.text < 2 ^ 32 }
    ensures { Tells plain_values result (read_in (types_of (map plain_member members.now)) rest.now) }
{
    told(value_text::read_members(alloc, members, rest.text.as_slice(), rest.column))
}

/// One value for each of the members with these numbers.
pub fn read_chosen(
    alloc: Global,
    members: &[Member],
    numbers: &[u32],
    rest: &Rest<'_>,
) -> Result<Values, AskFault>
    requires { rest.now.column + length rest.now.text < 2 ^ 32 }
    ensures { Tells plain_values result (read_in (types_of (chosen (map plain_member members.now) numbers.now)) rest.now) }
{
    told(value_text::read_chosen(alloc, members, numbers, rest.text.as_slice(), rest.column))
}

/// The value of one member.
pub fn read_one(alloc: Global, member: &Member, rest: &Rest<'_>) -> Result<Value, AskFault>
    requires { rest.now.column + length rest.now.text < 2 ^ 32 }
    ensures { Tells plain_value result (read_one_in (plain_member member.now) rest.now) }
{
    match read_one_value(alloc, &member.ty, rest.text.as_slice(), rest.column) {
        Ok(value) => Ok(value),
        Err(LineFault::BadValue(column)) => Err(AskFault::Refused(Refusal::BadValue(column))),
        Err(LineFault::NoMemory) => Err(AskFault::Memory),
    }
}
