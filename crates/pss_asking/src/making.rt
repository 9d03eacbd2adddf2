// Records of which some members are given.
ghost use Rattle.std.specs.Prelude.{◌≡◌, ◌+◌, map, drop, slice_set, IfOk};
ghost use Rattle.std.specs.List.{slice_get};
ghost use Rattle.type_layout.specs.Members.{plain_member};
ghost use Rattle.type_layout.specs.Views.{plain_value, plain_values};
ghost use Rattle.type_layout.specs.Defaults.{default_record};
ghost use Rattle.pss_machine.specs.Values.{with_values, made_of};
ghost use Rattle.pss_asking.specs.Given.{put_in};

use pss_base::NoMemory;
use std::alloc::Global;
use type_layout::{Member, Record, Value, Values, default_of};

// The defaults of all members.
fn defaults_of(alloc: Global, members: &[Member]) -> Result<Values, NoMemory>
    ensures { IfOk result (λ values. plain_values values ≡ default_record (map plain_member members.now)) }
{
    let mut values = Values::with_room(alloc, members.len())?;
    for member in members {
        values.push(default_of(alloc, &member.ty)?)?;
    }
    Ok(values)
}

// The member with a number, where it is there, has the value.
fn put(values: &mut Values, number: u32, value: Value)
    ensures { plain_values values.new ≡ slice_set (plain_values values.old) number (plain_value value) }
{
    let place = number as usize;
    if place < values.as_slice().len() {
        let _ = values.replace(place, value);
    }
}

// The member with a number has the given value in a place, which is taken out, where there is one.
fn put_given(values: &mut Values, number: u32, given: &mut Values, place: usize)
    ensures values { plain_values values.new ≡ put_in (plain_values values.old) number (slice_get (plain_values given.old) place) }
    ensures rest { drop (place + 1) (plain_values given.new) ≡ drop (place + 1) (plain_values given.old) }
{
    if place < given.as_slice().len() {
        let value = given.replace(place, Value::Bool(false));
        put(values, number, value);
    }
}

// The members with these numbers have the given values, each of which is taken out.
fn put_all(values: &mut Values, numbers: &[u32], given: &mut Values)
    ensures { plain_values values.new ≡ with_values numbers.now (plain_values given.old) (plain_values values.old) }
{
    for place in 0..numbers.len() {
        put_given(values, numbers[place], given, place);
    }
}

/// The record in which the members with these numbers have these values, and the others their defaults.
pub fn made(
    alloc: Global,
    members: &[Member],
    numbers: &[u32],
    mut given: Values,
) -> Result<Record, NoMemory>
    ensures { IfOk result (λ made. made ≡ made_of (map plain_member members.now) numbers.now (plain_values given)) }
{
    let mut values = defaults_of(alloc, members)?;
    put_all(&mut values, numbers, &mut given);
    Ok(Record(values))
}
