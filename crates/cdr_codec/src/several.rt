// Values of every type, one behind the other.
ghost use Rattle.std.specs.Prelude.{◌≡◌, ◌≤◌, ◌<◌, ◌+◌, ◌-◌, ◌^◌, ◌==◌, length, map, min, IfOk, position, Ok};
ghost use Rattle.type_layout.specs.Types.{Seq, Arr, fields_of as listed_fields};
ghost use Rattle.type_layout.specs.Views.{plain_type, plain_field, plain_value, plain_values};
ghost use Rattle.type_layout.specs.Members.{plain_member};
ghost use Rattle.type_layout.specs.Values.{layout_fields};
ghost use Rattle.cdr_codec.specs.Reading.{Gives, Advances, text_at, letters_at, times_at, items_at, pid_at, pid_of as identifier, value_at, fields_at};
ghost use Rattle.cdr_codec.specs.Taken.{Took, pid_takes, times_take, items_take, value_takes, fields_take};

use crate::fault::{RecordFault, Stop};
use crate::numbers::{octet_of, short};
use crate::single::{home_of, item_count_of, number_value_of, serial_of, text_length_of};
use crate::width::width_of;
use pss_base::{Bytes, Pid, Steps};
use std::alloc::Global;
use std::sync::ledger::Ledger;
use type_layout::{Field, HomeNos, Member, Ty, Value, Values};

fn first_zero(text: &[u8]) -> Option<usize>
    ensures { result ≡ position (λ b. b == 0) text.now }
{
    text.iter().position(|byte| *byte == 0)
}

// The octets of a string and its NUL, once they are known to be there.
#[tactic(auto, unfolding(crate::specs::Reading::letters_at))]
fn letters_of(alloc: Global, count: u64, bytes: &[u8], at: usize) -> Result<(Bytes, usize), Stop>
    requires place { at ≤ length bytes.now }
    requires few { count < 2 ^ 32 }
    ensures given { Gives (λ x. (x.0, x.1)) result (letters_at count bytes.now at) }
    ensures within { IfOk result (λ x. (at ≤ x.1) × (x.1 ≤ length bytes.now)) }
{
    let end = at + count as usize;
    if bytes.len() < end + 1 {
        return Err(short(bytes));
    }
    let text = &bytes[at..end];
    if let Some(place) = first_zero(text) {
        return Err(Stop::Fault(RecordFault::BadNul((at + place) as u64)));
    }
    let (last, after) = octet_of(bytes, end)?;
    if last != 0 {
        return Err(Stop::Fault(RecordFault::BadNul(end as u64)));
    }
    Ok((Bytes::from_slice(alloc, text)?, after))
}

#[tactic(auto, unfolding(crate::specs::Reading::text_at))]
fn text_of<L: Ledger>(
    alloc: Global,
    bound: u32,
    bytes: &[u8],
    at: usize,
    steps: &mut Steps<L>,
) -> Result<(Bytes, usize), Stop>
    requires { at ≤ length bytes.now }
    ensures given { Gives (λ x. (x.0, x.1)) result (text_at bound bytes.now at) }
    ensures within { IfOk result (λ x. (at ≤ x.1) × (x.1 ≤ length bytes.now)) }
    ensures steps { Advances at (length bytes.now) steps.old steps.new result }
    ensures taken { Took steps.old steps.new result 1 }
{
    let (count, after) = text_length_of(bytes, at, bound, steps)?;
    letters_of(alloc, count - 1, bytes, after)
}

fn pid_from(home: u64, serial: u64) -> Option<Pid>
    requires { home < 2 ^ 32 }
    ensures { result ≡ identifier home serial }
{
    if home == 0 {
        return None;
    }
    Some(Pid {
        home: home as u32,
        serial,
    })
}

#[tactic(auto, unfolding(crate::specs::Reading::pid_at, crate::specs::Taken::pid_takes))]
fn reference_of<L: Ledger>(
    homes: &HomeNos,
    bytes: &[u8],
    at: usize,
    steps: &mut Steps<L>,
) -> Result<(Option<Pid>, usize), Stop>
    requires { at ≤ length bytes.now }
    ensures given { Gives (λ x. (x.0, x.1)) result (pid_at homes.now bytes.now at) }
    ensures within { IfOk result (λ x. (at ≤ x.1) × (x.1 ≤ length bytes.now)) }
    ensures steps { Advances at (length bytes.now) steps.old steps.new result }
    ensures taken { Took steps.old steps.new result (pid_takes homes.now bytes.now at) }
{
    let (home, middle) = home_of(bytes, at, homes, steps)?;
    let (serial, after) = serial_of(bytes, middle, home, steps)?;
    Ok((pid_from(home, serial), after))
}

#[cycle(value)]
#[tactic(auto, unfolding(crate::specs::Reading::value_at, crate::specs::Taken::value_takes))]
pub(crate) fn value_of<L: Ledger>(
    alloc: Global,
    ty: &Ty,
    bytes: &[u8],
    at: usize,
    steps: &mut Steps<L>,
) -> Result<(Value, usize), Stop>
    requires { at ≤ length bytes.now }
    ensures given { Gives (λ x. (plain_value x.0, x.1)) result (value_at (plain_type ty.now) bytes.now at) }
    ensures within { IfOk result (λ x. (at ≤ x.1) × (x.1 ≤ length bytes.now)) }
    ensures steps { Advances at (length bytes.now) steps.old steps.new result }
    ensures taken { Took steps.old steps.new result (value_takes (plain_type ty.now) bytes.now at) }
{
    if let Some(width) = width_of(ty) {
        return number_value_of(bytes, at, ty, width, steps);
    }
    match ty {
        Ty::Str(bound) => {
            let (text, after) = text_of(alloc, *bound, bytes, at, steps)?;
            Ok((Value::Str(text), after))
        }
        Ty::Seq(item, bound) => sequence_of(alloc, item, *bound, bytes, at, steps),
        Ty::Arr(item, count) => array_of(alloc, item, *count, bytes, at, steps),
        Ty::Struct(fields) => {
            let (values, after) = fields_of(alloc, fields.as_slice(), bytes, at, steps)?;
            Ok((Value::Struct(values), after))
        }
        Ty::Ref(homes) => {
            let (pid, after) = reference_of(homes, bytes, at, steps)?;
            Ok((Value::Ref(pid), after))
        }
        _ => unreachable!(),
    }
}

#[cycle(value)]
#[tactic(auto, unfolding(crate::specs::Reading::value_at, crate::specs::Taken::value_takes))]
fn sequence_of<L: Ledger>(
    alloc: Global,
    item: &Ty,
    bound: u32,
    bytes: &[u8],
    at: usize,
    steps: &mut Steps<L>,
) -> Result<(Value, usize), Stop>
    requires { at ≤ length bytes.now }
    ensures given { Gives (λ x. (plain_value x.0, x.1)) result (value_at (Seq (plain_type item.now) bound) bytes.now at) }
    ensures within { IfOk result (λ x. (at ≤ x.1) × (x.1 ≤ length bytes.now)) }
    ensures steps { Advances at (length bytes.now) steps.old steps.new result }
    ensures taken { Took steps.old steps.new result (value_takes (Seq (plain_type item.now) bound) bytes.now at) }
{
    let (items, after) = items_of(alloc, item, bound, bytes, at, steps)?;
    Ok((Value::List(items), after))
}

#[cycle(value)]
#[tactic(auto, unfolding(crate::specs::Reading::value_at, crate::specs::Taken::value_takes))]
fn array_of<L: Ledger>(
    alloc: Global,
    item: &Ty,
    count: u32,
    bytes: &[u8],
    at: usize,
    steps: &mut Steps<L>,
) -> Result<(Value, usize), Stop>
    requires { at ≤ length bytes.now }
    ensures given { Gives (λ x. (plain_value x.0, x.1)) result (value_at (Arr (plain_type item.now) count) bytes.now at) }
    ensures within { IfOk result (λ x. (at ≤ x.1) × (x.1 ≤ length bytes.now)) }
    ensures steps { Advances at (length bytes.now) steps.old steps.new result }
    ensures taken { Took steps.old steps.new result (value_takes (Arr (plain_type item.now) count) bytes.now at) }
{
    let (items, after) = times_of(alloc, item, u64::from(count), bytes, at, steps)?;
    Ok((Value::List(items), after))
}

#[cycle(value)]
#[tactic(auto, unfolding(crate::specs::Reading::items_at, crate::specs::Taken::items_take))]
fn items_of<L: Ledger>(
    alloc: Global,
    item: &Ty,
    bound: u32,
    bytes: &[u8],
    at: usize,
    steps: &mut Steps<L>,
) -> Result<(Values, usize), Stop>
    requires { at ≤ length bytes.now }
    ensures given { Gives (λ x. (plain_values x.0, x.1)) result (items_at (value_at (plain_type item.now)) bound bytes.now at) }
    ensures within { IfOk result (λ x. (at ≤ x.1) × (x.1 ≤ length bytes.now)) }
    ensures steps { Advances at (length bytes.now) steps.old steps.new result }
    ensures taken { Took steps.old steps.new result (items_take (value_at (plain_type item.now)) (value_takes (plain_type item.now)) bound bytes.now at) }
{
    let (count, after) = item_count_of(bytes, at, bound, steps)?;
    times_of(alloc, item, count, bytes, after, steps)
}

// Room for so many values, but for no more than there are octets left: the octets may not bear out their number.
fn room_for(count: u64, left: usize) -> usize
    ensures { result ≡ min count left }
{
    if count < left as u64 {
        return count as usize;
    }
    left
}

#[cycle(value)]
fn times_of<L: Ledger>(
    alloc: Global,
    item: &Ty,
    count: u64,
    bytes: &[u8],
    at: usize,
    steps: &mut Steps<L>,
) -> Result<(Values, usize), Stop>
    requires { at ≤ length bytes.now }
    ensures given { Gives (λ x. (plain_values x.0, x.1)) result (times_at (value_at (plain_type item.now)) count bytes.now at) }
    ensures within { IfOk result (λ x. (at ≤ x.1) × (x.1 ≤ length bytes.now)) }
    ensures steps { Advances at (length bytes.now) steps.old steps.new result }
    ensures taken { Took steps.old steps.new result (times_take (value_at (plain_type item.now)) (value_takes (plain_type item.now)) count bytes.now at) }
{
    let mut values = Values::with_room(alloc, room_for(count, bytes.len() - at))?;
    let mut place = at;
    for _ in 0..count {
        let (value, after) = value_of(alloc, item, bytes, place, steps)?;
        values.push(value)?;
        place = after;
    }
    Ok((values, place))
}

#[cycle(value)]
fn field_of<L: Ledger>(
    alloc: Global,
    field: &Field,
    bytes: &[u8],
    at: usize,
    steps: &mut Steps<L>,
) -> Result<(Value, usize), Stop>
    requires { at ≤ length bytes.now }
    ensures given { Gives (λ x. (plain_value x.0, x.1)) result (value_at (plain_field field.now).type bytes.now at) }
    ensures within { IfOk result (λ x. (at ≤ x.1) × (x.1 ≤ length bytes.now)) }
    ensures steps { Advances at (length bytes.now) steps.old steps.new result }
    ensures taken { Took steps.old steps.new result (value_takes (plain_field field.now).type bytes.now at) }
{
    value_of(alloc, &field.ty, bytes, at, steps)
}

#[cycle(value)]
fn fields_of<L: Ledger>(
    alloc: Global,
    fields: &[Field],
    bytes: &[u8],
    at: usize,
    steps: &mut Steps<L>,
) -> Result<(Values, usize), Stop>
    requires { at ≤ length bytes.now }
    ensures given { Gives (λ x. (plain_values x.0, x.1)) result (fields_at (listed_fields (map plain_field fields.now)) bytes.now at) }
    ensures within { IfOk result (λ x. (at ≤ x.1) × (x.1 ≤ length bytes.now)) }
    ensures steps { Advances at (length bytes.now) steps.old steps.new result }
    ensures taken { Took steps.old steps.new result (fields_take (listed_fields (map plain_field fields.now)) bytes.now at) }
{
    let mut values = Values::with_room(alloc, fields.len())?;
    let mut place = at;
    for field in fields {
        let (value, after) = field_of(alloc, field, bytes, place, steps)?;
        values.push(value)?;
        place = after;
    }
    Ok((values, place))
}

pub(crate) fn members_of<L: Ledger>(
    alloc: Global,
    members: &[Member],
    bytes: &[u8],
    at: usize,
    steps: &mut Steps<L>,
) -> Result<(Values, usize), Stop>
    requires { at ≤ length bytes.now }
    ensures given { Gives (λ x. (plain_values x.0, x.1)) result (fields_at (layout_fields (map plain_member members.now)) bytes.now at) }
    ensures within { IfOk result (λ x. (at ≤ x.1) × (x.1 ≤ length bytes.now)) }
    ensures steps { Advances at (length bytes.now) steps.old steps.new result }
    ensures taken { Took steps.old steps.new result (fields_take (layout_fields (map plain_member members.now)) bytes.now at) }
{
    let mut values = Values::with_room(alloc, members.len())?;
    let mut place = at;
    for member in members {
        let (value, after) = value_of(alloc, &member.ty, bytes, place, steps)?;
        values.push(value)?;
        place = after;
    }
    Ok((values, place))
}
