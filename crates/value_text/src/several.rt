// Values of each type, and values of several parts. What is read is what the text writes; whether the
// type has it is asked of the whole.
ghost use Rattle.std.specs.Prelude.{◌≡◌, map, length};
ghost use Rattle.std.specs.Option.{option_map};
ghost use Rattle.type_layout.specs.Types.{Struct, fields_of as listed_fields};
ghost use Rattle.type_layout.specs.Views.{plain_type, plain_field, plain_value, plain_values};
ghost use Rattle.value_text.specs.Reading.{Gives, separator_at, item_at, more_at, items_at, list_at, after_comma, fields_at, value_at};

use crate::ValueFault;
use crate::quoted::{behind, character_of, string_of};
use crate::words::{Read, enumerator_of, number_of, reference_of, truth_of};
use std::alloc::Global;
use type_layout::{Field, Ty, Value, Values};

/// What a text writes as a value of a type.
#[cycle(value)]
#[tactic(auto, unfolding(crate::specs::Reading::value_at))]
#[inline(always)]
pub(crate) fn value_of<'a>(alloc: Global, ty: &Ty, text: &'a [u8]) -> Read<'a, Value>
    ensures { Gives (λ x. (plain_value x.0, x.1.now)) result (value_at (plain_type ty.now) text.now) }
{
    match ty {
        Ty::Short => number_of(text),
        Ty::Long => number_of(text),
        Ty::LongLong => number_of(text),
        Ty::UShort => number_of(text),
        Ty::ULong => number_of(text),
        Ty::ULongLong => number_of(text),
        Ty::Octet => number_of(text),
        Ty::Char => {
            let (byte, rest) = character_of(text)?;
            Ok((Value::Char(byte), rest))
        }
        Ty::Boolean => truth_of(text),
        Ty::Str(_) => {
            let (bytes, rest) = string_of(alloc, text)?;
            Ok((Value::Str(bytes), rest))
        }
        Ty::Seq(item, _) => list_of(alloc, item, text),
        Ty::Arr(item, _) => list_of(alloc, item, text),
        Ty::Struct(fields) => struct_of(alloc, fields.as_slice(), text),
        Ty::Enum(names) => enumerator_of(names, text),
        Ty::Ref(_) => reference_of(text),
    }
}

#[cycle(value)]
fn list_of<'a>(alloc: Global, item: &Ty, text: &'a [u8]) -> Read<'a, Value>
    ensures { Gives (λ x. (plain_value x.0, x.1.now)) result (list_at (value_at (plain_type item.now)) text.now) }
{
    let (values, rest) = items_of(alloc, item, text)?;
    Ok((Value::List(values), rest))
}

#[cycle(value)]
#[tactic(auto, unfolding(crate::specs::Reading::items_at))]
fn items_of<'a>(alloc: Global, item: &Ty, text: &'a [u8]) -> Read<'a, Values>
    ensures { Gives (λ x. (plain_values x.0, x.1.now)) result (items_at (value_at (plain_type item.now)) text.now) }
{
    let inside = behind(b'[', text).ok_or(ValueFault::BadValue)?;
    if let Some(rest) = behind(b']', inside) {
        return Ok((Values::new(alloc), rest));
    }
    more_of(alloc, item, inside)
}

// Whether an item follows, behind a comma, or the last one was in front of the bracket.
fn separator_of(text: &[u8]) -> Option<(bool, &[u8])>
    ensures { option_map (λ x. (x.0, x.1.now)) result ≡ separator_at text.now }
{
    let [first, rest @ ..] = text else {
        return None;
    };
    match *first {
        b',' => Some((true, rest)),
        b']' => Some((false, rest)),
        _ => None,
    }
}

// An item, and whether another one follows.
#[cycle(value)]
#[tactic(auto, unfolding(crate::specs::Reading::item_at))]
fn item_of<'a>(alloc: Global, item: &Ty, text: &'a [u8]) -> Read<'a, (Value, bool)>
    ensures { Gives (λ x. ((plain_value x.0.0, x.0.1), x.1.now)) result (item_at (value_at (plain_type item.now)) text.now) }
{
    let (value, after) = value_of(alloc, item, text)?;
    let (goes_on, rest) = separator_of(after).ok_or(ValueFault::BadValue)?;
    Ok(((value, goes_on), rest))
}

#[cycle(value)]
fn more_of<'a>(alloc: Global, item: &Ty, text: &'a [u8]) -> Read<'a, Values>
    ensures { Gives (λ x. (plain_values x.0, x.1.now)) result (more_at (value_at (plain_type item.now)) (length text.now) text.now) }
{
    let mut values = Values::new(alloc);
    let mut rest = text;
    for _ in 0..text.len() {
        let ((value, goes_on), after) = item_of(alloc, item, rest)?;
        values.push(value)?;
        if !goes_on {
            return Ok((values, after));
        }
        rest = after;
    }
    Err(ValueFault::BadValue)
}

#[cycle(value)]
#[tactic(auto, unfolding(crate::specs::Reading::value_at))]
fn struct_of<'a>(alloc: Global, fields: &[Field], text: &'a [u8]) -> Read<'a, Value>
    ensures { Gives (λ x. (plain_value x.0, x.1.now)) result (value_at (Struct (listed_fields (map plain_field fields.now))) text.now) }
{
    let inside = behind(b'{', text).ok_or(ValueFault::BadValue)?;
    let (values, after) = fields_of(alloc, fields, inside)?;
    let rest = behind(b'}', after).ok_or(ValueFault::BadValue)?;
    Ok((Value::Struct(values), rest))
}

#[cycle(value)]
fn field_of<'a>(alloc: Global, field: &Field, text: &'a [u8]) -> Read<'a, Value>
    ensures { Gives (λ x. (plain_value x.0, x.1.now)) result (value_at (plain_field field.now).type text.now) }
{
    value_of(alloc, &field.ty, text)
}

// A field behind a comma.
#[cycle(value)]
fn next_field_of<'a>(alloc: Global, field: &Field, text: &'a [u8]) -> Read<'a, Value>
    ensures { Gives (λ x. (plain_value x.0, x.1.now)) result (after_comma (value_at (plain_field field.now).type) text.now) }
{
    let inside = behind(b',', text).ok_or(ValueFault::BadValue)?;
    field_of(alloc, field, inside)
}

#[cycle(value)]
#[tactic(auto, unfolding(crate::specs::Reading::fields_at))]
fn fields_of<'a>(alloc: Global, fields: &[Field], text: &'a [u8]) -> Read<'a, Values>
    ensures { Gives (λ x. (plain_values x.0, x.1.now)) result (fields_at (listed_fields (map plain_field fields.now)) text.now) }
{
    let mut values = Values::new(alloc);
    let [first, others @ ..] = fields else {
        return Ok((values, text));
    };
    let (value, after) = field_of(alloc, first, text)?;
    values.push(value)?;
    let mut rest = after;
    for field in others {
        let (value, after) = next_field_of(alloc, field, rest)?;
        values.push(value)?;
        rest = after;
    }
    Ok((values, rest))
}
