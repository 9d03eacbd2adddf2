// The number of a record's octets.
ghost use Rattle.std.specs.Int.{w32};
ghost use Rattle.std.specs.Prelude.{◌≡◌, ◌++◌, [], ◌∷◌, Option, ◌+◌, ◌-◌, ◌^◌, length, map, min};
ghost use Rattle.pss_base.specs.declared.pid.Pid.{Pid};
ghost use Rattle.type_layout.specs.Types.{Items, Parts, fields_of, values_of};
ghost use Rattle.type_layout.specs.Views.{plain_type, plain_field, plain_value};
ghost use Rattle.type_layout.specs.Members.{plain_member};
ghost use Rattle.type_layout.specs.Values.{Of, AreOf, EachOf, IsRecord, layout_fields};
ghost use Rattle.type_layout.specs.Spelling.{gap, number as spelled, reference, each, spelling, spellings, record_spelling};
ghost use Rattle.cdr_codec.specs.Widths.{octets_in};
ghost use Rattle.cdr_codec.specs.Lengths.{place_behind};
ghost use Rattle.cdr_codec.specs.Places.{behind_numbers};

use crate::width::{Width, width_of};
use type_layout::{Field, Layout, Member, Record, Ty, Value};

/// How many octets `encode_record` gives, or 18,446,744,073,709,551,615 where they are not fewer. It
/// takes no memory.
#[inline(always)]
pub fn record_len(layout: &Layout, value: &Record) -> u64
    requires { IsRecord layout.now.members value.now }
    ensures { result ≡ min (length (record_spelling layout.now.members value.now)) (2 ^ 64 - 1) }
{
    members_end(layout.members.as_slice(), value.0.as_slice(), 1)
}

// A number begins at a multiple of its width.
fn number_end(at: u64, width: Width) -> u64
    ensures { result ≡ place_behind at (gap (octets_in width) at + octets_in width) }
{
    at.saturating_add((width.gap(at as usize) + width.octets()) as u64)
}

// Between numbers of one width there is no padding.
fn numbers_end(at: u64, width: Width, count: usize) -> u64
    ensures { result ≡ min (behind_numbers (octets_in width) count at) (2 ^ 64 - 1) }
{
    if count == 0 {
        return at;
    }
    let octets = (count as u64).saturating_mul(width.octets() as u64);
    at.saturating_add(width.gap(at as usize) as u64)
        .saturating_add(octets)
}

// The octets of a string, and a NUL.
fn text_end(text: &[u8], at: u64) -> u64
    ensures { result ≡ place_behind at (length (spelled w32 (length text.now + 1) at ++ (text.now ++ 0 ∷ []))) }
{
    number_end(at, Width::Four).saturating_add(text.len() as u64 + 1)
}

// All references have as many octets.
fn reference_end(at: u64) -> u64
    ensures { (pid : Option Pid) → result ≡ place_behind at (length (reference pid at)) }
{
    let middle = number_end(at, Width::Four);
    number_end(middle, Width::Eight)
}

#[cycle(length)]
#[inline(always)]
fn value_end(ty: &Ty, value: &Value, at: u64) -> u64
    requires { Of (plain_type ty.now) (plain_value value.now) }
    ensures { result ≡ place_behind at (length (spelling (plain_type ty.now) (plain_value value.now) at)) }
{
    if let Some(width) = width_of(ty) {
        return number_end(at, width);
    }
    match value {
        Value::Str(text) => text_end(text.as_slice(), at),
        Value::Ref(_) => reference_end(at),
        Value::List(values) => list_end(ty, values.as_slice(), at),
        Value::Struct(values) => struct_end(ty, values.as_slice(), at),
        _ => unreachable!(),
    }
}

#[cycle(length)]
fn list_end(ty: &Ty, values: &[Value], at: u64) -> u64
    requires { Of (plain_type ty.now) (Items (values_of (map plain_value values.now))) }
    ensures { result ≡ place_behind at (length (spelling (plain_type ty.now) (Items (values_of (map plain_value values.now))) at)) }
{
    match ty {
        Ty::Seq(item, _) => {
            let first = number_end(at, Width::Four);
            items_end(item, values, first)
        }
        Ty::Arr(item, _) => items_end(item, values, at),
        _ => unreachable!(),
    }
}

#[cycle(length)]
fn struct_end(ty: &Ty, values: &[Value], at: u64) -> u64
    requires { Of (plain_type ty.now) (Parts (values_of (map plain_value values.now))) }
    ensures { result ≡ place_behind at (length (spelling (plain_type ty.now) (Parts (values_of (map plain_value values.now))) at)) }
{
    match ty {
        Ty::Struct(fields) => fields_end(fields.as_slice(), values, at),
        Ty::Str(_) => unreachable!(),
        Ty::Seq(_, _) => unreachable!(),
        Ty::Arr(_, _) => unreachable!(),
        Ty::Ref(_) => unreachable!(),
        _ => unreachable!(),
    }
}

#[cycle(length)]
fn items_end(item: &Ty, values: &[Value], at: u64) -> u64
    requires { EachOf (Of (plain_type item.now)) (values_of (map plain_value values.now)) }
    ensures { result ≡ place_behind at (length (each (spelling (plain_type item.now)) (values_of (map plain_value values.now)) at)) }
{
    if let Some(width) = width_of(item) {
        return numbers_end(at, width, values.len());
    }
    let mut place = at;
    for value in values {
        place = value_end(item, value, place);
    }
    place
}

#[cycle(length)]
fn fields_end(fields: &[Field], values: &[Value], at: u64) -> u64
    requires { AreOf (fields_of (map plain_field fields.now)) (values_of (map plain_value values.now)) }
    ensures { result ≡ place_behind at (length (spellings (fields_of (map plain_field fields.now)) (values_of (map plain_value values.now)) at)) }
{
    let mut remaining = values;
    let mut place = at;
    for field in fields {
        match remaining {
            [value, others @ ..] => {
                place = value_end(&field.ty, value, place);
                remaining = others;
            }
            [] => unreachable!(),
        }
    }
    place
}

fn member_end(member: &Member, value: &Value, at: u64) -> u64
    requires { Of (plain_member member.now).type (plain_value value.now) }
    ensures { result ≡ place_behind at (length (spelling (plain_member member.now).type (plain_value value.now) at)) }
{
    value_end(&member.ty, value, at)
}

fn members_end(members: &[Member], values: &[Value], at: u64) -> u64
    requires { IsRecord (map plain_member members.now) (map plain_value values.now) }
    ensures { result ≡ place_behind at (length (spellings (layout_fields (map plain_member members.now)) (values_of (map plain_value values.now)) at)) }
{
    let mut remaining = values;
    let mut place = at;
    for member in members {
        match remaining {
            [value, others @ ..] => {
                place = member_end(member, value, place);
                remaining = others;
            }
            [] => unreachable!(),
        }
    }
    place
}
